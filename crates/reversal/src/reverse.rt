// Reverse (specification 6.2): N, then D, in the answer area.
ghost use Rattle.model.specs.Stated.{reversed};
ghost use Rattle.reversal.specs.Reverse.{ReversePromise};

use crate::endings::answer_ending;
use crate::running::run_images;
use areas::bytes::wipe;
use model::answers::{Refusal, Reversed};

// Kept (2): (d) reverse, commit, left_reverse and enquire are three calls each. One body would take what runs and what answers as closures with contracts.
pub fn reverse(
    table: &[u8],
    program: &[u8],
    allowance: u16,
    workspace: &mut [u8],
    answer: &mut [u8],
) -> Result<Reversed, Refusal>
    ensures { ReversePromise table.now program.now allowance workspace.old workspace.new answer.old
        answer.new (reversed result) }
{
    let ending = run_images(table, program, allowance, workspace)?;
    let result = answer_ending(ending, workspace, answer);
    wipe(workspace);
    result
}
