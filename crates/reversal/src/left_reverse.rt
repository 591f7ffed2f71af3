// Reverse from the finished end (specification 6.12): N, then D, in the answer area.
ghost use Rattle.model.specs.Stated.{reversed};
ghost use Rattle.reversal.specs.LeftReverse.{LeftPromise};

use crate::endings::answer_backward;
use crate::running::run_mirrored;
use areas::bytes::wipe;
use model::answers::{Refusal, Reversed};

pub fn left_reverse(
    table: &[u8],
    program: &[u8],
    allowance: u16,
    workspace: &mut [u8],
    answer: &mut [u8],
) -> Result<Reversed, Refusal>
    ensures { LeftPromise table.now program.now allowance workspace.old workspace.new answer.old
        answer.new (reversed result) }
{
    let ending = run_mirrored(table, program, allowance, workspace)?;
    let result = answer_backward(ending, workspace, answer);
    wipe(workspace);
    result
}
