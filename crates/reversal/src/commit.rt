// Commit (specification 6.16): as reverse, for a caller who has the three numbers of an enquiry.
ghost use Rattle.model.specs.Stated.{reversed};
ghost use Rattle.reversal.specs.Asked.{handed};
ghost use Rattle.reversal.specs.Commit.{CommitPromise};

use crate::asked::Handed;
use crate::endings::commit_ending;
use crate::running::run_images;
use areas::bytes::wipe;
use model::answers::{Refusal, Reversed};

pub fn commit(
    table: &[u8],
    program: &[u8],
    allowance: u16,
    numbers: Handed,
    workspace: &mut [u8],
    answer: &mut [u8],
) -> Result<Reversed, Refusal>
    ensures { CommitPromise table.now program.now allowance (handed numbers) workspace.old workspace.new
        answer.old answer.new (reversed result) }
{
    let ending = run_images(table, program, allowance, workspace)?;
    let result = commit_ending(ending, numbers, workspace, answer);
    wipe(workspace);
    result
}
