// Enquire (specification 6.15): the lengths of N and D and the steps, with no answer area.
ghost use Rattle.std.specs.Prelude.{◌≡◌};
ghost use Rattle.model.specs.Stated.{reversed};
ghost use Rattle.reversal.specs.Enquire.{sizes_told, EnquirePromise};

use crate::running::run_images;
use areas::bytes::wipe;
use model::answers::{Ending, Refusal, Reversed};
use model::stops::stop_refusal;

// What enquire makes of an ending.
pub fn sizes_of(ending: Ending) -> Result<Reversed, Refusal>
    ensures { result ≡ sizes_told ending }
{
    match ending {
        Ending::Finished {
            numerator,
            denominator,
            steps,
            relations: _,
        } => Ok(Reversed {
            numerator,
            denominator,
            steps,
        }),
        Ending::Undefined { pair, steps: _ } => Err(Refusal::OpenPair(pair)),
        Ending::Stopped(stop) => Err(stop_refusal(stop)),
    }
}

pub fn enquire(
    table: &[u8],
    program: &[u8],
    allowance: u16,
    workspace: &mut [u8],
) -> Result<Reversed, Refusal>
    ensures { EnquirePromise table.now program.now allowance workspace.old workspace.new (reversed result) }
{
    let ending = run_images(table, program, allowance, workspace)?;
    wipe(workspace);
    sizes_of(ending)
}
