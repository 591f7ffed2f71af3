// Compare_signed (specification 6.18): two programs of any signs under a table that must clear, and so must its mirror, and whose set must close.
ghost use Rattle.std.specs.Prelude.{◌≡◌, length};
ghost use Rattle.model.specs.Stated.{compared_signed};
ghost use Rattle.loading.specs.Loading.{SignedRuns};
ghost use Rattle.signed_comparing.specs.Service.{after_first_as, Ran, Settles, SignedCompared, SignedPromise};

use crate::fraction::compare_fraction;
use crate::preparing::prepare;
use crate::running::reverse_signed;
use areas::bytes::wipe;
use cells::layout::CELLS;
use images::programs::Signs;
use loading::loading::{Programs, read_programs};
use model::answers::{Compared, ComparedSigned, Ending, Refusal};
use model::stops::stop_refusal;

// The verdict on N and D, with the steps of the first reversing.
pub fn after_first(first: u16, second: Result<Compared, Refusal>) -> Result<ComparedSigned, Refusal>
    ensures { result ≡ after_first_as first second }
{
    match second? {
        Compared::Same {
            steps,
            relations: _,
        } => Ok(ComparedSigned::Same {
            first,
            second: steps,
        }),
        Compared::Different { steps } => Ok(ComparedSigned::Different {
            first,
            second: steps,
        }),
    }
}

// What the first reversing comes to.
pub fn settle(
    cells: &[u8],
    ending: Ending,
    budget: u16,
    workspace: &mut [u8],
) -> Result<ComparedSigned, Refusal>
    requires { Ran cells.now workspace.old ending }
    ensures length { length workspace.new ≡ length workspace.old }
    ensures settles { Settles cells.now workspace.old ending budget result }
{
    match ending {
        Ending::Finished {
            numerator,
            denominator,
            steps,
            relations: _,
        } => {
            let second = compare_fraction(cells, numerator, denominator, budget, workspace);
            after_first(steps, second)
        }
        Ending::Undefined { pair, steps: _ } => Err(Refusal::OpenPair(pair)),
        Ending::Stopped(stop) => Err(stop_refusal(stop)),
    }
}

// Two accepted programs under a table that was loaded. The workspace is wiped, unless a check refused before the work began.
pub fn compare_loaded(
    cells: &[u8],
    first: &[u8],
    second: &[u8],
    loaded: Programs,
    budget: u16,
    workspace: &mut [u8],
) -> Result<ComparedSigned, Refusal>
    requires { SignedRuns cells.now loaded.size first.now loaded.firsts second.now loaded.seconds }
    ensures { SignedCompared cells.now loaded.size first.now second.now budget workspace.old
        workspace.new result }
{
    prepare(cells, loaded.size, budget, workspace)?;
    let ending = reverse_signed(cells, first, second, loaded, budget, workspace);
    let answer = settle(cells, ending, budget, workspace);
    wipe(workspace);
    answer
}

pub fn compare_signed(
    table: &[u8],
    first: &[u8],
    second: &[u8],
    allowance: u16,
    workspace: &mut [u8],
) -> Result<ComparedSigned, Refusal>
    ensures { SignedPromise table.now first.now second.now allowance workspace.old workspace.new
        (compared_signed result) }
{
    let mut cells = [0u8; CELLS];
    let loaded = read_programs(table, first, second, Signs::Any, &mut cells)?;
    compare_loaded(&cells, first, second, loaded, allowance, workspace)
}
