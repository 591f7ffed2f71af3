// Compare (specification 6.4): two programs of forward letters under a table that must clear first.
ghost use Rattle.std.specs.Prelude.{◌≡◌, length, replicate};
ghost use Rattle.model.specs.Services.{compare};
ghost use Rattle.model.specs.Stated.{compared};
ghost use Rattle.loading.specs.Loading.{Forward};
ghost use Rattle.loading.specs.Weighing.{Weigh};
ghost use Rattle.comparing.specs.Compare.{judgement, Decides, Judges, ComparePromise};

use areas::bytes::wipe;
use cells::layout::CELLS;
use clearing::clearing::clear_cells;
use images::programs::Signs;
use loading::loading::{Programs, read_programs};
use loading::reversing::reverse_images;
use model::answers::{Compared, Ending, Refusal};
use model::stops::stop_refusal;

// What a comparison makes of an ending.
pub fn judge(ending: Ending) -> Result<Compared, Refusal>
    ensures { result ≡ judgement ending }
{
    match ending {
        Ending::Finished {
            numerator,
            denominator,
            steps,
            relations,
        } => {
            if numerator == 0 && denominator == 0 {
                Ok(Compared::Same { steps, relations })
            } else {
                Ok(Compared::Different { steps })
            }
        }
        Ending::Undefined { pair: _, steps } => Ok(Compared::Different { steps }),
        Ending::Stopped(stop) => Err(stop_refusal(stop)),
    }
}

// Two accepted forward programs under a table that has cleared. The workspace is all zero before and after.
pub fn compare_cleared(
    cells: &[u8],
    first: &[u8],
    second: &[u8],
    loaded: Programs,
    budget: u16,
    workspace: &mut [u8],
) -> Result<Compared, Refusal>
    requires programs { Forward cells.now loaded.size first.now loaded.firsts second.now loaded.seconds }
    requires zero { workspace.old ≡ replicate (length workspace.old) 0 }
    requires weights { Weigh cells.now loaded.size first.now loaded.first_weight second.now loaded.second_weight }
    ensures { Decides cells.now loaded.size first.now second.now budget workspace.old workspace.new result }
{
    if loaded.first_weight != loaded.second_weight {
        return Ok(Compared::Different { steps: 0 });
    }
    let ending = reverse_images(cells, first, second, loaded, budget, workspace);
    wipe(workspace);
    judge(ending)
}

// Two accepted forward programs under a table that was loaded. The workspace is wiped, unless the weight check refused.
pub fn compare_programs(
    cells: &[u8],
    first: &[u8],
    second: &[u8],
    loaded: Programs,
    budget: u16,
    workspace: &mut [u8],
) -> Result<Compared, Refusal>
    requires programs { Forward cells.now loaded.size first.now loaded.firsts second.now loaded.seconds }
    requires weights { Weigh cells.now loaded.size first.now loaded.first_weight second.now loaded.second_weight }
    ensures { Judges cells.now loaded.size first.now second.now budget workspace.old workspace.new result }
{
    clear_cells(cells, loaded.size, budget, workspace)?;
    compare_cleared(cells, first, second, loaded, budget, workspace)
}

pub fn compare(
    table: &[u8],
    first: &[u8],
    second: &[u8],
    allowance: u16,
    workspace: &mut [u8],
) -> Result<Compared, Refusal>
    ensures { ComparePromise table.now first.now second.now allowance workspace.old workspace.new
        (compared result) }
{
    let mut cells = [0u8; CELLS];
    let loaded = read_programs(table, first, second, Signs::Forward, &mut cells)?;
    compare_programs(&cells, first, second, loaded, allowance, workspace)
}
