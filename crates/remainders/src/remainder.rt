// Remainder (specification 6.10): the moves that are left to run of a pattern, or that none finish it.
ghost use Rattle.model.specs.Services.{remainder};
ghost use Rattle.model.specs.Stated.{remaining};
ghost use Rattle.engine.specs.Run.{Finishable};
ghost use Rattle.loading.specs.Loading.{Forward};
ghost use Rattle.loading.specs.Weighing.{Weigh};
ghost use Rattle.remainders.specs.Remainder.{AnswerOf, Concludes, RemainderPromise};

use areas::bytes::{copy_bytes, wipe};
use cells::layout::CELLS;
use clearing::clearing::clear_cells;
use images::programs::Signs;
use loading::loading::{Programs, read_programs};
use loading::reversing::reverse_images;
use model::answers::{Ending, Refusal, Remaining};
use model::stops::stop_refusal;

// What remainder makes of an ending, with the moves where they finish the pattern and fit.
pub fn answer_ending(
    ending: Ending,
    workspace: &[u8],
    answer: &mut [u8],
) -> Result<Remaining, Refusal>
    requires { Finishable workspace.now ending }
    ensures { AnswerOf ending workspace.now answer.old answer.new result }
{
    match ending {
        Ending::Finished {
            numerator,
            denominator,
            steps,
            relations: _,
        } => {
            if denominator != 0 {
                return Ok(Remaining::Nothing { steps });
            }
            if answer.len() < numerator {
                return Err(Refusal::AnswerShort);
            }
            copy_bytes(&workspace[..numerator], answer);
            Ok(Remaining::Moves {
                count: numerator,
                steps,
            })
        }
        Ending::Undefined { pair: _, steps } => Ok(Remaining::Nothing { steps }),
        Ending::Stopped(stop) => Err(stop_refusal(stop)),
    }
}

// Two accepted forward programs, the part done and the pattern, under a table that was loaded. The workspace is wiped, unless the weight check refused.
pub fn remainder_programs(
    cells: &[u8],
    done: &[u8],
    pattern: &[u8],
    loaded: Programs,
    budget: u16,
    workspace: &mut [u8],
    answer: &mut [u8],
) -> Result<Remaining, Refusal>
    requires programs { Forward cells.now loaded.size done.now loaded.firsts pattern.now loaded.seconds }
    requires weights { Weigh cells.now loaded.size done.now loaded.first_weight pattern.now loaded.second_weight }
    ensures { Concludes cells.now loaded.size done.now pattern.now budget workspace.old workspace.new
        answer.old answer.new result }
{
    clear_cells(cells, loaded.size, budget, workspace)?;
    if loaded.second_weight < loaded.first_weight {
        return Ok(Remaining::Nothing { steps: 0 });
    }
    let ending = reverse_images(cells, done, pattern, loaded, budget, workspace);
    let result = answer_ending(ending, workspace, answer);
    wipe(workspace);
    result
}

pub fn remainder(
    table: &[u8],
    done: &[u8],
    pattern: &[u8],
    allowance: u16,
    workspace: &mut [u8],
    answer: &mut [u8],
) -> Result<Remaining, Refusal>
    ensures { RemainderPromise table.now done.now pattern.now allowance workspace.old workspace.new
        answer.old answer.new (remaining result) }
{
    let mut cells = [0u8; CELLS];
    let loaded = read_programs(table, done, pattern, Signs::Forward, &mut cells)?;
    remainder_programs(&cells, done, pattern, loaded, allowance, workspace, answer)
}
