// Ways (specification 6.14): all words of forward moves that are joined to a program, each once, in the answer area.
ghost use Rattle.model.specs.Ways.{ways};
ghost use Rattle.model.specs.Stated.{listed_as};
ghost use Rattle.ways.specs.Service.{Listable, ProgramListed, WaysPromise};

use crate::listing::list_words;
use crate::marks::UNTRIED;
use areas::bytes::wipe;
use cells::layout::CELLS;
use images::programs::{Signs, unpack_letters};
use loading::loading::read_table_program;
use model::answers::{Refusal, Ways};
use table_checks::table::check_weights;

// An accepted program under a table that passed the weight check. Where the listing is longer than the area, the area is wiped.
pub fn list_program(
    cells: &[u8],
    size: u8,
    program: &[u8],
    count: u16,
    answer: &mut [u8],
) -> Result<Ways, Refusal>
    requires { Listable cells.now size program.now count }
    ensures { ProgramListed cells.now size program.now answer.old answer.new result }
{
    let letters = count as usize;
    if answer.len() <= letters {
        wipe(answer);
        return Err(Refusal::AnswerShort);
    }
    unpack_letters(program, size, count, answer, 0);
    answer[letters] = UNTRIED;
    match list_words(answer, cells, size, letters + 1) {
        None => {
            wipe(answer);
            Err(Refusal::AnswerShort)
        }
        Some(listed) => Ok(listed),
    }
}

pub fn ways(table: &[u8], program: &[u8], answer: &mut [u8]) -> Result<Ways, Refusal>
    ensures { WaysPromise table.now program.now answer.old answer.new (listed_as result) }
{
    let mut cells = [0u8; CELLS];
    let read = read_table_program(table, program, Signs::Forward, &mut cells)?;
    check_weights(&cells, read.size).map_err(Refusal::UnequalWeights)?;
    list_program(&cells, read.size, program, read.count, answer)
}
