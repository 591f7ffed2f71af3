// Bed (specification 6.11): the bobbins and their crossings after the first moves of a program, in the answer area.
ghost use Rattle.model.specs.Stated.{packed_as};
ghost use Rattle.model.specs.Bed.{bed};
ghost use Rattle.images.specs.Programs.{Accepted};
ghost use Rattle.bed.specs.Shown.{Made, ProgramAnswered};
ghost use Rattle.bed.specs.Meaning.{BedPromise};

use crate::braid_table::read_braid;
use crate::moves::laid;
use crate::writing::write_bed;
use cells::layout::CELLS;
use images::programs::read_program;
use model::answers::Refusal;

// How many moves of a program are made where the caller names any number.
pub fn moves_made(count: u16, moves: u64) -> u16
    ensures { Made count moves result }
{
    moves.min(count as u64) as u16
}

// An accepted program under a braid table.
pub fn show_program(
    program: &[u8],
    size: u8,
    count: u16,
    moves: u64,
    answer: &mut [u8],
) -> Result<usize, Refusal>
    requires { Accepted program.now size count }
    ensures { ProgramAnswered program.now size moves answer.old answer.new result }
{
    let places = size as usize + 1;
    let bytes = places * places;
    if answer.len() < bytes {
        return Err(Refusal::AnswerShort);
    }
    let bed = laid(program, size, count, moves_made(count, moves));
    write_bed(&bed, answer);
    Ok(bytes)
}

pub fn bed(table: &[u8], program: &[u8], moves: u64, answer: &mut [u8]) -> Result<usize, Refusal>
    ensures { BedPromise table.now program.now moves answer.old answer.new (packed_as result) }
{
    let mut cells = [0u8; CELLS];
    let size = read_braid(table, &mut cells)?;
    let read = read_program(program, &cells, size)?;
    show_program(program, size, read.count, moves, answer)
}
