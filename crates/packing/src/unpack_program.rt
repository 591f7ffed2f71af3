// Unpack a program: its letters, a byte each, in the answer area.

ghost use Rattle.model.specs.Stated.{packed_as};
ghost use Rattle.model.specs.Services.{unpack_program, program_under, plain_program_under, pack_program};
ghost use Rattle.packing.specs.RoundTrips.{PackPromise};

use cells::layout::CELLS;
use images::programs::{read_program, unpack_letters};
use images::tables::read_table;
use model::answers::Refusal;

pub fn unpack(table: &[u8], program: &[u8], answer: &mut [u8]) -> Result<usize, Refusal>
    ensures { PackPromise (unpack_program table.now) (pack_program table.now) (program_under table.now)
        (plain_program_under table.now) program.now answer.old answer.new (packed_as result) }
{
    let mut cells = [0u8; CELLS];
    let size = read_table(table, &mut cells)?;
    let read = read_program(program, &cells, size)?;
    let bytes = read.count as usize;
    if answer.len() < bytes {
        return Err(Refusal::AnswerShort);
    }
    unpack_letters(program, size, read.count, answer, 0);
    Ok(bytes)
}
