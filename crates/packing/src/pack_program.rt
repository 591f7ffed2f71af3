// Pack a program: its image in the answer area.

ghost use Rattle.model.specs.Stated.{packed_as};
ghost use Rattle.model.specs.Services.{pack_program, program_under, plain_program_under, unpack_program};
ghost use Rattle.packing.specs.RoundTrips.{PackPromise};

use images::tables::table_size;
use model::answers::Refusal;
use plain_forms::reading::read_plain_program;
use writers::programs::write_program;

pub fn pack(table: &[u8], plain: &[u8], answer: &mut [u8]) -> Result<usize, Refusal>
    ensures { PackPromise (pack_program table.now) (unpack_program table.now) (plain_program_under table.now)
        (program_under table.now) plain.now answer.old answer.new (packed_as result) }
{
    let size = table_size(table)?;
    read_plain_program(plain, size)?;
    write_program(plain, size, answer)
}
