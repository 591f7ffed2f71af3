// Pack a table: its image in the answer area.

ghost use Rattle.model.specs.Stated.{packed_as};
ghost use Rattle.model.specs.Images.{read_table};
ghost use Rattle.model.specs.Plain.{read_plain_table};
ghost use Rattle.model.specs.Services.{pack_table, unpack_table};
ghost use Rattle.packing.specs.RoundTrips.{PackPromise};

use cells::layout::CELLS;
use images::forms::image_form;
use model::answers::Refusal;
use plain_forms::reading::read_plain_table;
use writers::tables::write_table;

pub fn pack(plain: &[u8], answer: &mut [u8]) -> Result<usize, Refusal>
    ensures { PackPromise pack_table unpack_table read_plain_table read_table plain.now answer.old answer.new (packed_as result) }
{
    let mut cells = [0u8; CELLS];
    let size = read_plain_table(plain, &mut cells)?;
    write_table(&cells, size, image_form(size), answer)
}
