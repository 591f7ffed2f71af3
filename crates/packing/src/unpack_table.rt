// Unpack a table: its plain form in the answer area.

ghost use Rattle.model.specs.Stated.{packed_as};
ghost use Rattle.model.specs.Images.{read_table};
ghost use Rattle.model.specs.Plain.{read_plain_table};
ghost use Rattle.model.specs.Services.{unpack_table, pack_table};
ghost use Rattle.packing.specs.RoundTrips.{PackPromise};

use cells::layout::CELLS;
use images::forms::plain_form;
use images::tables::read_table;
use model::answers::Refusal;
use writers::tables::write_table;

pub fn unpack(table: &[u8], answer: &mut [u8]) -> Result<usize, Refusal>
    ensures { PackPromise unpack_table pack_table read_table read_plain_table table.now answer.old answer.new (packed_as result) }
{
    let mut cells = [0u8; CELLS];
    let size = read_table(table, &mut cells)?;
    write_table(&cells, size, plain_form(), answer)
}
