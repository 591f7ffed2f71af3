// Clear the mirror (specification 6.13): the table's weights, then the cube check of its mirror.
ghost use Rattle.model.specs.Stated.{cleared_as};
ghost use Rattle.clearing.specs.MirrorClear.{MirrorPromise};

use crate::clearing::clear_mirror;
use cells::layout::CELLS;
use images::tables::read_table;
use model::answers::Refusal;

pub fn mirror_clear(table: &[u8], allowance: u16, workspace: &mut [u8]) -> Result<(), Refusal>
    ensures { MirrorPromise table.now allowance workspace.old workspace.new (cleared_as result) }
{
    let mut cells = [0u8; CELLS];
    let size = read_table(table, &mut cells)?;
    clear_mirror(&cells, size, allowance, workspace)
}
