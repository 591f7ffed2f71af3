// Clear (specification 6.3): both checks of a table, that of weights first.
ghost use Rattle.model.specs.Stated.{cleared_as};
ghost use Rattle.clearing.specs.Clear.{ClearPromise};

use crate::clearing::clear_cells;
use cells::layout::CELLS;
use images::tables::read_table;
use model::answers::Refusal;

// Kept (2): (d) clear and mirror_clear are two calls each. One body would take which table is cleared as a closure, or as the switch that went (7).
pub fn clear(table: &[u8], allowance: u16, workspace: &mut [u8]) -> Result<(), Refusal>
    ensures { ClearPromise table.now allowance workspace.old workspace.new (cleared_as result) }
{
    let mut cells = [0u8; CELLS];
    let size = read_table(table, &mut cells)?;
    clear_cells(&cells, size, allowance, workspace)
}
