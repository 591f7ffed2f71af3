// A table that was loaded, or its mirror, is cleared.
ghost use Rattle.std.specs.Prelude.{◌≡◌, length};
ghost use Rattle.model.specs.Areas.{workspace_after};
ghost use Rattle.model.specs.Stated.{cleared_as};
ghost use Rattle.cells.specs.Stands.{Sized};
ghost use Rattle.clearing.specs.Clearing.{ClearsBy};

use crate::both_checks::{TriplesOf, check_both};
use cells::layout::{CELLS, UNDEFINED};
use mirrors::mirror::mirror_table;
use model::answers::Refusal;

// Clears a table that was loaded.
#[tactic(auto, using(crate::proofs::Cleared::table_clears))]
pub fn clear_cells(cells: &[u8], size: u8, budget: u16, workspace: &mut [u8]) -> Result<(), Refusal>
    requires { Sized cells.now size }
    ensures clear { ClearsBy TriplesOf.Table cells.now size budget (length workspace.old) result }
    ensures workspace { workspace.new ≡ workspace_after (cleared_as result) workspace.old }
{
    check_both(cells, cells, size, TriplesOf::Table, budget, workspace)
}

// Clears the mirror of a table that was loaded: it is made once, and 16 comes before the work.
#[tactic(auto, unfolding(model::specs::Services::mirror_cleared))]
pub fn clear_mirror(
    cells: &[u8],
    size: u8,
    budget: u16,
    workspace: &mut [u8],
) -> Result<(), Refusal>
    requires { Sized cells.now size }
    ensures clear { ClearsBy TriplesOf.Mirror cells.now size budget (length workspace.old) result }
    ensures workspace { workspace.new ≡ workspace_after (cleared_as result) workspace.old }
{
    let mut mirror = [UNDEFINED; CELLS];
    mirror_table(cells, size, &mut mirror).map_err(Refusal::NoMirror)?;
    check_both(cells, &mirror, size, TriplesOf::Mirror, budget, workspace)
}
