// What comes before the two reversings: the checks of the table and of its mirror, and the set.
ghost use Rattle.std.specs.Prelude.{◌≡◌, length, replicate};
ghost use Rattle.model.specs.Areas.{workspace_after};
ghost use Rattle.model.specs.Stated.{cleared_as};
ghost use Rattle.cells.specs.Stands.{Sized};
ghost use Rattle.signed_comparing.specs.Preparing.{set_refusal, grown_refusal, MirrorThenSet, BothPrepare, Prepares};

use areas::bytes::wipe;
use cells::layout::{CELLS, UNDEFINED};
use clearing::both_checks::{TriplesOf, check_cubes};
use clearing::clearing::clear_cells;
use mirrors::mirror::mirror_table;
use model::answers::{Place, Refusal, Stop};
use sets::growing::SetFault;
use sets::set::grow_set;

// The refusal that a fault of the set is.
pub(crate) fn set_refusal(fault: SetFault) -> Refusal
    ensures { result ≡ set_refusal fault }
{
    match fault {
        SetFault::OpenPair(pair) => Refusal::SetOpenPair(pair),
        SetFault::TooLarge => Refusal::SetTooLarge,
        SetFault::Stopped(Stop::Budget) => Refusal::AllowanceUsed(Place::Set),
        SetFault::Stopped(Stop::Room) => Refusal::WorkspaceShort(Place::Set),
    }
}

// The answer that growing the set is.
pub fn grown_answer(grown: Result<(), SetFault>) -> Result<(), Refusal>
    ensures { result ≡ grown_refusal grown }
{
    grown.map_err(set_refusal)
}

// The cube check of the mirror, then the set. The workspace is wiped.
pub fn mirror_then_set(
    cells: &[u8],
    mirror: &[u8],
    size: u8,
    budget: u16,
    workspace: &mut [u8],
) -> Result<(), Refusal>
    requires { Sized cells.now size × Sized mirror.now size }
    ensures prepares { MirrorThenSet cells.now mirror.now size budget (length workspace.old) result }
    ensures workspace { workspace.new ≡ replicate (length workspace.old) 0 }
{
    check_cubes(mirror, size, TriplesOf::Mirror, budget, workspace)?;
    let grown = grow_set(cells, size, workspace, budget);
    wipe(workspace);
    grown_answer(grown)
}

// A table that was loaded, and its mirror: the table's own checks come first.
pub fn prepare_both(
    cells: &[u8],
    mirror: &[u8],
    size: u8,
    budget: u16,
    workspace: &mut [u8],
) -> Result<(), Refusal>
    requires { Sized cells.now size × Sized mirror.now size }
    ensures prepares { BothPrepare cells.now mirror.now size budget (length workspace.old) result }
    ensures workspace { workspace.new ≡ workspace_after (cleared_as result) workspace.old }
{
    clear_cells(cells, size, budget, workspace)?;
    mirror_then_set(cells, mirror, size, budget, workspace)
}

// A table that was loaded: its mirror is made first, and 16 comes before the work.
pub fn prepare(cells: &[u8], size: u8, budget: u16, workspace: &mut [u8]) -> Result<(), Refusal>
    requires { Sized cells.now size }
    ensures prepares { Prepares cells.now size budget (length workspace.old) result }
    ensures workspace { workspace.new ≡ workspace_after (cleared_as result) workspace.old }
{
    let mut mirror = [UNDEFINED; CELLS];
    mirror_table(cells, size, &mut mirror).map_err(Refusal::NoMirror)?;
    prepare_both(cells, &mirror, size, budget, workspace)
}
