// Both checks of loaded cells: the weights of a table, then the triples of the same table or of its mirror.
ghost use Rattle.std.specs.Prelude.{◌≡◌, length, replicate};
ghost use Rattle.model.specs.Areas.{workspace_after};
ghost use Rattle.model.specs.Stated.{cleared_as};
ghost use Rattle.cells.specs.Stands.{Sized};
ghost use Rattle.clearing.specs.BothChecks.{place_of, triple_refusal, triples_refusal, CubesMean, BothMean};

use areas::bytes::wipe;
use model::answers::{Place, Refusal, Stop, Triple};
use table_checks::table::{TripleFault, check_triples, check_weights};

// Whose triples the cube check goes through.
#[derive(Clone, Copy)]
pub enum TriplesOf {
    Table,
    Mirror,
}

// The place of a triple that was under way.
pub fn triple_place(of: TriplesOf, triple: Triple) -> Place
    ensures { result ≡ place_of of triple }
{
    match of {
        TriplesOf::Table => Place::Triple(triple),
        TriplesOf::Mirror => Place::MirrorTriple(triple),
    }
}

// The refusal that a fault of a triple is.
// Kept (2): (a) the edit stops_exchanged is of the two stops of a triple alone, so that they do not share the match of `model::stops`.
pub(crate) fn triple_refusal(of: TriplesOf, fault: TripleFault) -> Refusal
    ensures { result ≡ triple_refusal of fault }
{
    match fault {
        TripleFault::Fails(triple) => match of {
            TriplesOf::Table => Refusal::CubeFails(triple),
            TriplesOf::Mirror => Refusal::MirrorFails(triple),
        },
        TripleFault::Halts(stop, triple) => match stop {
            Stop::Budget => Refusal::AllowanceUsed(triple_place(of, triple)),
            Stop::Room => Refusal::WorkspaceShort(triple_place(of, triple)),
        },
    }
}

// The answer that the check of the triples is.
pub fn triples_answer(of: TriplesOf, found: Result<(), TripleFault>) -> Result<(), Refusal>
    ensures { result ≡ triples_refusal of found }
{
    found.map_err(|fault| triple_refusal(of, fault))
}

// The cube check of loaded cells. The workspace is wiped.
pub fn check_cubes(
    cells: &[u8],
    size: u8,
    of: TriplesOf,
    budget: u16,
    workspace: &mut [u8],
) -> Result<(), Refusal>
    requires { Sized cells.now size }
    ensures cubes { CubesMean of cells.now size budget (length workspace.old) result }
    ensures workspace { workspace.new ≡ replicate (length workspace.old) 0 }
{
    let found = check_triples(cells, size, workspace, budget);
    wipe(workspace);
    triples_answer(of, found)
}

// Both checks, that of weights first. The workspace is wiped, unless a pair failed the weight check before the work began.
pub fn check_both(
    weighed: &[u8],
    cubed: &[u8],
    size: u8,
    of: TriplesOf,
    budget: u16,
    workspace: &mut [u8],
) -> Result<(), Refusal>
    requires { Sized weighed.now size × Sized cubed.now size }
    ensures checks { BothMean of weighed.now cubed.now size budget (length workspace.old) result }
    ensures workspace { workspace.new ≡ workspace_after (cleared_as result) workspace.old }
{
    check_weights(weighed, size).map_err(Refusal::UnequalWeights)?;
    check_cubes(cubed, size, of, budget, workspace)
}
