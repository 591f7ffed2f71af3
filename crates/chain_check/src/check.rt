// Check a chain (specification 6.7), which may come from anywhere; the table need not clear.
ghost use Rattle.std.specs.Prelude.{◌≡◌, length};
ghost use Rattle.model.specs.Services.{check};
ghost use Rattle.model.specs.Stated.{checked};
ghost use Rattle.images.specs.Programs.{ForwardOf};
ghost use Rattle.swaps.specs.Follow.{Follows};
ghost use Rattle.chain_check.specs.Check.{Arrives, ArrivalMeans, LoadedMeans, ForwardChain, PassageMeans, Checks, CheckPromise};

use areas::bytes::wipe;
use cells::layout::CELLS;
use engine::gap::Gap;
use images::chains::read_chain;
use images::programs::{Signs, unpack_letters};
use loading::loading::{Programs, read_programs};
use model::answers::{Checked, Place, Refusal};
use swaps::follow::{Unfollowed, follow, spells};
use swaps::held::carry;

// Whether the word that the entries led to is the second program. It is brought together at the workspace's start.
pub fn arrive(workspace: &mut [u8], last: Gap, second: &[u8], loaded: Programs) -> Checked
    requires { Arrives workspace.old last.left last.right second.now loaded.size loaded.seconds }
    ensures length { length workspace.new ≡ length workspace.old }
    ensures arrival { ArrivalMeans workspace.old last.left last.right second.now loaded.size result }
{
    let all = last.left + (workspace.len() - last.right);
    carry(workspace, last, all);
    if spells(&workspace[..all], second, loaded.size, loaded.seconds) {
        return Checked::Joins;
    }
    Checked::EndsElsewhere
}

// Follows the entries from the word that stands from `right` on, and compares the word they lead to with the second program.
pub fn pass_loaded(
    cells: &[u8],
    second: &[u8],
    loaded: Programs,
    entries: &[u8],
    count: u16,
    workspace: &mut [u8],
    right: usize,
) -> Result<Checked, Refusal>
    requires follows { Follows cells.now loaded.size entries.now count workspace.old 0 right }
    requires second { ForwardOf second.now loaded.size loaded.seconds }
    ensures length { length workspace.new ≡ length workspace.old }
    ensures passage { LoadedMeans cells.now loaded.size second.now entries.now workspace.old right result }
{
    let first = Gap { left: 0, right };
    match follow(cells, loaded.size, entries, count, workspace, first) {
        Ok(last) => Ok(arrive(workspace, last, second, loaded)),
        Err(Unfollowed::Breaks(k)) => Ok(Checked::Breaks { entry: k as usize }),
        Err(Unfollowed::Short) => Err(Refusal::WorkspaceShort(Place::Programs)),
    }
}

// Follows the entries from the first program, loaded at the workspace's end.
pub fn pass(
    cells: &[u8],
    first: &[u8],
    second: &[u8],
    loaded: Programs,
    entries: &[u8],
    count: u16,
    workspace: &mut [u8],
) -> Result<Checked, Refusal>
    requires { ForwardChain cells.now loaded.size first.now loaded.firsts second.now loaded.seconds entries.now count }
    ensures length { length workspace.new ≡ length workspace.old }
    ensures passage { PassageMeans cells.now loaded.size first.now second.now entries.now
        (length workspace.old) result }
{
    let end = workspace.len();
    let letters = loaded.firsts as usize;
    if end < letters {
        return Err(Refusal::WorkspaceShort(Place::Programs));
    }
    let right = end - letters;
    unpack_letters(first, loaded.size, loaded.firsts, workspace, right);
    pass_loaded(cells, second, loaded, entries, count, workspace, right)
}

// Two accepted forward programs and an accepted chain under a table that was loaded. The workspace is wiped.
pub fn check_programs(
    cells: &[u8],
    first: &[u8],
    second: &[u8],
    loaded: Programs,
    entries: &[u8],
    count: u16,
    workspace: &mut [u8],
) -> Result<Checked, Refusal>
    requires { ForwardChain cells.now loaded.size first.now loaded.firsts second.now loaded.seconds entries.now count }
    ensures { Checks cells.now loaded.size first.now second.now entries.now workspace.old
        workspace.new result }
{
    let answer = pass(cells, first, second, loaded, entries, count, workspace);
    wipe(workspace);
    answer
}

pub fn check(
    table: &[u8],
    first: &[u8],
    second: &[u8],
    entries: &[u8],
    workspace: &mut [u8],
) -> Result<Checked, Refusal>
    ensures { CheckPromise table.now first.now second.now entries.now workspace.old
        workspace.new (checked result) }
{
    let mut cells = [0u8; CELLS];
    let loaded = read_programs(table, first, second, Signs::Forward, &mut cells)?;
    let count = read_chain(entries, loaded.size)?;
    check_programs(&cells, first, second, loaded, entries, count, workspace)
}
