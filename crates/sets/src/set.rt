// The set: the empty word and the single letters, then each pair of listed words by the later one's place.
ghost use Rattle.std.specs.Prelude.{◌≡◌, length};
ghost use Rattle.cells.specs.Stands.{Sized};
ghost use Rattle.sets.specs.Set.{Growable, GrownMeans, SetMeans};

use crate::growing::{Held, SetFault};
use crate::listed::write_first;
use crate::places::take_place;
use crate::words::Span;
use model::answers::Stop;
use spans::ends::word_end;

// Takes each pair of listed words by the later one's place, until no place is left.
pub fn take_places(cells: &[u8], area: &mut [u8], first: Held, budget: u16) -> Result<(), SetFault>
    requires { Growable cells.now area.old first }
    ensures length { length area.new ≡ length area.old }
    ensures grown { GrownMeans cells.now area.old first budget result }
{
    let mut held = first;
    let mut at: usize = 0;
    while at < held.used {
        let end = word_end(area, at);
        let later = Span {
            at,
            letters: end - at,
        };
        held = take_place(cells, area, held, later, budget)?;
        at = end + 1;
    }
    Ok(())
}

// Grows the set in the workspace, whose content afterwards is of no use.
pub fn grow_set(cells: &[u8], size: u8, workspace: &mut [u8], budget: u16) -> Result<(), SetFault>
    requires { Sized cells.now size }
    ensures length { length workspace.new ≡ length workspace.old }
    ensures set { SetMeans cells.now size (length workspace.old) budget result }
{
    let first = 1 + 2 * (size as usize);
    if workspace.len() < first {
        return Err(SetFault::Stopped(Stop::Room));
    }
    write_first(workspace, size);
    take_places(
        cells,
        workspace,
        Held {
            used: first,
            words: 1 + (size as usize),
        },
        budget,
    )
}
