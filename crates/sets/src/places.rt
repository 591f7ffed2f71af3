// The pairs of a listed word with itself and with those before it.
ghost use Rattle.std.specs.Prelude.{◌≡◌, length};
ghost use Rattle.sets.specs.Growing.{Pairs, PairMeans};
ghost use Rattle.sets.specs.Places.{is_taken, chosen_of, sided, Later, PlacesMean};
ghost use Rattle.model.specs.Signed.{places_at};

use crate::growing::{Held, SetFault, take_pair};
use crate::words::Span;
use spans::ends::word_end;

// Which of the two words of a pair the later one is.
#[derive(Clone, Copy)]
pub enum Side {
    Second,
    First,
}

impl Side {
    // Whether the word that begins at a byte is taken with the later one: those before it are, and where it is first, so is it itself.
    pub fn is_taken(self, at: usize, last: usize) -> bool
        ensures { result ≡ is_taken self at last }
    {
        match self {
            Side::Second => at < last,
            Side::First => at <= last,
        }
    }
}

// Takes the pair of the later word, on its side, and another one.
pub fn take_with(
    cells: &[u8],
    area: &mut [u8],
    held: Held,
    later: Span,
    other: Span,
    side: Side,
    budget: u16,
) -> Result<Held, SetFault>
    requires { Pairs cells.now area.old held (chosen_of side later other) (chosen_of side other later) }
    ensures length { length area.new ≡ length area.old }
    ensures taken { PairMeans cells.now area.old held (chosen_of side later other) (chosen_of side other later) budget
        area.new result }
{
    let (u, v) = match side {
        Side::Second => (other, later),
        Side::First => (later, other),
    };
    take_pair(cells, area, held, u, v, budget)
}

// The later word, on its side, with each word before it, and then with itself where it is first.
pub fn take_side(
    cells: &[u8],
    area: &mut [u8],
    held: Held,
    later: Span,
    side: Side,
    budget: u16,
) -> Result<Held, SetFault>
    requires { Later cells.now area.old held later }
    ensures length { length area.new ≡ length area.old }
    ensures taken { PlacesMean (sided side) cells.now area.old held later budget area.new result }
{
    let last = later.at;
    let mut current = held;
    let mut at: usize = 0;
    while side.is_taken(at, last) {
        let end = word_end(area, at);
        let other = Span {
            at,
            letters: end - at,
        };
        current = take_with(cells, area, current, later, other, side, budget)?;
        at = end + 1;
    }
    Ok(current)
}

// All pairs of which the later word is the later one.
pub fn take_place(
    cells: &[u8],
    area: &mut [u8],
    held: Held,
    later: Span,
    budget: u16,
) -> Result<Held, SetFault>
    requires { Later cells.now area.old held later }
    ensures length { length area.new ≡ length area.old }
    ensures taken { PlacesMean places_at cells.now area.old held later budget area.new result }
{
    let next = take_side(cells, area, held, later, Side::Second, budget)?;
    take_side(cells, area, next, later, Side::First, budget)
}
