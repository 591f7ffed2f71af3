// One more pair of listed words: the numerator of its reversing is listed, where it is not yet.
ghost use Rattle.std.specs.Prelude.{◌≡◌, ◌+◌, ◌≤◌, length};
ghost use Rattle.sets.specs.Growing.{Grows, AddMeans, Pairs, PairMeans};

use crate::listed::is_listed;
use crate::room::{load_pair, reverse_pair};
use crate::words::Span;
use model::answers::{Ending, Pair, Stop};

// The most words that are listed.
pub const MOST_WORDS: usize = 256;

// Why growing the set ends early: a pair met an open pair; one word more than the most would be listed; or a reversing was stopped.
#[derive(Clone, Copy)]
pub enum SetFault {
    OpenPair(Pair),
    TooLarge,
    Stopped(Stop),
}

// So many words are listed, in so many bytes.
#[derive(Clone, Copy)]
pub struct Held {
    pub used: usize,
    pub words: usize,
}

// Lists the word of so many letters that stands behind the listed ones, where it is not listed yet. Where there is no room for its zero byte, the
// next reversing, which always comes, would be stopped.
pub fn add_word(area: &mut [u8], held: Held, count: usize) -> Result<Held, SetFault>
    requires { Grows area.old held × (held.used + count ≤ length area.old) }
    ensures length { length area.new ≡ length area.old }
    ensures added { AddMeans area.old held count area.new result }
{
    let (listing, behind) = area.split_at(held.used);
    if is_listed(listing, &behind[..count]) {
        return Ok(held);
    }
    if MOST_WORDS <= held.words {
        return Err(SetFault::TooLarge);
    }
    let end = held.used + count;
    if end == area.len() {
        return Err(SetFault::Stopped(Stop::Room));
    }
    area[end] = 0;
    Ok(Held {
        used: end + 1,
        words: held.words + 1,
    })
}

// Takes the pair u, v.
pub fn take_pair(
    cells: &[u8],
    area: &mut [u8],
    held: Held,
    u: Span,
    v: Span,
    budget: u16,
) -> Result<Held, SetFault>
    requires { Pairs cells.now area.old held u v }
    ensures length { length area.new ≡ length area.old }
    ensures taken { PairMeans cells.now area.old held u v budget area.new result }
{
    let (listing, room) = area.split_at_mut(held.used);
    if room.len() < u.letters {
        return Err(SetFault::Stopped(Stop::Room));
    }
    if room.len() - u.letters < v.letters {
        return Err(SetFault::Stopped(Stop::Room));
    }
    load_pair(listing, room, u, v);
    match reverse_pair(cells, room, u.letters, v.letters, budget) {
        Ending::Finished {
            numerator,
            denominator: _,
            steps: _,
            relations: _,
        } => add_word(area, held, numerator),
        Ending::Undefined { pair, steps: _ } => Err(SetFault::OpenPair(pair)),
        Ending::Stopped(stop) => Err(SetFault::Stopped(stop)),
    }
}
