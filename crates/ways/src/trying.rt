// The swaps of one word tried: what is new is put among the listed words.
ghost use Rattle.std.specs.Prelude.{◌≡◌, ◌∷◌, ◌+◌, ◌≤◌, ◌<◌, length, take, drop};
ghost use Rattle.model.specs.Equivalence.{equal};
ghost use Rattle.ways.specs.State.{Swaps, Works, AddMeans, held_word, Letter, FittingMeans, LetterMeans, Trial, At, Any, TrialMeans};

use crate::insert::{insert, moved_on};
use crate::search::find_place;
use crate::swap::{NewWord, Swap};
use cells::layout::{UNDEFINED_LENGTH, cell_at};
use cells::words::cell_word;
use swaps::side::stands_at;

// The word under trial begins at `word` and has so many letters; so many bytes of the area are used.
#[derive(Clone, Copy)]
pub struct Held {
    pub word: usize,
    pub letters: usize,
    pub used: usize,
}

// Lists the new word of a swap, where it is not listed yet. None: the listing is longer than the area.
pub fn add(area: &mut [u8], cells: &[u8], held: Held, swap: Swap) -> Option<Held>
    requires { Works cells.now area.old held × Swaps area.old cells.now held swap }
    ensures length { length area.new ≡ length area.old }
    ensures added { AddMeans cells.now area.old held swap area.new result }
{
    let used = held.used;
    let whole = &*area;
    let new = NewWord {
        area: whole,
        cells,
        swap,
    };
    let Some(at) = find_place(&whole[..used], &new) else {
        return Some(held);
    };
    let count = swap.letters() + 1;
    if area.len() - used < count {
        return None;
    }
    insert(area, cells, swap, at, used);
    Some(Held {
        word: moved_on(held.word, at, count),
        used: used + count,
        ..held
    })
}

// Whether `a`, then another word, stand in the word under trial after `offset` letters.
pub fn stands_in_word(area: &[u8], held: Held, offset: usize, a: u8, word: &[u8]) -> bool
    requires { (held.word + held.letters ≤ length area.now) × (offset ≤ held.letters) }
    ensures { result ≡ equal (take (1 + length word.now) (drop offset (held_word area.now held))) (a ∷ word.now) }
{
    if held.letters < offset + (1 + word.len()) {
        return false;
    }
    stands_at(area, held.word + offset, a, word)
}

// The swap that the relation of a letter of the word and another letter allows there: the side that begins with the one, where it stands, gives way
// to the side that begins with the other.
pub fn fitting_swap(area: &[u8], cells: &[u8], held: Held, offset: usize, b: u8) -> Option<Swap>
    requires { Letter cells.now area.now held offset b }
    ensures { FittingMeans cells.now area.now held offset b result }
{
    let a = area[held.word + offset];
    if a == b {
        return None;
    }
    let to = cell_at(a, b);
    let x = cells[to] as usize;
    if x == UNDEFINED_LENGTH {
        return None;
    }
    if !stands_in_word(area, held, offset, a, cell_word(cells, to)) {
        return None;
    }
    let from = cell_at(b, a);
    let y = cells[from] as usize;
    Some(Swap {
        word: held.word,
        offset,
        taken: 1 + x,
        rest: held.letters - (offset + (1 + x)),
        first: b,
        cell: from,
        put: 1 + y,
    })
}

// Tries the relation of a letter of the word and another letter.
pub fn try_letter(area: &mut [u8], cells: &[u8], held: Held, offset: usize, b: u8) -> Option<Held>
    requires { Letter cells.now area.old held offset b }
    ensures length { length area.new ≡ length area.old }
    ensures tried { LetterMeans cells.now area.old held offset b area.new result }
{
    match fitting_swap(area, cells, held, offset, b) {
        None => Some(held),
        Some(swap) => add(area, cells, held, swap),
    }
}

// Tries every relation of a letter of the word.
pub fn try_place(area: &mut [u8], cells: &[u8], size: u8, held: Held, offset: usize) -> Option<Held>
    requires { Trial cells.now size area.old held × (offset < held.letters) }
    ensures length { length area.new ≡ length area.old }
    ensures tried { TrialMeans cells.now size area.old held (At offset) area.new result }
{
    let mut now = held;
    for b in 1..=size {
        now = try_letter(area, cells, now, offset, b)?;
    }
    Some(now)
}

// Tries every swap of the word.
pub fn try_word(area: &mut [u8], cells: &[u8], size: u8, held: Held) -> Option<Held>
    requires { Trial cells.now size area.old held }
    ensures length { length area.new ≡ length area.old }
    ensures tried { TrialMeans cells.now size area.old held Any area.new result }
{
    let mut now = held;
    for offset in 0..held.letters {
        now = try_place(area, cells, size, now, offset)?;
    }
    Some(now)
}
