// A word that one swap would make of a word in the area, read without being written.
ghost use Rattle.std.specs.Prelude.{List, ℕ, ◌≡◌, ◌^◌, ◌<◌, length, get_or};
ghost use Rattle.ways.specs.Swap.{Readable, new_length, new_word, OrderMeans};

use std::cmp::Ordering;
use std::marker::Model;

// In the word that begins at `word`, after `offset` letters, `taken` letters give way to `put` others, and `rest` letters follow: the letter
// `first`, then those of the word in the cell at `cell`.
#[derive(Clone, Copy)]
pub struct Swap {
    pub word: usize,
    pub offset: usize,
    pub taken: usize,
    pub rest: usize,
    pub first: u8,
    pub cell: usize,
    pub put: usize,
}

impl Swap {
    // How many letters the new word has.
    pub(crate) fn letters(self) -> usize
        requires { new_length self < 2 ^ 64 }
        ensures { result ≡ new_length self }
    {
        self.offset + self.put + self.rest
    }
}

// The word that a swap makes of a word in the area. What stays of that word is read from the area, and the letters behind `first` from the cells.
#[derive(Drop)]
pub struct NewWord<'a> {
    pub(crate) area: &'a [u8],
    pub(crate) cells: &'a [u8],
    pub(crate) swap: Swap,
}

// A clause sees the new word.
impl<'a> Model for NewWord<'a> {
    ghost Value = { List ℕ };

    ghost view = { λ n. new_word n.area.now n.cells.now n.swap };

    ghost invariant = { λ n. Readable n.area.now n.cells.now n.swap };
}

impl NewWord<'_> {
    // A letter of the new word.
    pub fn letter(&self, i: usize) -> u8
        requires { i < length self.now }
        ensures { result ≡ get_or self.now i 0 }
    {
        let swap = self.swap;
        let offset = swap.offset;
        if i < offset {
            return self.area[swap.word + i];
        }
        if i == offset {
            return swap.first;
        }
        if i < offset + swap.put {
            return self.cells[swap.cell + (i - offset)];
        }
        self.area[swap.word + swap.taken + (i - swap.put)]
    }

    // The new word against a listed one: by the first letter that differs.
    pub fn compare(&self, listed: &[u8]) -> Ordering
        ensures { OrderMeans self.now listed.now result }
    {
        for i in 0..self.swap.letters().min(listed.len()) {
            let new = self.letter(i);
            let old = listed[i];
            if new != old {
                return new.cmp(&old);
            }
        }
        Ordering::Equal
    }
}
