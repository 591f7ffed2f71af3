// A new word put among the listed ones.
ghost use Rattle.std.specs.Prelude.{[], ◌∷◌, ◌++◌, ◌≡◌, ◌+◌, ◌^◌, ◌≤◌, ◌<◌, length};
ghost use Rattle.ways.specs.Marks.{untried};
ghost use Rattle.ways.specs.Swap.{Readable, new_length, new_word};
ghost use Rattle.ways.specs.Insert.{Shifted, Put, Apart, Beside, Opened, moved_on};

use crate::marks::UNTRIED;
use crate::swap::{NewWord, Swap};

// Moves the bytes from a place up to `used` so many places on, the last one first.
// Kept (3, 4): (a) the archive wants memcpy and memset alone (specification 1.2), and copy_within wants memmove.
pub fn shift(area: &mut [u8], at: usize, used: usize, by: usize)
    requires { (at ≤ used) × (used + by ≤ length area.old) }
    ensures { Shifted area.old at used by area.new }
{
    for i in (at..used).rev() {
        area[i + by] = area[i];
    }
}

// Writes the new word, marked as untried, beside the word that it is made of.
pub fn write_word(area: &mut [u8], cells: &[u8], swap: Swap, at: usize)
    requires { Readable area.old cells.now swap × Apart swap at × (at + new_length swap + 1 ≤ length area.old) }
    ensures { Put area.old at (new_word area.old cells.now swap ++ (untried ∷ [])) area.new }
{
    let letters = swap.letters();
    for i in 0..letters {
        let new = NewWord { area, cells, swap };
        area[at + i] = new.letter(i);
    }
    area[at + letters] = UNTRIED;
}

// Where a byte stands after those from a place on were moved so many places on.
pub fn moved_on(byte: usize, at: usize, by: usize) -> usize
    requires { byte + by < 2 ^ 64 }
    ensures { result ≡ moved_on byte at by }
{
    if byte < at {
        return byte;
    }
    byte + by
}

// Makes room for the new word and writes it; the word that it is made of may move with those behind the place.
pub fn insert(area: &mut [u8], cells: &[u8], swap: Swap, at: usize, used: usize)
    requires { Readable area.old cells.now swap × Beside swap at used × (used + (new_length swap + 1) ≤ length area.old) }
    ensures { Opened area.old at used (new_word area.old cells.now swap ++ (untried ∷ [])) area.new }
{
    let count = swap.letters() + 1;
    shift(area, at, used, count);
    let moved = Swap {
        word: moved_on(swap.word, at, count),
        ..swap
    };
    write_word(area, cells, moved, at);
}
