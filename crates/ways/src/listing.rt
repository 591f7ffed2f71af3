// All words joined to the program whose letters stand in the area.
ghost use Rattle.std.specs.Prelude.{◌≡◌, length};
ghost use Rattle.ways.specs.Listing.{Begun, ListMeans, NextUntried, NextMeans};

use crate::marks::first_untried;
use crate::trying::{Held, try_word};
use model::answers::Ways;
use spans::ends::word_start;

// Tries the swaps of the untried word that ends at `end`, and marks it as tried: so many bytes are used afterwards. None: the listing is longer than the
// area.
pub fn try_next(area: &mut [u8], cells: &[u8], size: u8, used: usize, end: usize) -> Option<usize>
    requires { NextUntried cells.now size area.old used end }
    ensures length { length area.new ≡ length area.old }
    ensures tried { NextMeans cells.now size area.old used area.new result }
{
    let word = word_start(area, 0, end);
    let letters = end - word;
    let held = Held {
        word,
        letters,
        used,
    };
    let next = try_word(area, cells, size, held)?;
    let mark = next.word + next.letters;
    area[mark] = 0;
    Some(next.used)
}

// The area begins with the program's word, which is marked as untried, in the first `first` bytes. None: the listing is longer than the area.
pub fn list_words(area: &mut [u8], cells: &[u8], size: u8, first: usize) -> Option<Ways>
    requires { Begun cells.now size area.old first }
    ensures length { length area.new ≡ length area.old }
    ensures listed { ListMeans cells.now size area.old first area.new result }
{
    let mut used = first;
    let mut words: usize = 0;
    while let Some(end) = first_untried(&area[..used]) {
        used = try_next(area, cells, size, used, end)?;
        words += 1;
    }
    Some(Ways { words, bytes: used })
}
