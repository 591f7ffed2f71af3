// Where a new word belongs among the listed ones.
ghost use Rattle.std.specs.Prelude.{List, length};
ghost use Rattle.ways.specs.Area.{Marked, Spells, Searched, PlaceMeans};

use crate::swap::NewWord;
use spans::ends::{word_end, word_start};
use std::cmp::Ordering;

// The byte at which the new word belongs, and none where the word is there already. By halving the bytes in question: the word that has the middle
// byte is compared.
pub fn find_place(listed: &[u8], new: &NewWord) -> Option<usize>
    requires { Searched listed.now (length listed.now) }
    ensures { (ms : List Marked) → Spells listed.now (length listed.now) ms → PlaceMeans ms new.now result }
{
    let mut low: usize = 0;
    let mut high = listed.len();
    while low < high {
        let middle = low + (high - low) / 2;
        let start = word_start(listed, low, middle);
        let end = word_end(listed, middle);
        match new.compare(&listed[start..end]) {
            Ordering::Equal => return None,
            Ordering::Less => high = start,
            Ordering::Greater => low = end + 1,
        }
    }
    Some(low)
}
