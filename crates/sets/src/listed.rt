// The listed words, from the area's start on, and the first of them.
ghost use Rattle.std.specs.Prelude.{◌≡◌, ◌+◌, ◌*◌, ◌≤◌, length, take};
ghost use Rattle.model.specs.Ways.{listing_bytes};
ghost use Rattle.model.specs.Signed.{first_words};
ghost use Rattle.sets.specs.Listed.{Listing, ListedMeans};

use spans::ends::word_end;

// Whether a word is one of the listed ones.
pub fn is_listed(listing: &[u8], word: &[u8]) -> bool
    requires { Listing listing.now (length listing.now) }
    ensures { ListedMeans listing.now word.now result }
{
    let mut at: usize = 0;
    while at < listing.len() {
        let end = word_end(listing, at);
        if listing[at..end] == word[..] {
            return true;
        }
        at = end + 1;
    }
    false
}

// Writes the empty word and the single letters.
pub fn write_first(area: &mut [u8], size: u8)
    requires { 1 + 2 * size ≤ length area.old }
    ensures length { length area.new ≡ length area.old }
    ensures words { take (1 + 2 * size) area.new ≡ listing_bytes (first_words size) }
{
    area[0] = 0;
    for a in 0..size {
        let at = 1 + 2 * (a as usize);
        area[at] = a + 1;
        area[at + 1] = 0;
    }
}
