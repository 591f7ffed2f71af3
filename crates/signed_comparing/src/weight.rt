// Whether two words that stand one after the other weigh the same.
ghost use Rattle.std.specs.Prelude.{◌≡◌, ◌+◌, suc, get_or};
ghost use Rattle.cells.specs.Layout.{weight_at};
ghost use Rattle.signed_comparing.specs.Weight.{TwoWords, NextLetter, SameWeight};

use cells::weights::letter_weight;
use model::plain::MOST_WEIGHT;

// The lead of the first word while both weigh the same: so much that it does not fall below 0 when one letter of the second is passed.
pub const EVEN: u16 = 2 * MOST_WEIGHT as u16;

// How far the two words are gone through: the places of their next letters, and the lead of the first, which begins at `EVEN`.
#[derive(Clone, Copy)]
pub struct Balance {
    pub first: usize,
    pub second: usize,
    pub lead: u16,
}

// The weight of the letter at a place, which is passed.
fn pass(cells: &[u8], bytes: &[u8], place: &mut usize) -> u16
    requires { NextLetter cells.now bytes.now place.old }
    ensures weight { result ≡ suc (get_or cells.now (weight_at (get_or bytes.now place.old 0)) 0) }
    ensures passed { place.new ≡ place.old + 1 }
{
    let weight = letter_weight(cells, bytes[*place]);
    *place += 1;
    weight
}

// The two words are gone through together, always on the side that is lighter so far, so that the lead stays within one
// letter's weight of `EVEN`, however long they are.
pub fn same_weight(cells: &[u8], bytes: &[u8], middle: usize, end: usize) -> bool
    requires { TwoWords cells.now bytes.now middle end }
    ensures { SameWeight cells.now bytes.now middle end result }
{
    let mut at = Balance {
        first: 0,
        second: middle,
        lead: EVEN,
    };
    loop {
        if at.lead <= EVEN {
            if at.first == middle {
                return at.lead == EVEN && at.second == end;
            }
            at.lead += pass(cells, bytes, &mut at.first);
        } else {
            if at.second == end {
                return false;
            }
            at.lead -= pass(cells, bytes, &mut at.second);
        }
    }
}
