// One reversing in the room that the listed words leave: of the inverse of a listed word, then a listed word.
ghost use Rattle.std.specs.Prelude.{◌≡◌, length};
ghost use Rattle.sets.specs.Room.{Fit, Loaded, PairAtEnds, PairReverses};

use crate::words::Span;
use areas::bytes::copy_bytes;
use engine::gap::Gap;
use engine::run::reversing;
use engine::words::invert;
use model::answers::Ending;

// Copies a listed word to the room's start and one to its end.
pub fn load_pair(listing: &[u8], room: &mut [u8], u: Span, v: Span)
    requires { Fit listing.now room.old u v }
    ensures { Loaded listing.now room.old u v room.new }
{
    copy_bytes(&listing[u.at..u.at + u.letters], room);
    let end = room.len() - v.letters;
    copy_bytes(&listing[v.at..v.at + v.letters], &mut room[end..]);
}

// Inverts the word of `left` letters at the room's start; then it and the word of `right` letters at the room's end are reversed.
pub fn reverse_pair(cells: &[u8], room: &mut [u8], left: usize, right: usize, budget: u16) -> Ending
    requires { PairAtEnds cells.now room.old left right }
    ensures length { length room.new ≡ length room.old }
    ensures reverses { PairReverses cells.now room.old left right budget room.new result }
{
    invert(&mut room[..left]);
    let end = room.len();
    reversing(
        cells,
        room,
        Gap {
            left,
            right: end - right,
        },
        budget,
    )
}
