ghost use Rattle.std.specs.Prelude.{[], ◌≡◌, ◌≤◌, length};
ghost use Rattle.model.specs.Services.{chain_bytes};
ghost use Rattle.model.specs.Images.{most_size};
ghost use Rattle.chain_listing.specs.Layout.{Layout};
ghost use Rattle.chain_listing.specs.Course.{Somewhere, WalkMeans};
ghost use Rattle.chain_listing.specs.Listing.{Listable, ListMeans};

use crate::moves::{Progress, take_letter, turn};
use bits::write_field;
use engine::gap::Gap;
use entries::entry::{COUNT_BITS, position};

// Writes the count of a chain's image and its filling bits.
pub fn prepare(answer: &mut [u8], size: u8, total: u16)
    requires { (1 ≤ size) × (size ≤ most_size) × (chain_bytes size total ≤ length answer.old) }
    ensures { Layout size total answer.old [] [] answer.new }
{
    let end = position(size, total as usize);
    write_field(answer, 0, COUNT_BITS, total as u32);
    write_field(answer, end, (8 - end % 8) % 8, 0);
}

// Takes the letters of the second word one by one, each through all the faces that it comes to.
pub fn walk(
    cells: &[u8],
    size: u8,
    total: usize,
    bytes: &mut [u8],
    start: Progress,
    answer: &mut [u8],
)
    requires { Somewhere cells.now size total [] bytes.old answer.old start }
    ensures length { length bytes.new ≡ length bytes.old }
    ensures walked { WalkMeans cells.now size total bytes.old answer.old start answer.new }
{
    let mut at = start;
    loop {
        if at.stacked > 0 {
            at = turn(cells, size, total, bytes, at, answer);
        } else {
            if at.right == bytes.len() {
                return;
            }
            at = take_letter(cells, size, total, bytes, at, answer);
        }
    }
}

// Lists a chain from u to v. The workspace holds the inverse of u and then v, with a gap between them, as the comparison that answered
// `same` began; `relations` is the number of its steps on two different letters.
pub fn list(cells: &[u8], size: u8, bytes: &mut [u8], start: Gap, relations: u16, answer: &mut [u8])
    requires { Listable cells.now size bytes.old start.left start.right relations (length answer.old) }
    ensures length { length bytes.new ≡ length bytes.old }
    ensures room { length answer.new ≡ length answer.old }
    ensures listed { ListMeans cells.now size bytes.old start.left start.right relations answer.old
        answer.new }
{
    prepare(answer, size, relations);
    let place = Progress {
        left: start.left,
        right: start.right,
        passed: 0,
        emitted: 0,
        stacked: 0,
    };
    walk(cells, size, relations as usize, bytes, place, answer);
}
