// The entries of a chain image, one after the other, and whether the word that they lead to is a program's.
ghost use Rattle.std.specs.Prelude.{◌≡◌, length};
ghost use Rattle.model.specs.Word.{Positive};
ghost use Rattle.model.specs.Equivalence.{equal};
ghost use Rattle.model.specs.Outcome.{answered};
ghost use Rattle.model.specs.Services.{read_forward};
ghost use Rattle.swaps.specs.Follow.{Follows, FollowMeans, Spells};

use crate::entry::{Unfit, apply};
use bits::letter_width;
use engine::gap::Gap;
use images::chains::entry_at;
use images::programs::letter_at;

// Why a chain is not followed to its end: the number of the entry that breaks it, or a word that is longer than the area.
#[derive(Clone, Copy)]
pub enum Unfollowed {
    Breaks(u16),
    Short,
}

// The word after the last entry.
pub fn follow(
    cells: &[u8],
    size: u8,
    chain: &[u8],
    count: u16,
    bytes: &mut [u8],
    gap: Gap,
) -> Result<Gap, Unfollowed>
    requires { Follows cells.now size chain.now count bytes.old gap.left gap.right }
    ensures length { length bytes.new ≡ length bytes.old }
    ensures followed { FollowMeans cells.now size chain.now bytes.old gap.left gap.right bytes.new result }
{
    let mut at = gap;
    for i in 0..count {
        let entry = entry_at(chain, size, i as usize);
        at = match apply(cells, size, bytes, at, entry) {
            Ok(next) => next,
            Err(Unfit::Breaks) => return Err(Unfollowed::Breaks(i)),
            Err(Unfit::Short) => return Err(Unfollowed::Short),
        };
    }
    Ok(at)
}

// Whether the bytes are the letters of an accepted forward program.
pub fn spells(word: &[u8], program: &[u8], size: u8, count: u16) -> bool
    requires { Spells program.now size count }
    ensures { (v : Positive) → read_forward size program.now ≡ answered v → result ≡ equal word.now v }
{
    if word.len() != count as usize {
        return false;
    }
    let width = letter_width(size) as u32;
    for (i, letter) in word.iter().enumerate() {
        if *letter != letter_at(program, size, width, i) {
            return false;
        }
    }
    true
}
