// One entry of a chain applied to the word in the area.
ghost use Rattle.std.specs.Prelude.{◌≡◌, ◌+◌, ◌≤◌, length};
ghost use Rattle.images.specs.Chains.{entry_of};
ghost use Rattle.swaps.specs.Held.{Placed};
ghost use Rattle.swaps.specs.Entry.{Applies, ReplaceMeans, Exchanges, ExchangeMeans, ApplyMeans};

use crate::held::carry;
use crate::side::{put_side, stands_at};
use cells::layout::{UNDEFINED, cell_at};
use cells::words::cell_word;
use engine::gap::Gap;
use entries::entry::ChainEntry;

// Why an entry leads to no word in the area: it breaks the chain, or its word is longer than the area.
#[derive(Clone, Copy)]
pub enum Unfit {
    Breaks,
    Short,
}

// Puts `b` and a word in the place of the `taken` letters from `right` on.
pub fn replace(bytes: &mut [u8], gap: Gap, taken: usize, b: u8, word: &[u8]) -> Result<Gap, Unfit>
    requires { Placed bytes.old gap.left gap.right × (gap.right + taken ≤ length bytes.old) }
    ensures length { length bytes.new ≡ length bytes.old }
    ensures replaced { ReplaceMeans bytes.old gap.left (gap.right + taken) b word.now bytes.new result }
{
    let end = gap.right + taken;
    let count = 1 + word.len();
    if end < gap.left + count {
        return Err(Unfit::Short);
    }
    let start = end - count;
    put_side(bytes, start, b, word);
    Ok(Gap {
        left: gap.left,
        right: start,
    })
}

// Where the side of the relation of two letters that begins with `a` stands behind the gap, it gives way to the side that begins with `b`.
pub fn exchange(cells: &[u8], bytes: &mut [u8], gap: Gap, a: u8, b: u8) -> Result<Gap, Unfit>
    requires { Exchanges cells.now bytes.old gap.left gap.right a b }
    ensures length { length bytes.new ≡ length bytes.old }
    ensures exchanged { ExchangeMeans cells.now bytes.old gap.left gap.right a b bytes.new result }
{
    let to = cell_at(a, b);
    let from = cell_at(b, a);
    let there = cell_word(cells, to);
    let back = cell_word(cells, from);
    let stands = stands_at(bytes, gap.right, a, there);
    if !stands {
        return Err(Unfit::Breaks);
    }
    replace(bytes, gap, 1 + there.len(), b, back)
}

// Applies an entry: the gap goes to its offset, where the side is looked for.
pub fn apply(
    cells: &[u8],
    size: u8,
    bytes: &mut [u8],
    gap: Gap,
    entry: ChainEntry,
) -> Result<Gap, Unfit>
    requires { Applies cells.now size bytes.old gap.left gap.right (entry_of entry) }
    ensures length { length bytes.new ≡ length bytes.old }
    ensures applied { ApplyMeans cells.now size bytes.old gap.left gap.right (entry_of entry) bytes.new result }
{
    let a = entry.a;
    let b = entry.b;
    let offset = entry.offset as usize;
    if a == b {
        return Err(Unfit::Breaks);
    }
    let to = cell_at(a, b);
    if cells[to] == UNDEFINED {
        return Err(Unfit::Breaks);
    }
    if gap.left + (bytes.len() - gap.right) < offset {
        return Err(Unfit::Breaks);
    }
    let right = carry(bytes, gap, offset);
    exchange(
        cells,
        bytes,
        Gap {
            left: offset,
            right,
        },
        a,
        b,
    )
}
