// A word with a gap, as in the engine: the bytes before `left`, then those from `right` on. Here the gap goes to where a side is looked for.
ghost use Rattle.std.specs.Prelude.{◌+◌, ◌≤◌, length};
ghost use Rattle.swaps.specs.Held.{Placed, Carried};

use engine::gap::Gap;

// Moves letters over the gap to the left until `to` letters stand before it; the answer is where the rest begins.
// Kept (3, 4): (a) the archive wants memcpy and memset alone (specification 1.2), and copy_within wants memmove.
pub fn toward_end(bytes: &mut [u8], gap: Gap, to: usize) -> usize
    requires { Placed bytes.old gap.left gap.right × (gap.left ≤ to) × (to + gap.right ≤ gap.left + length bytes.old) }
    ensures { Carried bytes.old gap.left gap.right to bytes.new result }
{
    let count = to - gap.left;
    for i in 0..count {
        bytes[gap.left + i] = bytes[gap.right + i];
    }
    gap.right + count
}

// The same, to the right.
// Kept (3, 4): (a) the archive wants memcpy and memset alone (specification 1.2), and copy_within wants memmove.
pub fn toward_start(bytes: &mut [u8], gap: Gap, to: usize) -> usize
    requires { Placed bytes.old gap.left gap.right × (to ≤ gap.left) }
    ensures { Carried bytes.old gap.left gap.right to bytes.new result }
{
    let count = gap.left - to;
    for i in 0..count {
        bytes[gap.right - i - 1] = bytes[gap.left - i - 1];
    }
    gap.right - count
}

pub fn carry(bytes: &mut [u8], gap: Gap, to: usize) -> usize
    requires { Placed bytes.old gap.left gap.right × (to + gap.right ≤ gap.left + length bytes.old) }
    ensures { Carried bytes.old gap.left gap.right to bytes.new result }
{
    if to < gap.left {
        return toward_start(bytes, gap, to);
    }
    toward_end(bytes, gap, to)
}
