ghost use Rattle.std.specs.Prelude.{◌+◌, ◌≤◌, length};
ghost use Rattle.engine.specs.Words.{Inverted, Moved};

use crate::letter::turned;

// Inverts a word where it stands.
pub fn invert(word: &mut [u8])
    ensures { Inverted word.old (length word.old) word.new }
{
    word.reverse();
    for x in word.iter_mut() {
        *x = turned(*x);
    }
}

// Moves the `count` letters from `from` on to the end, the last one first, since the two places may overlap.
// Kept (3, 4): (a) the archive wants memcpy and memset alone (specification 1.2), and copy_within wants memmove.
pub fn move_to_end(bytes: &mut [u8], from: usize, count: usize)
    requires { from + count ≤ length bytes.old }
    ensures { Moved bytes.old from count bytes.new }
{
    let end = bytes.len();
    for i in 0..count {
        bytes[end - 1 - i] = bytes[from + (count - 1 - i)];
    }
}
