// One side of a relation in the area: a letter, then a word.
ghost use Rattle.std.specs.Prelude.{◌≡◌, ◌∷◌, ◌+◌, ◌≤◌, length, take, drop};
ghost use Rattle.model.specs.Equivalence.{equal};
ghost use Rattle.model.specs.Areas.{written};

use areas::bytes::copy_bytes;

// Whether `a`, then the word, stand from `at` on.
pub fn stands_at(bytes: &[u8], at: usize, a: u8, word: &[u8]) -> bool
    requires { at ≤ length bytes.now }
    ensures { result ≡ equal (take (1 + length word.now) (drop at bytes.now)) (a ∷ word.now) }
{
    let end = at + (1 + word.len());
    if bytes.len() < end {
        return false;
    }
    bytes[at] == a && bytes[at + 1..end] == word[..]
}

// Writes `b`, then the word, from `at` on.
pub fn put_side(bytes: &mut [u8], at: usize, b: u8, word: &[u8])
    requires { at + (1 + length word.now) ≤ length bytes.old }
    ensures { bytes.new ≡ written bytes.old at (b ∷ word.now) }
{
    bytes[at] = b;
    copy_bytes(word, &mut bytes[at + 1..]);
}
