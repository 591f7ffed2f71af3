ghost use Rattle.std.specs.Prelude.{◌≤◌, length};
ghost use Rattle.reversal.specs.Fraction.{FractionWritten};

use areas::bytes::copy_bytes;
use engine::words::invert;

// Writes the numerator and the denominator of a finished word, which is the numerator, then the inverse of the denominator.
pub fn write_fraction(word: &[u8], numerator: usize, answer: &mut [u8])
    requires { (numerator ≤ length word.now) × (length word.now ≤ length answer.old) }
    ensures { FractionWritten word.now numerator answer.old answer.new }
{
    copy_bytes(word, answer);
    invert(&mut answer[numerator..word.len()]);
}
