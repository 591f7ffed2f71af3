// The two words of an answer, read backward where a program is reversed from the finished end.
ghost use Rattle.std.specs.Prelude.{◌≤◌, length};
ghost use Rattle.reversal.specs.Backward.{WordsTurned};

// Turns the numerator around, then the denominator that follows it.
pub fn turn_words(words: &mut [u8], numerator: usize)
    requires { numerator ≤ length words.old }
    ensures { WordsTurned numerator words.old words.new }
{
    let (first, second) = words.split_at_mut(numerator);
    first.reverse();
    second.reverse();
}
