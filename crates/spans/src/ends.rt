// Where the words of an area begin and end, by the bytes that end them.
ghost use Rattle.std.specs.Prelude.{◌≡◌, ◌≤◌, length};
ghost use Rattle.spans.specs.Ends.{is_ending, HasEnd, StartFound, EndFound};

// A byte that ends a word is 0, or this where the word is marked. No letter's byte is either.
pub const MARKED: u8 = 128;

pub fn is_ending(byte: u8) -> bool
    ensures { result ≡ is_ending byte }
{
    byte % MARKED == 0
}

// Where the word begins that has a place in it, or its ending byte there: after the last ending byte before, and not before `low`.
pub fn word_start(area: &[u8], low: usize, at: usize) -> usize
    requires { (low ≤ at) × (at ≤ length area.now) }
    ensures { StartFound area.now low at result }
{
    at - area[low..at]
        .iter()
        .rev()
        .take_while(|before| !is_ending(**before))
        .count()
}

// Where the first ending byte from a place on stands.
pub fn word_end(area: &[u8], at: usize) -> usize
    requires { HasEnd area.now at }
    ensures { EndFound area.now at result }
{
    at + area[at..]
        .iter()
        .take_while(|byte| !is_ending(**byte))
        .count()
}
