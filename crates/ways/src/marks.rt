// The byte after a word says whether its swaps were tried.
ghost use Rattle.std.specs.Prelude.{length};
ghost use Rattle.ways.specs.Marks.{FirstUntried};

use spans::ends::MARKED;

// The ending byte of a word whose swaps were not tried. That of a word whose swaps were is 0.
pub const UNTRIED: u8 = MARKED;

// Where the first word ends that was not tried, where there is one.
pub fn first_untried(listed: &[u8]) -> Option<usize>
    ensures { FirstUntried listed.now (length listed.now) result }
{
    listed.iter().position(|byte| *byte == UNTRIED)
}
