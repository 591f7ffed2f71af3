// Words in an area, one after the other, a zero byte after each; no letter's byte is zero.

// A word of the area: where it begins, and how many letters it has.
#[derive(Clone, Copy)]
pub struct Span {
    pub at: usize,
    pub letters: usize,
}
