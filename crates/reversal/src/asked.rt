// What a commit hands in.

// The three numbers that a caller hands in, any of 64 bits.
#[derive(Clone, Copy)]
pub struct Handed {
    pub numerator: u64,
    pub denominator: u64,
    pub steps: u64,
}
