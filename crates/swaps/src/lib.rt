// A word of forward letters in a lent area, and the entries of a chain applied to it.
#![tactic(auto)]

pub mod entry;
pub mod follow;
pub mod held;
pub mod side;
