// The listing of a chain of swaps between two words whose comparison answered `same`. Faces of the reversing are met parent first and
// listed children first, so those that are not done wait on a stack. The stack lies in the chain's own image, at its back.
#![tactic(auto)]

pub mod listing;
pub mod moves;
