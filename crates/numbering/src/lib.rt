// A refusal in numbers, as the bench reader, C and the answer for a log are told it.
#![tactic(auto)]

pub mod refusals;
