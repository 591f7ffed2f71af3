// One reversing in a lent workspace. The word lies there with a gap: a step writes into the end of the gap, and no byte is shifted.
#![tactic(auto)]

pub mod gap;
pub mod letter;
pub mod run;
pub mod step;
pub mod words;
