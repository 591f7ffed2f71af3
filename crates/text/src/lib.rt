// The bench reader's output, written into an output area. Every function appends a text at a position and gives the position after it.
#![tactic(auto)]

pub mod lines;
pub mod pieces;
pub mod refusals;
pub mod render;
