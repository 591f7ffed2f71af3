// The service bed (specification 6.11): the bobbins and their crossings after the first moves of a program.
#![tactic(auto)]

pub mod bed;
pub mod braid_table;
pub mod moves;
pub mod writing;
