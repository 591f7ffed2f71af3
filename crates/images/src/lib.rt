#![tactic(auto)]

pub mod bit_reader;
pub mod chains;
pub mod fields;
pub mod forms;
pub mod programs;
pub mod tables;
