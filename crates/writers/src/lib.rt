// Images and plain forms written into an area, a byte at a time.
#![tactic(auto)]

pub mod bit_writer;
pub mod measuring;
pub mod programs;
pub mod source;
pub mod tables;
