// Readers and writers of the plain forms of programs and tables.
#![tactic(auto)]

pub mod reading;
