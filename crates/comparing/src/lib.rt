// The service compare.
#![tactic(auto)]

pub mod compare;
