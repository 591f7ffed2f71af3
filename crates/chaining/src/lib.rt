// The service chain.
#![tactic(auto)]

pub mod chain;
