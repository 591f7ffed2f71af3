// The service that checks a chain.
#![tactic(auto)]

pub mod check;
