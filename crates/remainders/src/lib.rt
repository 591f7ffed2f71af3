// The service remainder.
#![tactic(auto)]

pub mod remainder;
