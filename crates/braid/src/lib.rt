// The services for C: thin functions over the proved ones, on areas and integers.
#![tactic(auto)]

pub mod calls;
mod numbers;
