// The services clear and mirror_clear.
#![tactic(auto)]

pub mod both_checks;
pub mod clear;
pub mod clearing;
pub mod mirror_clear;
