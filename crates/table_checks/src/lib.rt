// The checks of specification 4 over the cells of a table: the weight check and the cube check.
#![tactic(auto)]

pub mod cube;
pub mod residuals;
pub mod table;
