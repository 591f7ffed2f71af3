// The cells of a table's mirror, made from the cells of the table.
#![tactic(auto)]

pub mod mirror;
pub mod sides;
