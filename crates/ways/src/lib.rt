// The service ways (specification 6.14): every word that is joined to a program, in the answer area.
#![tactic(auto)]

pub mod insert;
pub mod listing;
pub mod marks;
pub mod search;
pub mod swap;
pub mod trying;
pub mod ways;
