// The set of words that comparing signed programs grows (specification 6.18), in a lent workspace.
#![tactic(auto)]

pub mod growing;
pub mod listed;
pub mod places;
pub mod room;
pub mod set;
pub mod words;
