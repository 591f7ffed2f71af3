// The services reverse, enquire, commit and left_reverse.
#![tactic(auto)]

pub mod asked;
pub mod backward;
pub mod commit;
pub mod endings;
pub mod enquire;
pub mod fraction;
pub mod left_reverse;
pub mod reverse;
pub mod running;
