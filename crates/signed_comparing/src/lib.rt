// The service compare_signed (specification 6.18): two programs of any signs.
#![tactic(auto)]

pub mod compare_signed;
pub mod fraction;
pub mod preparing;
pub mod running;
pub mod weight;
