// The bytes of lent areas: wiped, copied from one to another and within one.
#![tactic(auto)]

pub mod bytes;
