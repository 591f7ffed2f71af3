// Words in an area, one after the other, each with a byte after it that ends it.
#![tactic(auto)]

pub mod ends;
