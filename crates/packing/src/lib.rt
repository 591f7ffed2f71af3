// The packing services (specification 6.8): tables and programs between their plain form and their image.
#![tactic(auto)]

pub mod pack_program;
pub mod pack_table;
pub mod unpack_program;
pub mod unpack_table;
