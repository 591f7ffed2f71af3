// The service import (specification 6.17): a pattern is read from its text, and its moves are laid out in the answer area.
#![tactic(auto)]

pub mod bytes;
pub mod import;
pub mod numbers;
pub mod reading;
pub mod writing;
