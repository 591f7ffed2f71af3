// The service tray (specification 6.19): logs compared with one pattern under a table that is cleared once.
#![tactic(auto)]

pub mod answers;
pub mod logs;
pub mod tray;
