// Images read and programs loaded into the workspace, as the services begin.
#![tactic(auto)]

pub mod loading;
pub mod reversing;
