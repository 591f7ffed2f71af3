// An entry of a chain's image: where it stands, how it is written and read, and how long the image is.
#![tactic(auto)]

pub mod entry;
