// The definitions of a file, one at a time: look-up by name, members and entries.
#![tactic(auto)]

pub mod lookup;
pub mod members;
