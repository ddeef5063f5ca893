// What is chosen before a structure is written, where its values come from, and what is done with a finished run.
#![tactic(auto)]

pub mod choose;
pub mod elements;
pub mod source;
