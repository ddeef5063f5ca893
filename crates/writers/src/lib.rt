// Structures and the members that lead to them: a structure leads to its members and a member to further structures.
#![tactic(auto)]

pub mod write;
