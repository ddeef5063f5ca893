// Texts and rows as hashes, and as what an enum's entries give names to.
#![tactic(auto)]

pub mod entries;
pub mod enums;
pub mod flags;
pub mod hashes;
