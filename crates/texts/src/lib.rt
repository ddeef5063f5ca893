// Texts: trimming, parts, words, which of them are floats, and decimals.
#![tactic(auto)]

pub mod decimal;
pub mod float;
pub mod text;
