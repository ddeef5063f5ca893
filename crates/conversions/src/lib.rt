// Numbers on bits: f32 against IEEE 754, whole numbers as text, decimals.
#![tactic(auto)]

pub mod decimal;
pub mod parse;
pub mod single;
