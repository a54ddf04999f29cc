// Numbers in bytes: groups of seven bits, and signed numbers folded into unsigned ones.
#![tactic(auto)]

pub mod number;
pub mod zigzag;
