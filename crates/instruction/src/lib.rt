// The instructions of scripts and of mirrored scripts, and the codes that stand for them in bytes.
#![tactic(auto)]

pub mod codes;
pub mod instruction;
pub mod mirror;
