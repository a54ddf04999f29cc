// What instructions and mirrored instructions say, in words.
#![tactic(auto)]

pub mod line;
pub mod mirror_line;
pub mod operand;
#[cfg(test)]
mod tests;
