// What the entries of a journal say, in words.
#![tactic(auto)]

pub mod line;
pub mod owner;
#[cfg(test)]
mod tests;
