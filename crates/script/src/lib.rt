// Scripts: images read and judged by every rule.
#![tactic(auto)]

mod frames;
mod instructions;
mod links;
mod names;
mod pairs;
pub mod reader;
mod references;
pub mod refusal;
mod role;
pub mod script;
