// The rules of the machine, as definitions, and what is wanted of them, as statements.
#![tactic(auto)]

pub mod call;
pub mod refusal;
