// What a journal of history entries is: the entries, the contract of every journal, and why laying one is refused.
#![tactic(auto)]

pub mod entry;
pub mod journal;
pub mod kind;
pub mod refusal;
