// The paper's nouns as tests by value: each function is the definition of its name in paper/specs.
#![tactic(auto)]

pub mod ballot;
pub mod command;
pub mod deps;
pub mod logic;
pub mod message;
pub mod refusal;
pub mod setup;
pub mod vote;
