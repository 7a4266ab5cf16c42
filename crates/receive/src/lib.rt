// A received message, as a public call.
#![tactic(auto)]

pub mod by_kind;
pub mod message;
