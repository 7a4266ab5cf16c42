// What the lead of an instance does with its record, by value: a file for each rule of the paper, under the name of a
// definition in rules/specs. The decision on F+1 PrepareOKs is `decide`.
#![tactic(auto)]

pub mod accept_ok;
pub mod again;
pub mod nack;
pub mod pre_accept_ok;
pub mod preparing;
