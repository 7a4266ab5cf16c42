// What the rules' steps on one record are made of, by value: under the names of rules/specs.
#![tactic(auto)]

pub mod accepting;
pub mod afresh;
pub mod committing;
pub mod made;
