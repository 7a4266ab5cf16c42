// What a copy does with its record on a lead's word, by value: a file for each rule of the paper, under the rule's name in
// rules/specs.
#![tactic(auto)]

pub mod accept;
pub mod commit;
pub mod pre_accept;
pub mod prepare;
