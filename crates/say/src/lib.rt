// What is in messages, records, refusals and scenes, in words.
#![tactic(auto)]

pub mod fields;
pub mod held;
pub mod message;
pub mod range;
pub mod reason;
pub mod restart;
pub mod show;
pub mod value;
pub mod wrong;
