// What the programs share: lines of the input, read by forms; answers put together; lent bytes.
#![tactic(auto)]

pub mod bytes;
pub mod forms;
pub mod held;
pub mod lines;
pub mod put;
