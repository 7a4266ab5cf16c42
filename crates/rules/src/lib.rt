// What an event does, as a type. The rules are the definitions under specs/; no code stands here.
#![tactic(auto)]

use paper::{Message, Record};

// The record after the event, and one message for each copy in the set `to`, by rising number:
// `message` with that copy as its destination.
#[derive(Clone, Copy)]
pub struct Step {
    pub entry: Record,
    pub to: u8,
    pub message: Message,
}

// Whose row an instance is in, and its number there.
#[derive(Clone, Copy, Debug, PartialEq, Eq)]
pub struct Instance {
    pub owner: usize,
    pub number: usize,
}
