// What the public calls for events share: the gate, what an event does last, and sending.
#![tactic(auto)]

pub mod act;
pub mod entrance;
pub mod send;

// An event that took place: its instance, and how many bytes of messages were written.
#[derive(Clone, Copy, Debug, PartialEq, Eq)]
pub struct Event {
    pub owner: usize,
    pub number: usize,
    pub written: usize,
}
