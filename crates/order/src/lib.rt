// The settled question and the hand-out, as public calls.
#![tactic(auto)]

use paper::Command;
use rules::Instance;

pub mod codes;
pub mod hand_out;
pub mod settled;
pub mod states;

// What the settled question answers: the command, or the uncommitted instance that comes first.
#[derive(Clone, Copy, Debug, PartialEq, Eq)]
pub enum Settling {
    Settled(Command),
    Waits(Instance),
}
