// The copies of a run, each with the table that it works on and a disk, and the messages on the way between them. Their bytes
// are lent: the way first, then the tables of seven copies, then their disks.
#![tactic(auto)]

pub mod copies;
pub mod disks;
pub mod tables;
pub mod way;

use script::Moment;

// Of one copy: whether it is down, the cut that awaits it, if one does, and where its journal ends.
#[derive(Clone, Copy, Default)]
pub struct Known {
    pub down: bool,
    pub cut: Option<Moment>,
    pub end: usize,
}

// The setup, the messages on the way and all that ever left; and what is known of each copy.
#[derive(Clone, Copy)]
pub struct Scene {
    pub n: usize,
    pub s: usize,
    pub waiting: usize,
    pub sent: usize,
    pub copies: [Known; 7],
}
