// The journal: entries one after another, each an instance with its record, or an instance newly marked as handed out. Replayed
// onto the table that it was begun with, it gives the table after its last whole entry.
#![tactic(auto)]

pub mod entry;
pub mod judging;
pub mod replaying;
pub mod writing;
