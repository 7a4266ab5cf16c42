// The public calls as C calls them: numbers, slices as pointer and length, answers as the paper's numbers.
#![tactic(auto)]

pub mod events;
pub mod fields;
pub mod journals;
pub mod messages;
pub mod ordering;
pub mod streams;
pub mod tables;
