// The course of a played step: what the library answers, what is saved, what leaves and arrives, and where a cut falls.
#![tactic(auto)]

pub mod ask;
pub mod deliver;
pub mod restart;
pub mod turn;
pub mod work;
