// "Request", as a public call.
#![tactic(auto)]

pub mod ask;
pub mod lowest;
