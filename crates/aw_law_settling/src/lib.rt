//! When a system has come to rest, and that it does: still worlds, and fair delivery. There is no code here but the functions whose contracts the laws
//! are.
#![tactic(auto)]

pub mod laws;
pub mod worked;
