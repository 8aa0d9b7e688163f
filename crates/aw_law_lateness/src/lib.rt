//! Lateness leaves no trace. There is no code here but the functions whose contracts the laws are.
#![tactic(auto)]

pub mod laws;
pub mod worked;
