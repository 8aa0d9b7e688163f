//! What the program gives of a system: kept nodes that serve sessions and crash are one. There is no code here but the functions whose contracts the laws are.
#![tactic(auto)]

pub mod laws;
pub mod worked;
