//! An office learns only what its own tasks lead to. There is no code here but the functions whose contracts the laws are.
#![tactic(auto)]

pub mod laws;
pub mod worked;
