//! A system of nodes that crash, with whoever carries messages between them: what remains is one world, and a courier that is quiet leaves it at rest.
//! There is no code here but the functions whose contracts the laws are.
#![tactic(auto)]

pub mod laws;
pub mod worked;
