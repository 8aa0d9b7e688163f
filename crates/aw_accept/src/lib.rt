//! Grammars in which no value depends on itself: the only ones on which anything is run.
#![tactic(auto)]

pub mod accepted;
pub mod check;
pub mod laws;
pub mod refused;

pub use accepted::Accepted;
pub use check::{accept, least_fault};
pub use laws::{acyclic_laws, acyclic_over, answer_laws, sort_laws};
pub use refused::{Fault, Refused};
