//! Waiting: grammars in which no node ever waits for itself. The definitions are in `specs/`.
#![tactic(auto)]

mod accept;
pub mod laws;
pub mod refused;
mod seed;
pub mod worked;

pub use accept::accept_waits;
pub use laws::waiting_laws;
pub use refused::{WaitFault, WaitFree};
