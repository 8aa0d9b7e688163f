//! Wires: one in memory, which tells what comes and goes and fails where it is told to, and one over the machine's own network.
#![tactic(auto)]

pub mod mem_wire;
pub mod net_wire;
mod passed;
mod script;
mod sessions;

pub use mem_wire::{MemWire, Numbers};
pub use net_wire::NetWire;
