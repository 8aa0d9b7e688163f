//! Names of nodes and references, with their orders.
#![tactic(auto)]

pub mod compare;
mod digest;
mod hashing;
pub mod node;

pub use compare::{compare_nodes, compare_refs, copy_node, copy_ref, is_same_node, is_same_ref};
pub use node::{Node, Ref, Refs, Slot, Step, Trail};
