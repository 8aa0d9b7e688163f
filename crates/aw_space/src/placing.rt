//! Nodes that other roles call.
use aw_name::{Node, Refs};

/// A called node, with the references that it inherits.
#[derive(Debug, Drop)]
pub struct Placing {
    pub node: Node,
    pub inherited: Refs,
}
