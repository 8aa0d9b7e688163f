//! What a taken rule makes.
use aw_list::Items;
use aw_name::Node;
use aw_store::{Equations, Refs};

/// A child of a taken rule, with its inherited references.
#[derive(Debug, PartialEq, Eq, Drop)]
pub struct MadeChild {
    pub node: Node,
    pub inherited: Refs,
}

/// Children by position.
pub type MadeChildren = Items<MadeChild>;

/// The flat equations of one choice, and the children of its node.
#[derive(Debug, PartialEq, Eq, Drop)]
pub struct Made {
    pub equations: Equations,
    pub children: MadeChildren,
}
