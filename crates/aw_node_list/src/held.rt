//! One held node.

use aw_choice::Choice;
use aw_name::{Node, Refs};

/// A node with the references of its inherited values, and the choice that developed it.
#[derive(Drop)]
pub struct Held {
    pub node: Node,
    pub inherited: Refs,
    pub done: Option<Choice>,
}
