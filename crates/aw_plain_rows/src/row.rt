//! Rows of a configuration.
ghost use Rattle.std.specs.Prelude.{◌≡◌, IfOk};

use crate::tree::Trees;
use aw_name::Node;
use aw_term::Grounds;
use std::alloc::AllocError;

/// Whether a choice was taken on a node, and which.
#[derive(Debug, Clone, PartialEq, Eq, Drop)]
pub enum State {
    Pending,
    Done { rule: u16, args: Grounds },
}

/// A node with its inherited values and its results.
#[derive(Debug, Drop)]
pub struct Row {
    pub node: Node,
    pub sort: u16,
    pub inherited: Trees,
    pub results: Trees,
    pub state: State,
}

/// A copy of a state.
pub fn copy_state(state: &State) -> Result<State, AllocError>
    ensures { IfOk result (λ s. s ≡ state.now) }
{
    state.clone()
}
