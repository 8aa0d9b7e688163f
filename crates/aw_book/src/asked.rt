//! What is asked of journals.
use aw_list::Text;

/// What is asked of each of some journals.
#[derive(Clone, Copy, Debug, PartialEq, Eq)]
pub enum Asked {
    /// The specification of each.
    Spec,
    /// How the file of each stands, with a digest of what counts or without; and whether a node would start on it, or not that.
    Check { digest: bool, redo: bool },
    /// The events of each.
    Events,
}

/// A case, as it is named: the name of its sort, and its number.
#[derive(Drop)]
pub struct CaseName {
    pub sort: Text,
    pub number: u64,
}

/// Which tasks are asked for: those of one case, or of all; the open ones alone, or the done ones too.
#[derive(Drop)]
pub struct TaskView {
    pub case: Option<CaseName>,
    pub only_open: bool,
}
