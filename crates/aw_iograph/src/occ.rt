//! Inherited values and results of a rule's left side and of its children.

/// An inherited value or a result: of the left side at child 0, and else of a child, counted from 1.
///
/// The order is by child, inherited values before results, and then by number. Both have numbers from 1, as they are printed.
#[derive(Debug, Clone, Copy, PartialEq, Eq, PartialOrd, Ord, Drop)]
pub struct Occ {
    pub child: u8,
    pub result: bool,
    pub number: u8,
}

/// A value goes from the occurrence where a variable enters to one whose term uses it.
#[derive(Debug, Clone, Copy, PartialEq, Eq, Drop)]
pub struct Flow {
    pub from: Occ,
    pub to: Occ,
}
