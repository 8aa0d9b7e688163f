//! What roles offer and use.
use crate::uses::Uses;
use aw_grammar::Numbers;

/// A role uses a sort, which needs a use where it is of another role. Both are positions from 0.
#[derive(Clone, Copy, Debug, PartialEq, Eq, Hash)]
pub struct Using {
    pub role: u16,
    pub sort: u16,
}

/// The sorts that are offered, and which role uses which sort.
#[derive(Debug, PartialEq, Eq, Drop)]
pub struct Faces {
    pub offers: Numbers,
    pub uses: Uses,
}

/// Why a child of another role may not stand in a rule.
#[derive(Clone, Copy, Debug, PartialEq, Eq)]
pub enum FaceKind {
    /// The rule's role does not use the child's sort.
    NotUsed,
    /// The child's sort is not offered.
    NotOffered,
}

/// The first child at fault: its rule from 0, and its place from 1.
#[derive(Clone, Copy, Debug, PartialEq, Eq)]
pub struct FaceFault {
    pub rule: u16,
    pub child: u8,
    pub kind: FaceKind,
}
