//! Which results are declared to depend on which inherited values.
use aw_list::Items;

/// Result `j` of a sort may depend on its inherited value `i`. The sort is a position from 0; both values count from 1.
#[derive(Clone, Copy, Debug, PartialEq, Eq)]
pub struct Triple {
    pub sort: u16,
    pub i: u8,
    pub j: u8,
}

/// What is declared, in the order of the specification.
pub type Declared = Items<Triple>;
