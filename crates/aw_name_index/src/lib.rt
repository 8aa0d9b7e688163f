//! Names by their places: a list of names that is looked up without a walk.
#![tactic(auto)]

pub mod index;

pub use index::NameIndex;
