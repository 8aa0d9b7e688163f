//! Choices of users, the answers to them, and the items of a worklist. What they mean stands in `aw_term`.
#![tactic(auto)]

pub mod choice;

pub use choice::{Answer, Choice, Item, Path, Place, Standing, Worklist, copy_choice};
