//! The artifact text of a node whose values stand in equations: one line, over every store, forged ones too.
#![tactic(auto)]

pub mod ends;
pub mod gather;
pub mod ground;
pub mod list;
pub mod row;
pub mod stack;
pub mod value;

pub use row::artifact_row;
pub use stack::Printer;
