//! Specifications written again. `specs/SpecLines.antt` says which lines a specification has, and `specs/LineTexts.antt` how each is laid out.
#![tactic(auto)]

pub mod again;
pub mod law;
pub mod lines;
pub mod names;
pub mod rules;
pub mod terms;
pub mod types;
pub mod write;

pub use again::{rules_again, same_rules};
pub use law::{in_front_is_read, read_again, read_fits, written_is_read};
pub use write::write_spec;
