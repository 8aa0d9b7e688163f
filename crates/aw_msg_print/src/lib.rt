//! Messages as text.
#![tactic(auto)]

mod sent;

pub use sent::{push_kind, push_sent};
