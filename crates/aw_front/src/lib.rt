//! The front of an input: its specification read, typed and accepted, or the reply that refuses it.
#![tactic(auto)]

mod front;
mod limit;
mod refusals;
mod reply;

pub use front::{Front, Opened, front_of_input, grammar_alone};
pub use limit::INPUT_LIMIT;
pub use refusals::{bad_reply, bad_schedule, bad_specification, bad_types, not_accepted};
pub use reply::{Reply, Status};
