//! Whether nothing of a message is new to a site.
#![tactic(auto)]

mod finding;
mod known;

pub use finding::has_equation;
pub use known::is_repeat;
