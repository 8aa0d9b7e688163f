//! A trial: choices and deliveries that are drawn from a number, in the world of a specification of four roles, and what is counted.
#![tactic(auto)]

mod choosing;
mod declaring;
mod drawing;
mod laws;
mod making;
mod rules;
mod summary;
mod tally;
mod trials;
mod turning;

pub use laws::trial_laws;
pub use making::trial_accepted;
pub use summary::{Summary, summary_text};
pub use tally::Tally;
pub use trials::trial;
