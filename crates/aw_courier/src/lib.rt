//! A courier between the nodes of all roles: it pulls messages from each and pushes them to the one that they are for.
#![tactic(auto)]

mod asking;
mod broken;
pub mod carrying;
mod mails;
mod queue;
mod replies;
pub mod sizes;
mod turns;

pub use carrying::{Carried, CarryFault, carry};
