//! The workspace of one role: what it holds, what it asked for and who asked it, and the messages that it sent.
#![tactic(auto)]

mod belonging;
mod calls;
mod choosing;
mod clashes;
mod finding;
mod judging;
mod plan;
mod received;
mod receiving;
mod sender;
mod sending;
mod short;
mod site;
mod tells;
mod uncounted;
mod validity;
mod wanted;

pub use received::Received;
pub use site::Site;
