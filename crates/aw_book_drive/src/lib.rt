//! Journals of all roles, joined: one world in which all their events came, in an order in which they can have come.
#![tactic(auto)]

pub mod cases;
pub mod causes;
mod choices;
mod driver;
pub mod fault;
mod index;
pub mod joining;
pub mod journal_source;
mod lane_tries;
pub mod lanes;
mod messages;
pub mod selecting;
pub mod senders;
pub mod source;

pub use causes::Cause;
pub use fault::JoinFault;
pub use joining::{Joined, join};
pub use journal_source::JournalSource;
pub use lanes::Lane;
pub use selecting::{OneCase, Selected};
pub use senders::sender_of;
pub use source::{EventSource, SourceFault};
