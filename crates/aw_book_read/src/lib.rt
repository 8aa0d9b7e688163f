//! Journals of nodes, read: their heads, how their files stand, and the lines of their events.
#![tactic(auto)]

mod checking;
mod checks;
mod digests;
mod events;
mod heads;

pub use checking::{HeadText, Seen, check};
pub use checks::{Checked, push_check};
pub use events::push_event;
pub use heads::{HeadFault, open_head};
