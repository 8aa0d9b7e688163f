//! The journal of a node: its events, on a disk of which a crash may lose what was not synced.
#![tactic(auto)]

mod beginning;
mod head;
mod journal;
mod lengths;
mod payload;
mod pieces;
mod putting;
mod reads;
mod records;
mod scan;
mod searching;
mod standing;
mod steps;

pub use beginning::Begun;
pub use journal::{AppendFault, Journal};
pub use payload::NodeEvent;
pub use pieces::ReadFault;
pub use reads::OpenFault;
pub use records::{Ending, LONGEST_PAYLOAD, Records};
pub use standing::Standing;
