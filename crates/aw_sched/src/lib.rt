//! Schedules: the events that a text asks for, or the first line that is at fault. The printed name of a node, which a schedule may
//! name, is read as that node.
#![tactic(auto)]

mod choice_line;
pub mod event;
pub mod fault;
mod front;
mod ground;
mod known;
mod law;
pub mod line;
mod lookup;
pub mod parse;
mod printed;
mod read;
pub mod reader;

pub use event::{Event, Events};
pub use fault::{SchedFault, SchedKind};
pub use law::reading_is_spelling;
pub use printed::{printed_node_is_read, read_again};
pub use reader::{ScheduleReader, read_schedule};
