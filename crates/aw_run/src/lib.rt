//! The words of a command line, the commands, and the top call.
#![tactic(auto)]

mod carrying;
mod check;
mod keeping;
mod law;
mod reading;
mod reply;
mod running;
mod schedule;
mod serving;
mod sessions;
mod source;
mod trials;
mod words;

pub use aw_front::{Reply, Status};
pub use law::{choices_are_told_undivided, outputs_are_one};
pub use running::run;
pub use words::{Command, Job, Telling, Word};
