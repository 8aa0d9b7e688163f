//! The events of a schedule, done in a world, and what is written for them.
//!
//! The undivided run of the choices among events is made so too: they are replayed between the sites of a single role, where no value
//! is written out before it is printed. The grammar with one role alone, at which every task is, is made for that: its undivided run
//! tells what that of the grammar tells from which it was made, and where there is one role alone sites tell just that. So the
//! undivided run needs no trees.
#![tactic(auto)]

mod between_sites;
mod choosing;
mod copies;
mod ending;
mod laws;
mod lines;
mod replaying;
mod running;
mod scheduled;
mod settling;
mod stepwise;
mod telling;
mod united;
mod uniting;

pub use between_sites::replay_between_sites;
pub use laws::undivided_laws;
pub use replaying::{replay, tell_events};
pub use running::{run_schedule, run_undivided};
pub use scheduled::{Kept, ReplayFault, replay_schedule};
pub use stepwise::Replay;
pub use united::united_laws;
pub use uniting::{unite, unite_accepted};
