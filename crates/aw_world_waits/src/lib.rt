//! Who waits for whom in a world: which open nodes wait for a result of which others, by what their own sites know.
#![tactic(auto)]

mod developed;
mod held;
mod items;
mod laws;
mod pair;
mod telling;
mod waiter;
mod waits;
pub mod worked;

pub use laws::pair_laws;
pub use pair::{Pair, Pairs};
pub use telling::waiting;
pub use waits::site_laws;
