//! How the rules stand at the open nodes that a role holds: kept by slots, and tested again only where something came that
//! they waited for.
#![tactic(auto)]

mod kept;
mod laws;
mod listing;
mod preparing;
mod record;
mod testing;

pub use kept::Kept;
pub use laws::kept_laws;
pub use preparing::prepare;
pub use record::Record;
