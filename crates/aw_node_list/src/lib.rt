//! The nodes that a role holds, in their order.
#![tactic(auto)]

mod chunk;
mod chunks;
pub mod held;
mod holding;
mod inserting;
mod order;
mod placing;

pub use held::Held;
pub use holding::Holding;
pub use order::Order;
pub use placing::{find_from, find_held, put_between};
