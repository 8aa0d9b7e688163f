//! A world: one workspace for each role, and all messages between them, which may come late, again and in any order.
#![tactic(auto)]

mod choosing;
mod delivering;
mod listing;
mod making;
mod marks;
mod merging;
mod moves;
mod opening;
mod settling;
mod sites;
mod workspace;
mod world;

pub use listing::Nodes;
pub use merging::Spot;
pub use moves::{Move, Reply};
pub use settling::settle;
pub use sites::SiteWorld;
pub use workspace::{Made, Workspace};
pub use world::World;
