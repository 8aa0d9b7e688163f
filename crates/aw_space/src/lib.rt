//! The workspace of one role: its nodes in order, the choices taken on them, and its equations.
#![tactic(auto)]

mod adding;
mod calls;
mod learning;
mod making;
mod opening;
pub mod outcome;
pub mod placing;
pub mod space;
mod starting;
mod taking;
mod taking_in;
mod weighing;

pub use adding::Placed;
pub use outcome::Outcome;
pub use placing::Placing;
pub use space::Space;
