//! A wire whose sessions are dialed to desks in this process, one for each role; and the offices of all roles: a wire over their sites, which
//! answers what is written as their nodes do.
#![tactic(auto)]

mod asking;
mod call;
mod calls;
pub mod carrying;
pub mod desk;
pub mod law;
pub mod office;
pub mod traced;
pub mod wire;

pub use carrying::carry_between_sites;
pub use desk::Desk;
pub use law::{offices_are_honest, turns_are_honest};
pub use office::{Office, SiteWire};
pub use wire::DeskWire;
