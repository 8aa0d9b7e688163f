//! What a role has asked for, and which roles watch its references.
#![tactic(auto)]

pub mod subs;

pub use subs::Subs;
