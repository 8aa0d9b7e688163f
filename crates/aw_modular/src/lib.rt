//! Roles checked apart: what each role finds of its own rules decides the whole. The definitions are in `specs/`.
#![tactic(auto)]

mod declaring;
mod excess;
mod join_parts;
pub mod laws;
pub mod part;
mod positions;
pub mod refused;
mod role;
pub mod shared;
mod splitting;
pub mod worked;
pub mod yes;

pub use join_parts::join;
pub use laws::{joining_laws, least_role_relation, parting_laws, role_laws};
pub use part::Part;
pub use positions::are_positions;
pub use refused::ModFault;
pub use role::check_role;
pub use shared::{JoinFault, Shared};
pub use splitting::split;
pub use yes::{RoleYes, RoleYeses};
