//! Faces of roles: the sorts that are offered, and the sorts that a role uses. `specs/Faces.antt` says which rules keep to them.
#![tactic(auto)]

pub mod check;
pub mod faces;
mod uses;

pub use check::{check_faces, is_offered, rule_fault};
pub use faces::{FaceFault, FaceKind, Faces, Using};
pub use uses::Uses;
