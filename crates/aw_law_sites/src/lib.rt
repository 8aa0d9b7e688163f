//! Plain definitions of what holds over the nodes, references and equations of all roles, of what the workspace of a role does, and
//! of worlds of workspaces. They are in `specs/`. Of choices over references and equations the laws are here too (`laws`); those of
//! worlds stand in `aw_law_worlds`.
#![tactic(auto)]

pub mod laws;
pub mod worked;
