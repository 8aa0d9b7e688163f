//! Cases do not meet: what a site or a world holds of some cases is what their events alone make. There is no code here but the functions whose contracts
//! the laws are.
#![tactic(auto)]

pub mod laws;
pub mod worked;
