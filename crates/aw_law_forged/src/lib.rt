//! What a site answers for itself, whatever letters come to it, forged ones too. There is no code here but the functions whose contracts the laws are.
#![tactic(auto)]

pub mod laws;
pub mod worked;
