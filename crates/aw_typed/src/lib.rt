//! Typed data: a grammar whose constructors and sorts have types, and in which every value fits. The definitions are in `specs/`.
#![tactic(auto)]

pub mod args;
pub mod bare;
pub mod checking;
pub mod copies;
pub mod data;
pub mod fitting;
pub mod gaps;
pub mod laws;
pub mod patterns;
pub mod places;
pub mod rules;
pub mod terms;
pub mod worked;

pub use args::arg_ok;
pub use bare::untyped;
pub use checking::type_check;
pub use data::{Carries, Carry, Shape, Shapes, TypeFault, Typed, Types, VariableTypes};
