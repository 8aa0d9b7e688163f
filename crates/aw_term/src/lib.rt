//! Terms and arguments, and the plain definitions: trees, matching, configurations, the undivided run, the artifact text.
#![tactic(auto)]

pub mod ground;
pub mod limits;
pub mod order;
pub mod term;
pub mod worked;

pub use ground::{Ground, Grounds};
pub use term::{Expr, Lit, Pattern, Patterns, Terms};
pub use worked::worked_cases;
