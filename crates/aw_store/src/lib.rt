//! Equations between references, kept as one finite map with numbered names.
#![tactic(auto)]

pub mod adding;
pub mod bodies;
pub mod equation;
pub mod facts;
pub mod follow;
pub mod list;
pub mod names;
pub mod ready;
pub mod slots;
pub mod texts;

pub use aw_name::Refs;
pub use bodies::{copy_body, copy_equation, copy_equations};
pub use equation::{Body, Equation, Equations};
pub use facts::{Added, Chase, Content, Facts, Kind};
pub use follow::chase;
pub use list::ListFacts;
pub use ready::{add_all_ready, add_ready};
pub use slots::{equation_at, intern_all, ref_at, refs_at};
pub use texts::{body_text, push_body};
