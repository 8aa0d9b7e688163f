//! The undivided configuration: whole trees in one place, on which all choices are taken in turn, and its artifact text.
//! It is what the plain definitions of `aw_term` say: what `plain` runs, and `replay` as long as one role is replayed.
#![tactic(auto)]

mod change;
mod child;
mod develop;
mod fill;
mod guard;
mod law;
mod matching;
mod order;
mod outcome;
mod plain;
mod print;
mod row;
mod take;
mod taking;
mod touch;

pub use law::run_laws;
pub use matching::{Matched, match_tree};
pub use plain::Plain;
pub use print::print_rows;
