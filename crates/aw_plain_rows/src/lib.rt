//! Rows of a configuration and their values, which are whole trees, and replacing the holes of a node in them.
#![tactic(auto)]

mod put;
mod rounds;
mod row;
mod tree;

pub use put::{copy_at, copy_part, copy_parts, copy_tree, make_con, make_text};
pub use rounds::put_rounds;
pub use row::{Row, State, copy_state};
pub use tree::{Tree, Trees};
