//! How results depend on inherited values: within a rule, over the sorts of a grammar, and round in a circle.
#![tactic(auto)]

pub mod arcs;
pub mod circles;
pub mod graph;
pub mod io;
pub mod joins;
pub mod laws;
pub mod occ;
pub mod rows;
pub mod rules;
pub mod settle;
pub mod tried;
pub mod visits;

pub use circles::circle;
pub use graph::{RuleGraph, rule_graph};
pub use io::Io;
pub use laws::{Related, least_laws, relation_laws};
pub use occ::{Flow, Occ};
pub use settle::{io_from, io_of};
pub use tried::decided;
