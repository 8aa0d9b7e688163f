//! A rule that is taken on a node.
use aw_base::Grounds;
use aw_name::Node;
use aw_plain_rows::Tree;

/// A rule that is taken on a node: its number, its arguments, and the results that it gives.
#[derive(Debug, Drop)]
pub struct Taking<'t> {
    pub node: &'t Node,
    pub number: u16,
    pub args: &'t Grounds,
    pub results: &'t [Tree],
}
