//! Whether two names are one, and which comes first, as the plain definitions have it.
ghost use Rattle.std.specs.Prelude.{◌≡◌};
ghost use Rattle.aw_term.specs.Names.{node_eq, node_lt, ref_eq, ref_lt};

use aw_name::{Node, Ref, compare_nodes, compare_refs, is_same_node, is_same_ref};

/// Whether two nodes are one.
pub fn is_node(a: &Node, b: &Node) -> bool
    ensures { result ≡ node_eq a.now b.now }
{
    is_same_node(a, b)
}

/// Whether a node comes before another.
pub fn is_before(a: &Node, b: &Node) -> bool
    ensures { result ≡ node_lt a.now b.now }
{
    compare_nodes(a, b).is_lt()
}

/// Whether two references are one.
pub fn is_ref(a: &Ref, b: &Ref) -> bool
    ensures { result ≡ ref_eq a.now b.now }
{
    is_same_ref(a, b)
}

/// Whether a reference comes before another.
pub fn is_ref_before(a: &Ref, b: &Ref) -> bool
    ensures { result ≡ ref_lt a.now b.now }
{
    compare_refs(a, b).is_lt()
}
