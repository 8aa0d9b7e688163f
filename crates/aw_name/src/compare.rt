//! Orders, equality and copies of names, each exact. The orders and equality take no memory, and a copy takes none for the steps.
ghost use Rattle.std.specs.Prelude.{◌≡◌, ◌↔◌, IsTrue, IfOk};
ghost use Rattle.aw_name.specs.Order.{node_cmp, ref_cmp};

use crate::node::{Node, Ref};
use std::alloc::AllocError;
use std::cmp::Ordering;

/// The order of nodes: by start sort, then by case, then by steps.
pub fn compare_nodes(m: &Node, n: &Node) -> Ordering
    ensures { result ≡ node_cmp m.now n.now }
{
    m.cmp(n)
}

/// The order of references: by node, then results before parts, then by number.
pub fn compare_refs(r: &Ref, s: &Ref) -> Ordering
    ensures { result ≡ ref_cmp r.now s.now }
{
    r.cmp(s)
}

/// Whether two names are one.
pub fn is_same_node(m: &Node, n: &Node) -> bool
    ensures { IsTrue result ↔ (m.now ≡ n.now) }
{
    m == n
}

/// Whether two references are one.
pub fn is_same_ref(r: &Ref, s: &Ref) -> bool
    ensures { IsTrue result ↔ (r.now ≡ s.now) }
{
    r == s
}

/// A copy of a name.
pub fn copy_node(n: &Node) -> Result<Node, AllocError>
    ensures { IfOk result (λ copy. copy ≡ n.now) }
{
    n.clone()
}

/// A copy of a reference.
pub fn copy_ref(r: &Ref) -> Result<Ref, AllocError>
    ensures { IfOk result (λ copy. copy ≡ r.now) }
{
    r.clone()
}
