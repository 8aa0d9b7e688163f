//! Which case comes first, as the plain definitions have it.
ghost use Rattle.std.specs.Prelude.{◌≡◌};
ghost use Rattle.aw_plain.specs.Cases.{case_lt};

use aw_name::Node;

/// Whether the case of a node comes before that of another.
pub fn is_case_before(a: &Node, b: &Node) -> bool
    ensures { result ≡ case_lt a.now b.now }
{
    a.start < b.start || (a.start == b.start && a.case < b.case)
}
