//! The name of a valid node, printed and then read, is that node.
ghost use Rattle.std.specs.Prelude.{◌≡◌, true, is_some, IfOk, IfErr};
ghost use Rattle.aw_term.specs.Rules.{sort_of};
ghost use Rattle.aw_grammar.specs.GrammarOf.{grammar_of};
ghost use Rattle.aw_base.specs.declared.read_node.NameFault.TheVariants.{NoMemory};
ghost use Rattle.aw_sched.specs.Printed.{IsHeld, PrintedNodeIsRead};

use aw_base::{Grammar, NameFault, node_text, parse_node};
use aw_name::Node;
use std::alloc::Global;

/// In a well-formed grammar a valid node's printed name is read as that node.
pub fn printed_node_is_read()
    ensures { PrintedNodeIsRead }
{}

/// Each node that the program holds has a case of 64 bits and at most 250 steps.
fn node_is_held(n: &Node)
    ensures { IsHeld n.now }
{
    let _case = n.case;
    let _count = n.steps.len();
}

/// The node that the printed name of a valid node names: the node itself.
pub fn read_again(alloc: Global, g: &Grammar, n: &Node) -> Result<Node, NameFault>
    requires { is_some (sort_of (grammar_of g.now) n.now) ≡ true }
    ensures ok { IfOk result (λ m. m ≡ n.now) }
    ensures err { IfErr result (λ e. e ≡ NoMemory) }
{
    node_is_held(n);
    let text = node_text(alloc, g, n)?;
    parse_node(alloc, g, text.as_slice())
}
