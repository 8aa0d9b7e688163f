//! A line that begins with `choose `, cut behind the name of the node by looking for a space alone: none of the name's bytes is judged.
ghost use Rattle.std.specs.Prelude.{◌≡◌, ◌≤◌, ◌++◌, codes, length, drop, IfSome};
ghost use Rattle.aw_grammar.specs.declared.grammar.Grammar.{Grammar as Declared};
ghost use Rattle.aw_base.specs.ReadFronts.{IsReaderOf};
ghost use Rattle.aw_sched.specs.ChoiceFronts.{EndsAtSpace};
ghost use Rattle.aw_sched.specs.KnownChoices.{Names, NamesAtFront, StandsAtFront};
ghost use Rattle.aw_sched.specs.LastNodes.{IsLast};

use crate::lookup::{NodeSaid, said_node};
use aw_base::{Grammar, Node, NodeReader};
use aw_name::copy_node;
use memchr::memchr;

/// Where the first space stands, or else where the bytes end. It is sought among many bytes at once.
fn place_of_space(bytes: &[u8]) -> usize
    ensures within { result ≤ length bytes.now }
    ensures ends { EndsAtSpace (drop result bytes.now) }
{
    match memchr(b' ', bytes) {
        Some(at) => at,
        None => bytes.len(),
    }
}

/// What stands behind `choose `, where the line begins so.
fn behind_choose(line: &[u8]) -> Option<&[u8]>
    ensures { IfSome result (λ behind. line.entry.now ≡ codes "choose " ++ behind.now) }
{
    match line {
        [b'c', b'h', b'o', b'o', b's', b'e', b' ', behind @ ..] => Some(behind),
        _ => None,
    }
}

/// The name of a node that was read last, and the node.
#[derive(Debug, Drop)]
pub(crate) struct LastNode<'a> {
    text: &'a [u8],
    node: Node,
}

/// What stands behind this name, where the bytes begin with it and a space.
fn behind_name<'a>(name: &[u8], bytes: &'a [u8]) -> Option<&'a [u8]>
    ensures cut { IfSome result (λ rest. bytes.entry.now ≡ name.now ++ rest.now) }
    ensures ends { IfSome result (λ rest. EndsAtSpace rest.now) }
{
    let len = name.len();
    if bytes.len() <= len {
        return None;
    }
    let (text, rest) = bytes.split_at(len);
    match rest {
        [b' ', ..] if text == name => Some(rest),
        _ => None,
    }
}

/// The node that was named last, and what stands behind its name, where the bytes begin with that name and a space.
fn last_again<'a>(last: &Option<LastNode<'_>>, bytes: &'a [u8]) -> Option<(Node, &'a [u8])>
    ensures { IfSome result (λ x. (g : Declared) → IsLast g last.now → StandsAtFront g bytes.entry.now x.0 x.1.now) }
{
    let last = last.as_ref()?;
    let rest = behind_name(last.text, bytes)?;
    let Ok(node) = copy_node(&last.node) else {
        return None;
    };
    Some((node, rest))
}

/// The node of this name, which is kept as the last one.
fn read_node<'a>(
    nodes: &mut NodeReader,
    last: &mut Option<LastNode<'a>>,
    g: &Grammar,
    text: &'a [u8],
) -> Option<Node>
    requires nodes { IsReaderOf g.now nodes.old }
    requires last { IsLast g.now last.old }
    ensures kept { IsReaderOf g.now nodes.new }
    ensures last { IsLast g.now last.new }
    ensures names { IfSome result (Names g.now text.entry.now) }
{
    let Ok(NodeSaid::Valid(node)) = said_node(nodes, g, text) else {
        return None;
    };
    let Ok(given) = copy_node(&node) else {
        return None;
    };
    *last = Some(LastNode { text, node });
    Some(given)
}

/// The node that is named behind `choose `, where the line begins so, and what stands behind the name. A name that is the last one
/// again is not read again.
pub(crate) fn node_of_choice<'a>(
    nodes: &mut NodeReader,
    last: &mut Option<LastNode<'a>>,
    g: &Grammar,
    line: &'a [u8],
) -> Option<(Node, &'a [u8])>
    requires nodes { IsReaderOf g.now nodes.old }
    requires last { IsLast g.now last.old }
    ensures kept { IsReaderOf g.now nodes.new }
    ensures last { IsLast g.now last.new }
    ensures names { IfSome result (λ x. NamesAtFront g.now line.entry.now x.0 x.1.now) }
{
    let behind = behind_choose(line)?;
    if let Some(found) = last_again(last, behind) {
        return Some(found);
    }
    let (text, rest) = behind.split_at(place_of_space(behind));
    Some((read_node(nodes, last, g, text)?, rest))
}
