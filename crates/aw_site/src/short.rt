//! Each name of the program has at most 250 steps: what is read here of a message says so to the proofs. It takes no memory.
ghost use Rattle.std.specs.Prelude.{◌≡◌, true, map as list_map};
ghost use Rattle.aw_store.specs.EquationView.{body_of, equation_of};
ghost use Rattle.aw_msg.specs.MessageView.{plain_kind};
ghost use Rattle.aw_site.specs.Sendable.{is_short, short_refs, short_body, short_equation, short_equations, short_kind, all_short};

use aw_msg::{Message, MsgKind};
use aw_name::{Node, Ref};
use aw_store::{Body, Equation};

/// A name has at most 250 steps.
fn node_is_short(n: &Node)
    ensures { is_short n.now ≡ true }
{
    let _count = n.steps.len();
}

/// So has each of these.
fn refs_are_short(refs: &[Ref])
    ensures { short_refs refs.now ≡ true }
{
    for r in refs {
        node_is_short(&r.node);
    }
}

/// The names in a body.
fn body_is_short(body: &Body)
    ensures { short_body (body_of body.now) ≡ true }
{
    match body {
        Body::Same(r) => node_is_short(&r.node),
        Body::Con(_, parts) => refs_are_short(parts.as_slice()),
        Body::Num(_) | Body::Text(_) => {}
    }
}

/// The names in an equation.
fn equation_is_short(e: &Equation)
    ensures { short_equation (equation_of e.now) ≡ true }
{
    node_is_short(&e.left.node);
    body_is_short(&e.body);
}

/// The names in equations.
fn equations_are_short(es: &[Equation])
    ensures { short_equations (list_map equation_of es.now) ≡ true }
{
    for e in es {
        equation_is_short(e);
    }
}

/// The names in what a message says.
fn kind_is_short(kind: &MsgKind)
    ensures { short_kind (plain_kind kind.now) ≡ true }
{
    match kind {
        MsgKind::Call {
            node,
            inherited,
            load,
        } => {
            node_is_short(node);
            refs_are_short(inherited.as_slice());
            equations_are_short(load.as_slice());
        }
        MsgKind::Ask { reference, .. } => node_is_short(&reference.node),
        MsgKind::Tell { equation, load } => {
            equation_is_short(equation);
            equations_are_short(load.as_slice());
        }
    }
}

/// The names in messages.
pub fn messages_are_short(messages: &[Message])
    ensures { all_short messages.now ≡ true }
{
    for m in messages {
        kind_is_short(m.kind.get());
    }
}
