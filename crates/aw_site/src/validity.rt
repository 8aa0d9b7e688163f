//! Whether all names in a message are valid, and whether it may come to a role.
ghost use Rattle.std.specs.Prelude.{◌≡◌, true, not, ◌&&◌, nat_eq, nat_lt, is_some, map as list_map};
ghost use Rattle.aw_term.specs.Rules.{sort_of};
ghost use Rattle.aw_term.specs.Trees.{Con};
ghost use Rattle.aw_term.specs.WellFormed.{head_fits};
ghost use Rattle.aw_grammar.specs.GrammarOf.{grammar_of};
ghost use Rattle.aw_store.specs.EquationView.{body_of, equation_of};
ghost use Rattle.aw_msg.specs.MessageView.{message_of};
ghost use Rattle.aw_law_sites.specs.Homes.{home, parent, has_steps};
ghost use Rattle.aw_law_sites.specs.ValidNames.{refs_ok, body_ok, equation_ok, equations_ok, call_ok, names_ok, origin_ok, message_ok};
ghost use Rattle.aw_site_repeat.specs.Views.{kind_of};
ghost use Rattle.aw_site.specs.Parents.{home_before};
ghost use Rattle.aw_space.specs.Spaces.{call_of};

use aw_base::{Grammar, content_ok, home_of_valid, ref_ok, role_of, sort_of};
use aw_msg::{Message, MsgKind};
use aw_name::{Node, Ref, Step};
use aw_store::{Body, Equation};

/// The role at which a node with a valid name is worked on. Only its last step is looked at.
pub fn valid_home(g: &Grammar, n: &Node) -> u16
    requires { is_some (sort_of (grammar_of g.now) n.now) ≡ true }
    ensures { result ≡ home (grammar_of g.now) n.now }
{
    home_of_valid(g, n)
}

/// Whether each is a valid reference.
fn refs_ok(g: &Grammar, refs: &[Ref]) -> bool
    ensures { result ≡ refs_ok (grammar_of g.now) refs.now }
{
    for r in refs {
        if !ref_ok(g, r) {
            return false;
        }
    }
    true
}

/// Whether a constructor is declared with so many parts.
fn con_fits(g: &Grammar, con: u16, parts: usize) -> bool
    ensures { result ≡ head_fits (grammar_of g.now).arities (Con con) parts }
{
    match g.con(con) {
        Some(con) => usize::from(con.arity) == parts,
        None => false,
    }
}

/// Whether a body is a valid reference, a constructor with as many valid references as it has parts, a number, or a content.
fn body_ok(g: &Grammar, body: &Body) -> bool
    ensures { result ≡ body_ok (grammar_of g.now) (body_of body.now) }
{
    match body {
        Body::Same(r) => ref_ok(g, r),
        Body::Con(con, parts) => con_fits(g, *con, parts.len()) && refs_ok(g, parts.as_slice()),
        Body::Num(_) => true,
        Body::Text(text) => content_ok(text.as_slice()),
    }
}

/// Whether an equation is a valid reference with a valid body.
fn equation_ok(g: &Grammar, e: &Equation) -> bool
    ensures { result ≡ equation_ok (grammar_of g.now) (equation_of e.now) }
{
    ref_ok(g, &e.left) && body_ok(g, &e.body)
}

/// Whether each is a valid equation.
fn equations_ok(g: &Grammar, es: &[Equation]) -> bool
    ensures { result ≡ equations_ok (grammar_of g.now) (list_map equation_of es.now) }
{
    for e in es {
        if !equation_ok(g, e) {
            return false;
        }
    }
    true
}

/// Whether a node is valid, and inherits as many references as its sort takes, each of them valid.
fn call_ok(g: &Grammar, node: &Node, inherited: &[Ref]) -> bool
    ensures { result ≡ call_ok (grammar_of g.now) (call_of (grammar_of g.now) node.now inherited.now) }
{
    match sort_of(g, node) {
        Some(sort) => inherited.len() == usize::from(g.takes(sort)) && refs_ok(g, inherited),
        None => false,
    }
}

/// Whether a role is declared.
fn is_role(g: &Grammar, role: u16) -> bool
    ensures { result ≡ nat_lt role (grammar_of g.now).roles }
{
    usize::from(role) < g.roles.len()
}

/// Whether all names that a message speaks of are valid, whatever role it is for.
fn names_ok(g: &Grammar, kind: &MsgKind) -> bool
    ensures { result ≡ names_ok (grammar_of g.now) (kind_of (grammar_of g.now) kind.now) }
{
    match kind {
        MsgKind::Call {
            node,
            inherited,
            load,
        } => call_ok(g, node, inherited.as_slice()) && equations_ok(g, load.as_slice()),
        MsgKind::Ask { reference, from } => ref_ok(g, reference) && is_role(g, *from),
        MsgKind::Tell { equation, load } => {
            equation_ok(g, equation) && equations_ok(g, load.as_slice())
        }
    }
}

/// The role of the sort of the rule that a step names; 0 where there is none.
fn home_before(g: &Grammar, step: &Step) -> u16
    ensures { result ≡ home_before (grammar_of g.now) step.now }
{
    match g.rule(step.rule) {
        Some(rule) => role_of(g, rule.sort),
        None => 0,
    }
}

/// Whether a node with a valid name is a child of a node of another role. Only its last step is looked at.
fn is_called(g: &Grammar, role: u16, node: &Node) -> bool
    requires { is_some (sort_of (grammar_of g.now) node.now) ≡ true }
    ensures { result ≡ (has_steps node.now.steps && not (nat_eq (home (grammar_of g.now) (parent node.now)) role)) }
{
    match node.steps.as_slice().last() {
        Some(step) => home_before(g, step) != role,
        None => false,
    }
}

/// Whether a message with valid names may come to a role: a call of a child of another role, a question of another role.
fn origin_ok(g: &Grammar, role: u16, kind: &MsgKind) -> bool
    requires { names_ok (grammar_of g.now) (kind_of (grammar_of g.now) kind.now) ≡ true }
    ensures { result ≡ origin_ok (grammar_of g.now) role (kind_of (grammar_of g.now) kind.now) }
{
    match kind {
        MsgKind::Call { node, .. } => is_called(g, role, node),
        MsgKind::Ask { from, .. } => *from != role,
        MsgKind::Tell { .. } => true,
    }
}

/// Whether all names in a message to this role are valid.
pub fn message_ok(g: &Grammar, role: u16, m: &Message) -> bool
    ensures { result ≡ message_ok (grammar_of g.now) role (message_of (grammar_of g.now) m.now) }
{
    let kind = m.kind.get();
    is_role(g, m.to) && names_ok(g, kind) && origin_ok(g, role, kind)
}
