//! Whether nothing of a message is new.
ghost use Rattle.std.specs.Prelude.{◌≡◌, ◌<◌, is_some, map as list_map};
ghost use Rattle.aw_term.specs.Held.{held_of};
ghost use Rattle.aw_term.specs.Rules as T;
ghost use Rattle.aw_node_list.specs.InOrder.{IsInOrder};
ghost use Rattle.aw_node_list.specs.HeldView.{all_of};
ghost use Rattle.aw_store.specs.EquationView.{equation_of};
ghost use Rattle.aw_subs.specs.Entries.{has_bit, watches};
ghost use Rattle.aw_subs.specs.Noted.{watches_in};
ghost use Rattle.aw_msg.specs.MessageView.{plain_kind};
ghost use Rattle.aw_law_sites.specs.Receiving.{all_held, is_repeat};
ghost use Rattle.aw_site_repeat.specs.Holders.{holder, IsOfRole};
ghost use Rattle.aw_site_repeat.specs.Views.{kind_of};

use crate::finding::has_equation;
use aw_msg::MsgKind;
use aw_name::{Node, Ref};
use aw_node_list::{Holding, find_held};
use aw_store::{Equation, Facts};
use aw_subs::Subs;

/// Whether each left side has an equation in a store.
fn all_held<F: Facts>(facts: &F, es: &[Equation]) -> bool
    ensures { result ≡ all_held (F.map facts.now) (list_map equation_of es.now) }
{
    for e in es {
        if !has_equation(facts, &e.left) {
            return false;
        }
    }
    true
}

/// Whether a node is held.
fn is_held(held: &Holding, node: &Node) -> bool
    requires { IsInOrder held.now.items }
    ensures { (g : T.Grammar) → result ≡ is_some (held_of node.now (all_of g held.now.items)) }
{
    find_held(held, node).is_some()
}

/// Whether a role is one of these, which have one bit each.
pub fn is_among(roles: u64, role: u16) -> bool
    requires { role < 64 }
    ensures { result ≡ has_bit roles role }
{
    (roles >> role) & 1 == 1
}

/// Whether a role watches a reference.
fn is_watched_by(subs: &Subs, r: &Ref, role: u16) -> bool
    requires { role < 64 }
    ensures { result ≡ watches subs.now.subs r.now role }
{
    is_among(subs.watchers_of(r), role)
}

/// Whether nothing of a message is new.
pub fn is_repeat<F: Facts>(facts: &F, held: &Holding, subs: &Subs, kind: &MsgKind) -> bool
    requires ordered { IsInOrder held.now.items }
    requires role { IsOfRole (plain_kind kind.now) }
    ensures { (g : T.Grammar) → result ≡ is_repeat (holder (all_of g held.now.items) (F.map facts.now) (watches_in subs.now)) (kind_of g kind.now) }
{
    match kind {
        MsgKind::Call { node, load, .. } => {
            is_held(held, node) && all_held(facts, load.as_slice())
        }
        MsgKind::Ask { reference, from } => is_watched_by(subs, reference, *from),
        MsgKind::Tell { equation, load } => {
            has_equation(facts, &equation.left) && all_held(facts, load.as_slice())
        }
    }
}
