//! Whether a message is about something of a role.
ghost use Rattle.std.specs.Prelude.{◌≡◌, true, map as list_map};
ghost use Rattle.aw_grammar.specs.GrammarOf.{grammar_of};
ghost use Rattle.aw_store.specs.EquationView.{equation_of};
ghost use Rattle.aw_msg.specs.MessageView.{message_of};
ghost use Rattle.aw_law_sites.specs.Receiving.{none_mine, about_ok, is_mine};
ghost use Rattle.aw_law_sites.specs.ValidNames.{equations_ok, names_ok};
ghost use Rattle.aw_site_repeat.specs.Views.{kind_of};

use crate::validity::valid_home;
use aw_base::Grammar;
use aw_msg::{Message, MsgKind};
use aw_store::Equation;

/// Whether no left side of valid equations is of this role.
fn none_mine(g: &Grammar, role: u16, es: &[Equation]) -> bool
    requires { equations_ok (grammar_of g.now) (list_map equation_of es.now) ≡ true }
    ensures { result ≡ none_mine (grammar_of g.now) role (list_map equation_of es.now) }
{
    for e in es {
        if valid_home(g, &e.left.node) == role {
            return false;
        }
    }
    true
}

/// Whether a message with valid names is a call of a node of this role, or a question for a reference of this role, and all equations in it are of other roles.
fn about_ok(g: &Grammar, role: u16, kind: &MsgKind) -> bool
    requires { names_ok (grammar_of g.now) (kind_of (grammar_of g.now) kind.now) ≡ true }
    ensures { result ≡ about_ok (grammar_of g.now) role (kind_of (grammar_of g.now) kind.now) }
{
    match kind {
        MsgKind::Call { node, load, .. } => {
            valid_home(g, node) == role && none_mine(g, role, load.as_slice())
        }
        MsgKind::Ask { reference, .. } => valid_home(g, &reference.node) == role,
        MsgKind::Tell { equation, load } => {
            valid_home(g, &equation.left.node) != role && none_mine(g, role, load.as_slice())
        }
    }
}

/// Whether a message with valid names is for this role, and about something that it may be told.
pub fn is_mine(g: &Grammar, role: u16, m: &Message) -> bool
    requires { names_ok (grammar_of g.now) (kind_of (grammar_of g.now) m.now.kind) ≡ true }
    ensures { result ≡ is_mine (grammar_of g.now) role (message_of (grammar_of g.now) m.now) }
{
    m.to == role && about_ok(g, role, m.kind.get())
}
