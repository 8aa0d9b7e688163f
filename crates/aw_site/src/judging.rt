//! What a site makes of a message: the first of five answers that holds.
ghost use Rattle.std.specs.Prelude.{◌≡◌, ◌<◌, Bool, ◌++◌, IfOk, OnOk, option_map, map as list_map};
ghost use Rattle.aw_grammar.specs.GrammarOf.{grammar_of};
ghost use Rattle.aw_node_list.specs.InOrder.{IsInOrder};
ghost use Rattle.aw_node_list.specs.HeldView.{all_of};
ghost use Rattle.aw_store.specs.EquationView.{equation_of};
ghost use Rattle.aw_apply.specs.Messages.{carried};
ghost use Rattle.aw_msg.specs.MessageView.{message_of};
ghost use Rattle.aw_law_sites.specs.Receiving.{clash as plain_clash};
ghost use Rattle.aw_law_sites.specs.Sites as P;
ghost use Rattle.aw_site_repeat.specs.Holders.{holder, nobody};
ghost use Rattle.aw_site_repeat.specs.Views.{kind_of};
ghost use Rattle.aw_site.specs.Judged.{Carries, Judges, Sees, answered};
ghost use Rattle.aw_site.specs.Shown.{HoldsAs};
ghost use Rattle.aw_site.specs.Views.{clash_of};
ghost use Rattle.aw_term.specs.Rules as T;

use crate::belonging::is_mine;
use crate::clashes::{Clash, call_clash, first_clash};
use crate::received::Received;
use crate::validity::message_ok;
use aw_accept::Accepted;
use aw_msg::{Message, MsgKind};
use aw_node_list::Holding;
use aw_site_repeat::is_repeat;
use aw_space::Space;
use aw_store::{Equation, Equations, Facts, copy_equation, copy_equations};
use aw_subs::Subs;
use std::alloc::{AllocError, Global};

/// What a site makes of a message.
#[derive(Drop)]
pub enum Judged {
    BadName,
    NotMine,
    Clashes(Clash),
    Repeat,
    /// Something of it is new.
    Fresh,
}

/// What is to be done with a message: no more than to answer it, or to react to it, with the equations that it carries.
#[derive(Drop)]
pub enum Sight {
    Answered(Received),
    /// Something of it is new.
    Fresh(Equations),
}

/// Copies of the equations that a message carries: that of a tell, and the load.
pub fn carried(alloc: Global, kind: &MsgKind) -> Result<Equations, AllocError>
    ensures { IfOk result (λ es. (g : T.Grammar) → list_map equation_of es ≡ carried (kind_of g kind.now)) }
{
    match kind {
        MsgKind::Call { load, .. } => {
            Ok(Equations::from_vec(copy_equations(alloc, load.as_slice())?))
        }
        MsgKind::Ask { .. } => Ok(Equations::new(alloc)),
        MsgKind::Tell { equation, load } => {
            let load = load.as_slice();
            let mut es = Vec::with_capacity(alloc, 1 + load.len())?;
            es.push(copy_equation(equation)?)?;
            push_equations(&mut es, load)?;
            Ok(Equations::from_vec(es))
        }
    }
}

/// Adds copies of equations.
fn push_equations(es: &mut Vec<Equation>, more: &[Equation]) -> Result<(), AllocError>
    ensures { OnOk result (es.new.items ≡ es.old.items ++ more.now) }
{
    for e in more {
        es.push(copy_equation(e)?)?;
    }
    Ok(())
}

/// The first contradiction between a message and what is held. These are the equations that it carries.
fn clash<F: Facts>(
    alloc: Global,
    facts: &F,
    held: &Holding,
    kind: &MsgKind,
    es: &Equations,
) -> Result<Option<Clash>, AllocError>
    requires ordered { IsInOrder held.now.items }
    requires carried { (g : T.Grammar) → list_map equation_of es.now ≡ carried (kind_of g kind.now) }
    ensures { IfOk result (λ c. (g : T.Grammar) → option_map clash_of c ≡ plain_clash (holder (all_of g held.now.items) (F.map facts.now) nobody) (kind_of g kind.now)) }
{
    match kind {
        MsgKind::Call {
            node,
            inherited,
            ..
        } => match call_clash(held, node, inherited)? {
            Some(clash) => Ok(Some(clash)),
            None => first_clash(alloc, facts, es.as_slice()),
        },
        MsgKind::Ask { .. } => Ok(None),
        MsgKind::Tell { .. } => first_clash(alloc, facts, es.as_slice()),
    }
}

/// The first of the five answers to a message that holds.
fn judge<'g, F: Facts>(
    alloc: Global,
    g: &Accepted,
    space: &Space<'g, F>,
    subs: &Subs,
    m: &Message,
    es: &Equations,
) -> Result<Judged, AllocError>
    requires grammar { g.now.grammar ≡ space.now.accepted.now.grammar }
    requires carried { (g : T.Grammar) → list_map equation_of es.now ≡ carried (kind_of g m.now.kind) }
    ensures { IfOk result (λ j. (loads : Bool) (s : P.Site) → HoldsAs ⟦<F as Facts>⟧ space.now subs.now loads s →
        Judges (grammar_of g.now.grammar) s (message_of (grammar_of g.now.grammar) m.now) j) }
{
    let grammar = g.grammar();
    let role = space.role();
    if !message_ok(grammar, role, m) {
        return Ok(Judged::BadName);
    }
    if !is_mine(grammar, role, m) {
        return Ok(Judged::NotMine);
    }
    if let Some(clash) = clash(alloc, space.facts(), space.nodes(), m.kind.get(), es)? {
        return Ok(Judged::Clashes(clash));
    }
    if is_repeat(space.facts(), space.nodes(), subs, m.kind.get()) {
        return Ok(Judged::Repeat);
    }
    Ok(Judged::Fresh)
}

/// The answer to a message of which nothing is new.
fn answered(judged: Judged) -> Option<Received>
    ensures { result ≡ answered judged }
{
    match judged {
        Judged::BadName => Some(Received::BadName),
        Judged::NotMine => Some(Received::NotMine),
        Judged::Clashes(clash) => Some(Received::Conflict {
            kept: clash.kept,
            came: clash.came,
        }),
        Judged::Repeat => Some(Received::Repeat),
        Judged::Fresh => None,
    }
}

/// What is to be done with a message.
pub fn look_at<'g, F: Facts>(
    alloc: Global,
    g: &Accepted,
    space: &Space<'g, F>,
    subs: &Subs,
    m: &Message,
) -> Result<Sight, AllocError>
    requires { g.now.grammar ≡ space.now.accepted.now.grammar }
    ensures sees { IfOk result (λ sight. (loads : Bool) (s : P.Site) → HoldsAs ⟦<F as Facts>⟧ space.now subs.now loads s →
        Sees (grammar_of g.now.grammar) s (message_of (grammar_of g.now.grammar) m.now) sight) }
    ensures carried { IfOk result (λ sight. (g : T.Grammar) → Carries g m.now.kind sight) }
{
    let es = carried(alloc, m.kind.get())?;
    match judge(alloc, g, space, subs, m, &es) {
        Ok(judged) => match answered(judged) {
            Some(answer) => {
                drop(es);
                Ok(Sight::Answered(answer))
            }
            None => Ok(Sight::Fresh(es)),
        },
        Err(refused) => {
            drop(es);
            Err(refused)
        }
    }
}
