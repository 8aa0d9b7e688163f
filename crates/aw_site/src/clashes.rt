//! What of a message contradicts what is held, or what stands earlier in it.
ghost use Rattle.std.specs.Prelude.{◌≡◌, ◌++◌, IfOk, None, map as list_map, option_map};
ghost use Rattle.aw_term.specs.Held.{held_of};
ghost use Rattle.aw_term.specs.Rules as T;
ghost use Rattle.aw_node_list.specs.InOrder.{IsInOrder};
ghost use Rattle.aw_node_list.specs.HeldView.{all_of};
ghost use Rattle.aw_store.specs.Equations.{find};
ghost use Rattle.aw_store.specs.EquationView.{body_of, equation_of};
ghost use Rattle.aw_law_sites.specs.Receiving.{refs_eq, clash_on, first_clash, call_clash};
ghost use Rattle.aw_site.specs.Views.{clash_of};
ghost use Rattle.aw_space.specs.Spaces.{call_of};

use crate::finding::body_in_both;
use aw_name::{Node, Refs};
use aw_node_list::{Holding, find_held};
use aw_store::bodies::is_same_body;
use aw_store::{Content, Equation, Facts, copy_body};
use std::alloc::{AllocError, Global};

/// Two contents of one name that differ: the one that is kept, and the one that came.
#[derive(Debug, Drop)]
pub struct Clash {
    pub kept: Content,
    pub came: Content,
}

/// Whether these are the same references in the same order.
fn is_same_refs(a: &Refs, b: &Refs) -> bool
    ensures { result ≡ refs_eq a.now b.now }
{
    a == b
}

/// Whether an equation contradicts a store and a list of equations behind it.
fn clash_at<F: Facts>(
    alloc: Global,
    facts: &F,
    before: &[Equation],
    e: &Equation,
) -> Result<Option<Clash>, AllocError>
    ensures { IfOk result (λ c. option_map clash_of c ≡ clash_on (find (F.map facts.now ++ list_map equation_of before.now) e.now.left) (body_of e.now.body) None) }
{
    match body_in_both(alloc, facts, before, &e.left)? {
        Some(kept) => {
            if is_same_body(&kept, &e.body) {
                return Ok(None);
            }
            Ok(Some(Clash {
                kept: Content::Body(kept),
                came: Content::Body(copy_body(&e.body)?),
            }))
        }
        None => Ok(None),
    }
}

/// The first of these equations that contradicts the store, or one before it.
pub fn first_clash<F: Facts>(
    alloc: Global,
    facts: &F,
    es: &[Equation],
) -> Result<Option<Clash>, AllocError>
    ensures { IfOk result (λ c. option_map clash_of c ≡ first_clash (F.map facts.now) (list_map equation_of es.now)) }
{
    for i in 0..es.len() {
        if let Some(clash) = clash_at(alloc, facts, &es[..i], &es[i])? {
            return Ok(Some(clash));
        }
    }
    Ok(None)
}

/// Whether the node of a call is held with other references.
pub fn call_clash(
    held: &Holding,
    node: &Node,
    inherited: &Refs,
) -> Result<Option<Clash>, AllocError>
    requires { IsInOrder held.now.items }
    ensures { IfOk result (λ c. (g : T.Grammar) → option_map clash_of c ≡ call_clash (held_of node.now (all_of g held.now.items)) (call_of g node.now inherited.now) None) }
{
    match find_held(held, node) {
        Some(at) => {
            let kept = &held.at(at).inherited;
            if is_same_refs(kept, inherited) {
                return Ok(None);
            }
            Ok(Some(Clash {
                kept: Content::Inherited(kept.clone()?),
                came: Content::Inherited(inherited.clone()?),
            }))
        }
        None => Ok(None),
    }
}
