//! A call that comes alone.
ghost use Rattle.std.specs.Prelude.{◌≡◌, ◌≢◌, ◌+◌, ◌≤◌, [], Some, IfOk, OnErr, OnOk};
ghost use Rattle.aw_grammar.specs.GrammarOf.{grammar_of};
ghost use Rattle.aw_law_sites.specs.Receiving.{refs_eq};
ghost use Rattle.aw_node_list.specs.HeldView.{all_of};
ghost use Rattle.aw_node_list.specs.InOrder.{IsInOrder};
ghost use Rattle.aw_space.specs.Placed.{met};
ghost use Rattle.aw_space.specs.Placings.{placed_call};
ghost use Rattle.aw_term.specs.Held.{held_of};
ghost use Rattle.aw_term.specs.Rules.{Grammar as PlainGrammar};

use crate::placing::Placing;
use crate::space::Space;
use aw_accept::Accepted;
use aw_apply::Steps;
use aw_name::Refs;
use aw_node_list::{Holding, find_held};
use aw_store::{Equations, Facts};
use std::alloc::AllocError;
use std::sync::ledger::Ledger;

/// What came of a call.
#[derive(Debug, Drop)]
pub enum Placed {
    /// The node was not held, and is now.
    New,
    /// The node was held with the same references.
    Same,
    /// The node was held with other references, which stay.
    Conflict { kept: Refs, came: Refs },
}

/// Whether these are the same references in the same order.
fn is_same_refs(a: &Refs, b: &Refs) -> bool
    ensures { result ≡ refs_eq a.now b.now }
{
    a == b
}

/// What comes of a call whose node is held.
fn meet_held(held: &Holding, call: &Placing) -> Result<Option<Placed>, AllocError>
    requires { IsInOrder held.now.items }
    ensures { IfOk result (λ p. (g : PlainGrammar) → p ≡ met (held_of call.now.node (all_of g held.now.items)) (placed_call g call.now)) }
{
    match find_held(held, &call.node) {
        Some(at) => {
            let kept = &held.at(at).inherited;
            if is_same_refs(kept, &call.inherited) {
                return Ok(Some(Placed::Same));
            }
            Ok(Some(Placed::Conflict {
                kept: kept.clone()?,
                came: call.inherited.clone()?,
            }))
        }
        None => Ok(None),
    }
}

impl<'g, F: Facts> Space<'g, F> {
    ghost use Rattle.aw_space.specs.Costs.{call_cost};
    ghost use Rattle.aw_space.specs.Keeping.{KeepsFacts, KeepsNodes};
    ghost use Rattle.aw_space.specs.Placed.{placed};
    ghost use Rattle.aw_space.specs.Placings.{MayBeCalled};
    ghost use Rattle.aw_space.specs.Seen.{space_seen, IsUnchanged, TakesIn};

    /// Holds the node of a call, where it is not held. A node that is held stays as it is, and nothing else changes then, nor on an
    /// error. Only the guards of a node that is new are tested.
    pub fn add_call<L: Ledger>(
        &mut self,
        g: &Accepted,
        call: &Placing,
        steps: &mut Steps<L>,
    ) -> Result<Placed, AllocError>
        requires grammar { g.now.grammar ≡ self.old.accepted.now.grammar }
        requires call { MayBeCalled (grammar_of g.now.grammar) self.old.role (placed_call (grammar_of g.now.grammar) call.now) }
        ensures grammar { self.new.accepted.now.grammar ≡ self.old.accepted.now.grammar }
        ensures role { self.new.role ≡ self.old.role }
        ensures placed { IfOk result (λ p. p ≡ placed (held_of call.now.node (space_seen ⟦<F as Facts>⟧ self.old).held) (placed_call (grammar_of g.now.grammar) call.now)) }
        ensures space { OnOk result (TakesIn ⟦<F as Facts>⟧ (grammar_of g.now.grammar) (Some call.now) [] self.old self.new) }
        ensures refused { IfOk result (λ p. p ≢ Placed.New → IsUnchanged ⟦<F as Facts>⟧ self.old self.new) }
        ensures err { OnErr result (IsUnchanged ⟦<F as Facts>⟧ self.old self.new) }
        ensures facts { KeepsFacts (F.map self.old.facts) (F.map self.new.facts) }
        ensures nodes { KeepsNodes (space_seen ⟦<F as Facts>⟧ self.old).held (space_seen ⟦<F as Facts>⟧ self.new).held }
        ensures steps { steps.new ≤ steps.old + call_cost (grammar_of g.now.grammar) (space_seen ⟦<F as Facts>⟧ self.old).held (Some (placed_call (grammar_of g.now.grammar) call.now)) }
    {
        if let Some(placed) = meet_held(&self.held, call)? {
            return Ok(placed);
        }
        let none = Equations::new(self.held.allocator());
        self.take_in(g, Some(call), none, steps)?;
        Ok(Placed::New)
    }
}
