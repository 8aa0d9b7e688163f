//! Taking in a call and equations together, which no other call of the space could do without being refused midway.
ghost use Rattle.std.specs.Prelude.{◌≡◌, ◌≤◌, ◌+◌, None, true, IfOk, OnOk, OnErr, map as list_map, option_map};
ghost use Rattle.std.specs.Option.{option_copied};
ghost use Rattle.aw_grammar.specs.GrammarOf.{grammar_of};
ghost use Rattle.aw_store.specs.EquationView.{equation_of};
ghost use Rattle.aw_store.specs.NamedRefs.{all_named};
ghost use Rattle.aw_store.specs.StoreView.{all_few};
ghost use Rattle.aw_node_list.specs.InOrder.{IsInOrder};
ghost use Rattle.aw_law_sites.specs.Receiving.{add_all, first_clash};
ghost use Rattle.aw_standing.specs.KeptStates.{IsKept};
ghost use Rattle.aw_space.specs.Missing.{missing_node, with_node, LacksIf};
ghost use Rattle.aw_space.specs.Openings.{held_in};
ghost use Rattle.aw_space.specs.Placings.{MayBeCalledIf, MayBeLearnt, called_by};
ghost use Rattle.aw_space.specs.Waking.{lefts_of};
ghost use Rattle.aw_space.specs.TakenIn.{IsOpenableIf, IsReadyIf, tests_if};

use crate::calls::called;
use crate::learning::learn_in_turn;
use crate::opening::{Opening, put_open};
use crate::placing::Placing;
use crate::space::Space;
use aw_apply::Steps;
use aw_grammar::Grammar;
use aw_node_list::{Held, Holding, find_held};
use aw_standing::Kept;
use aw_store::{Equations, Facts};
use std::alloc::AllocError;
use std::sync::ledger::Ledger;

/// The node of a call as an open one, where it is not held.
fn missing(held: &Holding, call: Option<&Placing>) -> Result<Option<Held>, AllocError>
    requires { IsInOrder held.now.items }
    ensures { IfOk result (λ new. new ≡ missing_node (option_copied call.entry) held.now.items) }
{
    match call {
        Some(call) => match find_held(held, &call.node) {
            Some(_) => Ok(None),
            None => Ok(Some(called(&call.node, &call.inherited)?)),
        },
        None => Ok(None),
    }
}

/// Holds a node that is not held, if there is one, and keeps how the rules of its sort stand. There is room for it.
fn put_if<F: Facts, L: Ledger>(
    grammar: &Grammar,
    facts: &F,
    held: &mut Holding,
    kept: &mut Kept,
    new: Option<Opening>,
    steps: &mut Steps<L>,
)
    requires ordered { IsInOrder held.old.items }
    requires lacks { LacksIf (option_map held_in new) held.old.items }
    requires ready { IsReadyIf (grammar_of grammar.now) (F.names facts.now) held.old kept.old new }
    requires stands { IsKept (grammar_of grammar.now) held.old (F.map facts.now) (F.names facts.now) kept.old }
    ensures items { held.new.items ≡ with_node (option_map held_in new) held.old.items }
    ensures ordered { IsInOrder held.new.items }
    ensures stands { IsKept (grammar_of grammar.now) held.new (F.map facts.now) (F.names facts.now) kept.new }
    ensures steps { steps.new ≡ steps.old + tests_if new }
{
    match new {
        Some(new) => put_open(grammar, facts, held, kept, new, steps),
        None => {}
    }
}

impl<'g, F: Facts> Space<'g, F> {
    ghost use Rattle.aw_space.specs.InSpace.{AreSureIn, IsReadyIn, IsStill, call_tests, missing_in};
    ghost use Rattle.aw_space.specs.Seen.{grammar_in, IsUnchanged};

    /// What is to be kept of a node, if there is one, and room for it. An error changes nothing but the names of the store.
    fn make_ready_if(&mut self, new: Option<Held>) -> Result<Option<Opening>, AllocError>
        requires { IsOpenableIf (grammar_in ⟦<F as Facts>⟧ self.old) new }
        ensures new { IfOk result (λ o. option_map held_in o ≡ new) }
        ensures ready { IfOk result (IsReadyIn ⟦<F as Facts>⟧ self.new) }
        ensures still { IsStill ⟦<F as Facts>⟧ self.old self.new }
    {
        match new {
            Some(new) => Ok(Some(self.make_ready(new)?)),
            None => Ok(None),
        }
    }

    /// What is to be kept of the node of a call, where it is not held, and room for it and for these equations. An error changes
    /// nothing but the names of the store.
    fn make_room(
        &mut self,
        call: Option<&Placing>,
        es: &Equations,
    ) -> Result<Option<Opening>, AllocError>
        requires few { all_few (list_map equation_of es.now) ≡ true }
        requires call { IsOpenableIf (grammar_in ⟦<F as Facts>⟧ self.old) (missing_in ⟦<F as Facts>⟧ self.old (option_copied call)) }
        ensures new { IfOk result (λ o. option_map held_in o ≡ missing_in ⟦<F as Facts>⟧ self.old (option_copied call.entry)) }
        ensures ready { IfOk result (IsReadyIn ⟦<F as Facts>⟧ self.new) }
        ensures sure { OnOk result (AreSureIn ⟦<F as Facts>⟧ self.new es.now) }
        ensures named { OnOk result (all_named (F.names self.new.facts) (lefts_of (list_map equation_of es.now)) ≡ true) }
        ensures still { IsStill ⟦<F as Facts>⟧ self.old self.new }
    {
        let new = missing(&self.held, call)?;
        let opening = self.make_ready_if(new)?;
        match self.make_known(es) {
            Ok(()) => Ok(opening),
            Err(error) => {
                drop(opening);
                Err(error)
            }
        }
    }

    /// Holds a called node, where there is one that is not held, and adds each equation whose left side has none when its turn
    /// comes. All memory is taken first, so an error changes nothing but the names of the store.
    pub(crate) fn take_all_in<L: Ledger>(
        &mut self,
        call: Option<&Placing>,
        es: Equations,
        steps: &mut Steps<L>,
    ) -> Result<(), AllocError>
        requires call { MayBeCalledIf (grammar_in ⟦<F as Facts>⟧ self.old) self.old.role (called_by (grammar_in ⟦<F as Facts>⟧ self.old) (option_copied call)) }
        requires ok { MayBeLearnt (grammar_in ⟦<F as Facts>⟧ self.old) self.old.role (list_map equation_of es) }
        requires free { first_clash (F.map self.old.facts) (list_map equation_of es) ≡ None }
        ensures grammar { self.new.accepted.now.grammar ≡ self.old.accepted.now.grammar }
        ensures role { self.new.role ≡ self.old.role }
        ensures held { OnOk result (self.new.held.items ≡ with_node (missing_in ⟦<F as Facts>⟧ self.old (option_copied call.entry)) self.old.held.items) }
        ensures map { OnOk result (F.map self.new.facts ≡ add_all (F.map self.old.facts) (list_map equation_of es)) }
        ensures choices { self.new.choices.items ≡ self.old.choices.items }
        ensures err { OnErr result (IsUnchanged ⟦<F as Facts>⟧ self.old self.new) }
        ensures steps { steps.new ≤ steps.old + call_tests ⟦<F as Facts>⟧ self.old (option_copied call.entry) es }
    {
        let opening = self.make_room(call, &es)?;
        let grammar = self.accepted.grammar();
        put_if(
            grammar,
            &self.facts,
            &mut self.held,
            &mut self.kept,
            opening,
            steps,
        );
        learn_in_turn(
            grammar,
            &mut self.facts,
            &mut self.kept,
            es.into_vec(),
            steps,
        );
        Ok(())
    }
}
