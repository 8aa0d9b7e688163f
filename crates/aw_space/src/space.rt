//! What one role holds of a case.
ghost use Rattle.std.specs.Prelude.{◌≡◌, ◌+◌, ◌≤◌, [], None, true, false, IfOk, OnOk, OnErr, map as list_map};
ghost use Rattle.std.specs.Option.{option_copied};
ghost use Rattle.aw_choice.specs.ChoiceView.{answer_of, choice_of, item_of};
ghost use Rattle.aw_term.specs.Choices.{Taken, answer_of as plain_answer};
ghost use Rattle.aw_grammar.specs.GrammarOf.{grammar_of};
ghost use Rattle.aw_base.specs.ChoiceFits.{choice_ok};
ghost use Rattle.aw_store.specs.EquationView.{equation_of};
ghost use Rattle.aw_store.specs.StoreView.{Adds};
ghost use Rattle.aw_law_sites.specs.ValidNames.{equation_ok};
ghost use Rattle.aw_law_sites.specs.Worlds.{node_of};
ghost use Rattle.aw_standing.specs.KeptStates.{IsKept};
ghost use Rattle.aw_space.specs.Sound.{IsSound};
ghost use Rattle.aw_space.specs.Valid.{IsValid};

use crate::learning::learn;
use crate::outcome::Outcome;
use crate::placing::Placing;
use aw_accept::Accepted;
use aw_apply::{Made, Steps};
use aw_choice::{Answer, Choice, Worklist};
use aw_node_list::Holding;
use aw_standing::Kept;
use aw_store::{Added, Equation, Equations, Facts};
use std::alloc::{AllocError, Global};
use std::sync::ledger::Ledger;

/// The nodes of one role, the choices taken on them, and all equations that are known to it.
#[derive(Drop)]
pub struct Space<'g, F: Facts> {
    pub(crate) accepted: &'g Accepted,
    pub(crate) role: u16,
    pub(crate) held: Holding,
    pub(crate) choices: Vec<Choice>,
    pub(crate) facts: F,
    pub(crate) kept: Kept,
    pub ghost sound: { IsSound (grammar_of accepted.now.grammar) role held.items (F.map facts) (F.names facts) },
    pub ghost valid: { IsValid (grammar_of accepted.now.grammar) held.items (F.map facts) },
    pub ghost stands: { IsKept (grammar_of accepted.now.grammar) held (F.map facts) (F.names facts) kept },
}

impl<'g, F: Facts> Space<'g, F> {
    ghost use Rattle.aw_space.specs.Spaces.{is_home, outcome, space_after, clash_with, worklist};
    ghost use Rattle.aw_space.specs.Costs.{waiting_on};
    ghost use Rattle.aw_space.specs.Keeping.{KeepsFacts, KeepsNodes, KeepsNodesBut};
    ghost use Rattle.aw_space.specs.Outcomes.{IsMade, IsOutcome};
    ghost use Rattle.aw_space.specs.Placings.{MayBeCalledIf, MayBeLearnt, called_by};
    ghost use Rattle.aw_space.specs.Seen.{space_seen, IsUnchanged, TakesIn, choice_cost_at, taking_cost_at};

    /// A space of a role that holds nothing, over a store without equations.
    pub fn new(alloc: Global, g: &'g Accepted, role: u16, facts: F) -> Space<'g, F>
        requires { F.map facts ≡ [] }
        ensures grammar { result.accepted.now.grammar ≡ g.now.grammar }
        ensures role { result.role ≡ role }
        ensures nodes { result.held.items ≡ [] }
        ensures choices { result.choices.items ≡ [] }
        ensures map { F.map result.facts ≡ [] }
    {
        let held = Holding::new(alloc);
        let kept = Kept::new(alloc);
        Space {
            accepted: g,
            role,
            held,
            choices: Vec::new(alloc),
            facts,
            kept,
        }
    }

    /// The held nodes, in their order.
    pub fn nodes(&self) -> &Holding
        ensures { result.now.items ≡ self.now.held.items }
    {
        &self.held
    }

    /// The store of equations, borrowed.
    pub fn facts(&self) -> &F
        ensures { result.now ≡ self.now.facts }
    {
        &self.facts
    }

    /// The grammar that it was made for.
    pub fn accepted(&self) -> &'g Accepted
        ensures { result.now ≡ self.now.accepted.now }
    {
        self.accepted
    }

    /// The role whose nodes are held.
    pub fn role(&self) -> u16
        ensures { result ≡ self.now.role }
    {
        self.role
    }

    /// What a choice leads to, and what it makes. It changes nothing, and tests at most one guard, and none for a choice that is
    /// not taken.
    pub fn foresee<L: Ledger>(
        &self,
        g: &Accepted,
        choice: &Choice,
        steps: &mut Steps<L>,
    ) -> Result<Outcome, AllocError>
        requires grammar { g.now.grammar ≡ self.now.accepted.now.grammar }
        requires ok { choice_ok (grammar_of g.now.grammar) (choice_of choice.now) ≡ true }
        requires here { is_home (grammar_of g.now.grammar) self.now.role (node_of (choice_of choice.now)) ≡ true }
        ensures outcome { IfOk result (λ o. IsOutcome o (choice_of choice.now)
            (outcome (grammar_of g.now.grammar) (space_seen ⟦<F as Facts>⟧ self.now) (choice_of choice.now))) }
        ensures steps { steps.new ≤ steps.old + 1 }
        ensures untested { IfOk result (λ o. (answer_of o.answer ≡ Taken → ⊥) → steps.new ≡ steps.old) }
    {
        self.foresee_choice(choice, steps)
    }

    /// Answers a choice, and takes it where the answer is `Taken`. A refused choice and an error change neither nodes,
    /// choices nor equations, and a refused choice tests no guard.
    pub fn choose<L: Ledger>(
        &mut self,
        g: &Accepted,
        choice: &Choice,
        steps: &mut Steps<L>,
    ) -> Result<Outcome, AllocError>
        requires grammar { g.now.grammar ≡ self.old.accepted.now.grammar }
        requires ok { choice_ok (grammar_of g.now.grammar) (choice_of choice.now) ≡ true }
        requires here { is_home (grammar_of g.now.grammar) self.old.role (node_of (choice_of choice.now)) ≡ true }
        ensures grammar { self.new.accepted.now.grammar ≡ self.old.accepted.now.grammar }
        ensures role { self.new.role ≡ self.old.role }
        ensures outcome { IfOk result (λ o. IsOutcome o (choice_of choice.now)
            (outcome (grammar_of g.now.grammar) (space_seen ⟦<F as Facts>⟧ self.old) (choice_of choice.now))) }
        ensures space { OnOk result (space_seen ⟦<F as Facts>⟧ self.new
            ≡ space_after (grammar_of g.now.grammar) self.old.role (space_seen ⟦<F as Facts>⟧ self.old) (choice_of choice.now)) }
        ensures refused { IfOk result (λ o. (answer_of o.answer ≡ Taken → ⊥) → IsUnchanged ⟦<F as Facts>⟧ self.old self.new) }
        ensures err { OnErr result (IsUnchanged ⟦<F as Facts>⟧ self.old self.new) }
        ensures facts { KeepsFacts (F.map self.old.facts) (F.map self.new.facts) }
        ensures nodes { KeepsNodesBut (node_of (choice_of choice.now)) (space_seen ⟦<F as Facts>⟧ self.old).held (space_seen ⟦<F as Facts>⟧ self.new).held }
        ensures steps { steps.new ≤ steps.old + choice_cost_at ⟦<F as Facts>⟧ (grammar_of g.now.grammar) self.old (choice_of choice.now) }
        ensures untested { IfOk result (λ o. (answer_of o.answer ≡ Taken → ⊥) → steps.new ≡ steps.old) }
    {
        let outcome = self.foresee(g, choice, steps)?;
        self.follow(g, choice, &outcome, steps)?;
        Ok(outcome)
    }

    /// Does what a choice was foreseen to lead to. A refused choice and an error change neither nodes, choices nor equations.
    pub fn follow<L: Ledger>(
        &mut self,
        g: &Accepted,
        choice: &Choice,
        foreseen: &Outcome,
        steps: &mut Steps<L>,
    ) -> Result<(), AllocError>
        requires grammar { g.now.grammar ≡ self.old.accepted.now.grammar }
        requires ok { choice_ok (grammar_of g.now.grammar) (choice_of choice.now) ≡ true }
        requires here { is_home (grammar_of g.now.grammar) self.old.role (node_of (choice_of choice.now)) ≡ true }
        requires foreseen { IsOutcome foreseen.now (choice_of choice.now)
            (outcome (grammar_of g.now.grammar) (space_seen ⟦<F as Facts>⟧ self.old) (choice_of choice.now)) }
        ensures grammar { self.new.accepted.now.grammar ≡ self.old.accepted.now.grammar }
        ensures role { self.new.role ≡ self.old.role }
        ensures space { OnOk result (space_seen ⟦<F as Facts>⟧ self.new
            ≡ space_after (grammar_of g.now.grammar) self.old.role (space_seen ⟦<F as Facts>⟧ self.old) (choice_of choice.now)) }
        ensures refused { (answer_of foreseen.now.answer ≡ Taken → ⊥) → IsUnchanged ⟦<F as Facts>⟧ self.old self.new }
        ensures err { OnErr result (IsUnchanged ⟦<F as Facts>⟧ self.old self.new) }
        ensures facts { KeepsFacts (F.map self.old.facts) (F.map self.new.facts) }
        ensures nodes { KeepsNodesBut (node_of (choice_of choice.now)) (space_seen ⟦<F as Facts>⟧ self.old).held (space_seen ⟦<F as Facts>⟧ self.new).held }
        ensures steps { answer_of foreseen.now.answer ≡ Taken →
            steps.new + 1 ≤ steps.old + choice_cost_at ⟦<F as Facts>⟧ (grammar_of g.now.grammar) self.old (choice_of choice.now) }
        ensures untested { (answer_of foreseen.now.answer ≡ Taken → ⊥) → steps.new ≡ steps.old }
    {
        if !foreseen.is_taken() {
            return Ok(());
        }
        let made = foreseen.copy_made()?;
        self.take(g, choice, foreseen.place, made, steps)?;
        Ok(())
    }

    /// Does what a choice was foreseen to lead to, and tells the answer. What it makes is taken over, and not copied. A refused
    /// choice and an error change neither nodes, choices nor equations.
    pub fn conclude<L: Ledger>(
        &mut self,
        g: &Accepted,
        choice: &Choice,
        foreseen: Outcome,
        steps: &mut Steps<L>,
    ) -> Result<Answer, AllocError>
        requires grammar { g.now.grammar ≡ self.old.accepted.now.grammar }
        requires ok { choice_ok (grammar_of g.now.grammar) (choice_of choice.now) ≡ true }
        requires here { is_home (grammar_of g.now.grammar) self.old.role (node_of (choice_of choice.now)) ≡ true }
        requires foreseen { IsOutcome foreseen (choice_of choice.now)
            (outcome (grammar_of g.now.grammar) (space_seen ⟦<F as Facts>⟧ self.old) (choice_of choice.now)) }
        ensures grammar { self.new.accepted.now.grammar ≡ self.old.accepted.now.grammar }
        ensures role { self.new.role ≡ self.old.role }
        ensures answer { IfOk result (λ answer. answer ≡ foreseen.answer) }
        ensures space { OnOk result (space_seen ⟦<F as Facts>⟧ self.new
            ≡ space_after (grammar_of g.now.grammar) self.old.role (space_seen ⟦<F as Facts>⟧ self.old) (choice_of choice.now)) }
        ensures refused { (answer_of foreseen.answer ≡ Taken → ⊥) → IsUnchanged ⟦<F as Facts>⟧ self.old self.new }
        ensures err { OnErr result (IsUnchanged ⟦<F as Facts>⟧ self.old self.new) }
        ensures facts { KeepsFacts (F.map self.old.facts) (F.map self.new.facts) }
        ensures nodes { KeepsNodesBut (node_of (choice_of choice.now)) (space_seen ⟦<F as Facts>⟧ self.old).held (space_seen ⟦<F as Facts>⟧ self.new).held }
        ensures steps { answer_of foreseen.answer ≡ Taken →
            steps.new + 1 ≤ steps.old + choice_cost_at ⟦<F as Facts>⟧ (grammar_of g.now.grammar) self.old (choice_of choice.now) }
        ensures untested { (answer_of foreseen.answer ≡ Taken → ⊥) → steps.new ≡ steps.old }
    {
        if !foreseen.is_taken() {
            let Outcome { answer, .. } = foreseen;
            return Ok(answer);
        }
        let Outcome {
            answer,
            made,
            place,
        } = foreseen;
        self.take(g, choice, place, made, steps)?;
        Ok(answer)
    }

    /// Takes a choice that was foreseen to be taken. An error changes neither nodes, choices nor equations.
    fn take<L: Ledger>(
        &mut self,
        g: &Accepted,
        choice: &Choice,
        place: usize,
        made: Made,
        steps: &mut Steps<L>,
    ) -> Result<(), AllocError>
        requires grammar { g.now.grammar ≡ self.old.accepted.now.grammar }
        requires ok { choice_ok (grammar_of g.now.grammar) (choice_of choice.now) ≡ true }
        requires here { is_home (grammar_of g.now.grammar) self.old.role (node_of (choice_of choice.now)) ≡ true }
        requires taken { plain_answer (outcome (grammar_of g.now.grammar) (space_seen ⟦<F as Facts>⟧ self.old) (choice_of choice.now)) ≡ Taken }
        requires made { IsMade made (choice_of choice.now) (outcome (grammar_of g.now.grammar) (space_seen ⟦<F as Facts>⟧ self.old) (choice_of choice.now)) }
        ensures grammar { self.new.accepted.now.grammar ≡ self.old.accepted.now.grammar }
        ensures role { self.new.role ≡ self.old.role }
        ensures space { OnOk result (space_seen ⟦<F as Facts>⟧ self.new
            ≡ space_after (grammar_of g.now.grammar) self.old.role (space_seen ⟦<F as Facts>⟧ self.old) (choice_of choice.now)) }
        ensures err { OnErr result (IsUnchanged ⟦<F as Facts>⟧ self.old self.new) }
        ensures steps { steps.new + 1 ≤ steps.old + choice_cost_at ⟦<F as Facts>⟧ (grammar_of g.now.grammar) self.old (choice_of choice.now) }
    {
        self.carry_out(choice, place, made, steps)
    }

    /// Takes in an equation of another role, where its left side has none. A conflict and an error change neither nodes,
    /// choices nor equations.
    pub fn learn<L: Ledger>(
        &mut self,
        g: &Accepted,
        e: Equation,
        steps: &mut Steps<L>,
    ) -> Result<Added, AllocError>
        requires grammar { g.now.grammar ≡ self.old.accepted.now.grammar }
        requires ok { equation_ok (grammar_of g.now.grammar) (equation_of e) ≡ true }
        requires other { is_home (grammar_of g.now.grammar) self.old.role e.left.node ≡ false }
        ensures grammar { self.new.accepted.now.grammar ≡ self.old.accepted.now.grammar }
        ensures role { self.new.role ≡ self.old.role }
        ensures added { IfOk result (λ added. Adds (F.map self.old.facts) e added (F.map self.new.facts)) }
        ensures nodes { self.new.held.items ≡ self.old.held.items }
        ensures choices { self.new.choices.items ≡ self.old.choices.items }
        ensures err { OnErr result (IsUnchanged ⟦<F as Facts>⟧ self.old self.new) }
        ensures facts { KeepsFacts (F.map self.old.facts) (F.map self.new.facts) }
        ensures steps { steps.new ≤ steps.old + waiting_on e.left (worklist (grammar_of g.now.grammar) (space_seen ⟦<F as Facts>⟧ self.old)) }
    {
        learn(g.grammar(), &mut self.facts, &mut self.kept, e, steps)
    }

    /// Takes in a call, if there is one, and equations of other roles, none of which contradicts what is held. An error
    /// changes neither nodes, choices nor equations.
    pub fn take_in<L: Ledger>(
        &mut self,
        g: &Accepted,
        call: Option<&Placing>,
        es: Equations,
        steps: &mut Steps<L>,
    ) -> Result<(), AllocError>
        requires grammar { g.now.grammar ≡ self.old.accepted.now.grammar }
        requires call { MayBeCalledIf (grammar_of g.now.grammar) self.old.role (called_by (grammar_of g.now.grammar) (option_copied call)) }
        requires ok { MayBeLearnt (grammar_of g.now.grammar) self.old.role (list_map equation_of es) }
        requires free { clash_with (called_by (grammar_of g.now.grammar) (option_copied call)) (list_map equation_of es)
            (space_seen ⟦<F as Facts>⟧ self.old) ≡ None }
        ensures grammar { self.new.accepted.now.grammar ≡ self.old.accepted.now.grammar }
        ensures role { self.new.role ≡ self.old.role }
        ensures space { OnOk result (TakesIn ⟦<F as Facts>⟧ (grammar_of g.now.grammar) (option_copied call.entry) (list_map equation_of es) self.old self.new) }
        ensures err { OnErr result (IsUnchanged ⟦<F as Facts>⟧ self.old self.new) }
        ensures facts { KeepsFacts (F.map self.old.facts) (F.map self.new.facts) }
        ensures nodes { KeepsNodes (space_seen ⟦<F as Facts>⟧ self.old).held (space_seen ⟦<F as Facts>⟧ self.new).held }
        ensures steps { steps.new ≤ steps.old
            + taking_cost_at ⟦<F as Facts>⟧ (grammar_of g.now.grammar) (option_copied call.entry) (list_map equation_of es) self.old }
    {
        self.take_all_in(call, es, steps)
    }

    /// The worklist: each open node in order with each rule of its sort, and how it stands. It tests no guard.
    pub fn list<L: Ledger>(
        &self,
        g: &Accepted,
        steps: &mut Steps<L>,
    ) -> Result<Worklist, AllocError>
        requires { g.now.grammar ≡ self.now.accepted.now.grammar }
        ensures items { IfOk result (λ items. list_map item_of items ≡ worklist (grammar_of g.now.grammar) (space_seen ⟦<F as Facts>⟧ self.now)) }
        ensures steps { steps.new ≡ steps.old }
    {
        let mut items = Vec::new(self.held.allocator());
        for at in 0..self.held.len() {
            let number = self.held.number_at(at);
            self.kept
                .push_items(number, &self.held.at(at).node, &self.facts, &mut items)?;
        }
        Ok(Worklist::from_vec(items))
    }
}
