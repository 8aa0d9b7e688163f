//! Calls of a space where nobody counts the tests of guards.
ghost use Rattle.std.specs.Prelude.{◌≡◌, ◌<◌, true, None, IfOk, OnOk, OnErr, map as list_map};
ghost use Rattle.std.specs.Option.{option_copied};
ghost use Rattle.aw_choice.specs.ChoiceView.{choice_of, item_of};
ghost use Rattle.aw_grammar.specs.GrammarOf.{grammar_of};
ghost use Rattle.aw_base.specs.ChoiceFits.{choice_ok};
ghost use Rattle.aw_store.specs.EquationView.{equation_of};
ghost use Rattle.aw_law_sites.specs.Worlds.{node_of};
ghost use Rattle.aw_space.specs.Keeping.{KeepsFacts, KeepsNodes, KeepsNodesBut};
ghost use Rattle.aw_space.specs.Outcomes.{IsOutcome};
ghost use Rattle.aw_space.specs.Placings.{MayBeCalledIf, MayBeLearnt, called_by};
ghost use Rattle.aw_space.specs.Seen.{space_seen, IsUnchanged, TakesIn};
ghost use Rattle.aw_space.specs.Spaces.{is_home, outcome, space_after, clash_with, worklist};

use aw_accept::Accepted;
use aw_apply::Steps;
use aw_choice::{Answer, Choice, Worklist};
use aw_space::{Outcome, Placing, Space};
use aw_store::{Equations, Facts};
use std::alloc::AllocError;
use std::marker::Brand;
use std::sync::ledger::{Blank, Ledger};

fn foresee_in_ledger<'g, F: Facts, L: Ledger>(
    space: &Space<'g, F>,
    g: &Accepted,
    choice: &Choice,
    blank: Blank,
) -> Result<Outcome, AllocError>
    requires name { blank.name ≡ L.name }
    requires parts { blank.parts ≡ L.parts }
    requires some { 0 < L.parts }
    requires grammar { g.now.grammar ≡ space.now.accepted.now.grammar }
    requires ok { choice_ok (grammar_of g.now.grammar) (choice_of choice.now) ≡ true }
    requires here { is_home (grammar_of g.now.grammar) space.now.role (node_of (choice_of choice.now)) ≡ true }
    ensures { IfOk result (λ o. IsOutcome o (choice_of choice.now) (outcome (grammar_of g.now.grammar) (space_seen ⟦<F as Facts>⟧ space.now) (choice_of choice.now))) }
{
    let mut steps = Steps::<L>::new(blank);
    space.foresee(g, choice, &mut steps)
}

/// What a choice leads to, and what it makes. It changes nothing.
pub fn foresee<'g, F: Facts>(
    space: &Space<'g, F>,
    g: &Accepted,
    choice: &Choice,
) -> Result<Outcome, AllocError>
    requires grammar { g.now.grammar ≡ space.now.accepted.now.grammar }
    requires ok { choice_ok (grammar_of g.now.grammar) (choice_of choice.now) ≡ true }
    requires here { is_home (grammar_of g.now.grammar) space.now.role (node_of (choice_of choice.now)) ≡ true }
    ensures { IfOk result (λ o. IsOutcome o (choice_of choice.now) (outcome (grammar_of g.now.grammar) (space_seen ⟦<F as Facts>⟧ space.now) (choice_of choice.now))) }
{
    foresee_in_ledger::<F, Brand>(space, g, choice, Blank::new(1))
}

fn conclude_in_ledger<'g, F: Facts, L: Ledger>(
    space: &mut Space<'g, F>,
    g: &Accepted,
    choice: &Choice,
    foreseen: Outcome,
    blank: Blank,
) -> Result<Answer, AllocError>
    requires name { blank.name ≡ L.name }
    requires parts { blank.parts ≡ L.parts }
    requires some { 0 < L.parts }
    requires grammar { g.now.grammar ≡ space.old.accepted.now.grammar }
    requires ok { choice_ok (grammar_of g.now.grammar) (choice_of choice.now) ≡ true }
    requires here { is_home (grammar_of g.now.grammar) space.old.role (node_of (choice_of choice.now)) ≡ true }
    requires foreseen { IsOutcome foreseen (choice_of choice.now) (outcome (grammar_of g.now.grammar) (space_seen ⟦<F as Facts>⟧ space.old) (choice_of choice.now)) }
    ensures grammar { space.new.accepted.now.grammar ≡ space.old.accepted.now.grammar }
    ensures role { space.new.role ≡ space.old.role }
    ensures answer { IfOk result (λ answer. answer ≡ foreseen.answer) }
    ensures space { OnOk result (space_seen ⟦<F as Facts>⟧ space.new ≡ space_after (grammar_of g.now.grammar) space.old.role (space_seen ⟦<F as Facts>⟧ space.old) (choice_of choice.now)) }
    ensures err { OnErr result (IsUnchanged ⟦<F as Facts>⟧ space.old space.new) }
    ensures facts { KeepsFacts (F.map space.old.facts) (F.map space.new.facts) }
    ensures nodes { KeepsNodesBut (node_of (choice_of choice.now)) (space_seen ⟦<F as Facts>⟧ space.old).held (space_seen ⟦<F as Facts>⟧ space.new).held }
{
    let mut steps = Steps::<L>::new(blank);
    space.conclude(g, choice, foreseen, &mut steps)
}

/// Does what a choice was foreseen to lead to, and tells the answer. A refused choice and an error change neither nodes, choices nor
/// equations.
pub fn conclude<'g, F: Facts>(
    space: &mut Space<'g, F>,
    g: &Accepted,
    choice: &Choice,
    foreseen: Outcome,
) -> Result<Answer, AllocError>
    requires grammar { g.now.grammar ≡ space.old.accepted.now.grammar }
    requires ok { choice_ok (grammar_of g.now.grammar) (choice_of choice.now) ≡ true }
    requires here { is_home (grammar_of g.now.grammar) space.old.role (node_of (choice_of choice.now)) ≡ true }
    requires foreseen { IsOutcome foreseen (choice_of choice.now) (outcome (grammar_of g.now.grammar) (space_seen ⟦<F as Facts>⟧ space.old) (choice_of choice.now)) }
    ensures grammar { space.new.accepted.now.grammar ≡ space.old.accepted.now.grammar }
    ensures role { space.new.role ≡ space.old.role }
    ensures answer { IfOk result (λ answer. answer ≡ foreseen.answer) }
    ensures space { OnOk result (space_seen ⟦<F as Facts>⟧ space.new ≡ space_after (grammar_of g.now.grammar) space.old.role (space_seen ⟦<F as Facts>⟧ space.old) (choice_of choice.now)) }
    ensures err { OnErr result (IsUnchanged ⟦<F as Facts>⟧ space.old space.new) }
    ensures facts { KeepsFacts (F.map space.old.facts) (F.map space.new.facts) }
    ensures nodes { KeepsNodesBut (node_of (choice_of choice.now)) (space_seen ⟦<F as Facts>⟧ space.old).held (space_seen ⟦<F as Facts>⟧ space.new).held }
{
    conclude_in_ledger::<F, Brand>(space, g, choice, foreseen, Blank::new(1))
}

fn take_in_ledger<'g, F: Facts, L: Ledger>(
    space: &mut Space<'g, F>,
    g: &Accepted,
    call: Option<&Placing>,
    es: Equations,
    blank: Blank,
) -> Result<(), AllocError>
    requires name { blank.name ≡ L.name }
    requires parts { blank.parts ≡ L.parts }
    requires some { 0 < L.parts }
    requires grammar { g.now.grammar ≡ space.old.accepted.now.grammar }
    requires call { MayBeCalledIf (grammar_of g.now.grammar) space.old.role (called_by (grammar_of g.now.grammar) (option_copied call)) }
    requires ok { MayBeLearnt (grammar_of g.now.grammar) space.old.role (list_map equation_of es) }
    requires free { clash_with (called_by (grammar_of g.now.grammar) (option_copied call)) (list_map equation_of es) (space_seen ⟦<F as Facts>⟧ space.old) ≡ None }
    ensures grammar { space.new.accepted.now.grammar ≡ space.old.accepted.now.grammar }
    ensures role { space.new.role ≡ space.old.role }
    ensures space { OnOk result (TakesIn ⟦<F as Facts>⟧ (grammar_of g.now.grammar) (option_copied call.entry) (list_map equation_of es) space.old space.new) }
    ensures err { OnErr result (IsUnchanged ⟦<F as Facts>⟧ space.old space.new) }
    ensures facts { KeepsFacts (F.map space.old.facts) (F.map space.new.facts) }
    ensures nodes { KeepsNodes (space_seen ⟦<F as Facts>⟧ space.old).held (space_seen ⟦<F as Facts>⟧ space.new).held }
{
    let mut steps = Steps::<L>::new(blank);
    space.take_in(g, call, es, &mut steps)
}

/// Takes in a call, if there is one, and equations of other roles, none of which contradicts what is held. An error changes
/// neither nodes, choices nor equations.
pub fn take_in<'g, F: Facts>(
    space: &mut Space<'g, F>,
    g: &Accepted,
    call: Option<&Placing>,
    es: Equations,
) -> Result<(), AllocError>
    requires grammar { g.now.grammar ≡ space.old.accepted.now.grammar }
    requires call { MayBeCalledIf (grammar_of g.now.grammar) space.old.role (called_by (grammar_of g.now.grammar) (option_copied call)) }
    requires ok { MayBeLearnt (grammar_of g.now.grammar) space.old.role (list_map equation_of es) }
    requires free { clash_with (called_by (grammar_of g.now.grammar) (option_copied call)) (list_map equation_of es) (space_seen ⟦<F as Facts>⟧ space.old) ≡ None }
    ensures grammar { space.new.accepted.now.grammar ≡ space.old.accepted.now.grammar }
    ensures role { space.new.role ≡ space.old.role }
    ensures space { OnOk result (TakesIn ⟦<F as Facts>⟧ (grammar_of g.now.grammar) (option_copied call.entry) (list_map equation_of es) space.old space.new) }
    ensures err { OnErr result (IsUnchanged ⟦<F as Facts>⟧ space.old space.new) }
    ensures facts { KeepsFacts (F.map space.old.facts) (F.map space.new.facts) }
    ensures nodes { KeepsNodes (space_seen ⟦<F as Facts>⟧ space.old).held (space_seen ⟦<F as Facts>⟧ space.new).held }
{
    take_in_ledger::<F, Brand>(space, g, call, es, Blank::new(1))
}

fn list_in_ledger<'g, F: Facts, L: Ledger>(
    space: &Space<'g, F>,
    g: &Accepted,
    blank: Blank,
) -> Result<Worklist, AllocError>
    requires name { blank.name ≡ L.name }
    requires parts { blank.parts ≡ L.parts }
    requires some { 0 < L.parts }
    requires grammar { g.now.grammar ≡ space.now.accepted.now.grammar }
    ensures { IfOk result (λ items. list_map item_of items ≡ worklist (grammar_of g.now.grammar) (space_seen ⟦<F as Facts>⟧ space.now)) }
{
    let mut steps = Steps::<L>::new(blank);
    space.list(g, &mut steps)
}

/// The worklist: each open node in order with each rule of its sort, and how it stands.
pub fn list<'g, F: Facts>(space: &Space<'g, F>, g: &Accepted) -> Result<Worklist, AllocError>
    requires { g.now.grammar ≡ space.now.accepted.now.grammar }
    ensures { IfOk result (λ items. list_map item_of items ≡ worklist (grammar_of g.now.grammar) (space_seen ⟦<F as Facts>⟧ space.now)) }
{
    list_in_ledger::<F, Brand>(space, g, Blank::new(1))
}
