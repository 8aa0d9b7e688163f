//! What a choice leads to at a space.
ghost use Rattle.std.specs.Prelude.{◌≡◌, ◌↔◌, ◌≤◌, ◌+◌, [], true, IsTrue, IfOk, OnOk, OnErr, map};
ghost use Rattle.aw_term.specs.Choices.{Develop, Outcome as PlainOutcome, Taken};
ghost use Rattle.aw_term.specs.Names.{Ref};
ghost use Rattle.aw_term.specs.Views.{ground_of};
ghost use Rattle.aw_choice.specs.ChoiceView.{answer_of, choice_of};
ghost use Rattle.aw_grammar.specs.GrammarOf.{grammar_of};
ghost use Rattle.aw_base.specs.ChoiceFits.{choice_ok};
ghost use Rattle.aw_space.specs.Outcomes.{IsOutcome};
ghost use Rattle.aw_space.specs.Spaces.{space_after};
ghost use Rattle.aw_space.specs.Weighing.{HasRoomFor, IsRefused, Weighs};

use crate::space::Space;
use crate::starting::root;
use aw_apply::{Made, MadeChild, Steps, Weighed, made};
use aw_base::Grounds;
use aw_choice::{Answer, Choice};
use aw_grammar::Grammar;
use aw_list::Items;
use aw_name::{Node, copy_node};
use aw_node_list::{find_from, find_held};
use aw_store::{Facts, copy_equations};
use std::alloc::{AllocError, Global};
use std::sync::ledger::Ledger;

/// The answer to a choice, and what it makes where a rule is taken.
#[derive(Debug, Drop)]
pub struct Outcome {
    pub answer: Answer,
    pub made: Made,
    /// The place at which the node was found, from which it is sought again. Any place would do, and is as right.
    pub(crate) place: usize,
}

/// A copy of a child.
fn copy_child(child: &MadeChild) -> Result<MadeChild, AllocError>
    ensures { IfOk result (λ copy. copy ≡ child.now) }
{
    Ok(MadeChild {
        node: copy_node(&child.node)?,
        inherited: child.inherited.clone()?,
    })
}

/// Copies of children.
fn copy_children(alloc: Global, children: &[MadeChild]) -> Result<Vec<MadeChild>, AllocError>
    ensures { IfOk result (λ copies. copies.items ≡ children.now) }
{
    let mut copies = Vec::with_capacity(alloc, children.len())?;
    for child in children {
        copies.push(copy_child(child)?)?;
    }
    Ok(copies)
}

impl Outcome {
    /// An answer where nothing is made.
    fn plainly(alloc: Global, answer: Answer) -> Outcome
        ensures answer { result.answer ≡ answer }
        ensures equations { result.made.equations ≡ [] }
        ensures children { result.made.children ≡ [] }
    {
        Outcome {
            answer,
            made: Made {
                equations: Items::new(alloc),
                children: Items::new(alloc),
            },
            place: 0,
        }
    }

    /// A copy of what it makes.
    pub(crate) fn copy_made(&self) -> Result<Made, AllocError>
        ensures { IfOk result (λ made. made ≡ self.now.made) }
    {
        let Made {
            equations,
            children,
        } = &self.made;
        let alloc = equations.allocator();
        Ok(Made {
            equations: Items::from_vec(copy_equations(alloc, equations.as_slice())?),
            children: Items::from_vec(copy_children(alloc, children.as_slice())?),
        })
    }

    /// Whether the choice is taken.
    pub fn is_taken(&self) -> bool
        ensures { IsTrue result ↔ (self.now.answer ≡ Answer.Taken) }
    {
        matches!(self.answer, Answer::Taken)
    }
}

/// What a rule that was weighed so leads to, and what it makes.
fn outcome_of(
    grammar: &Grammar,
    node: &Node,
    rule: u16,
    args: &Grounds,
    place: usize,
    weighed: Weighed,
) -> Result<Outcome, AllocError>
    requires room { HasRoomFor grammar.now rule node.now weighed }
    requires ok { choice_ok (grammar_of grammar.now) (Develop node.now rule (map ground_of args.now)) ≡ true }
    ensures outcome { (x : PlainOutcome Ref Ref) → Weighs (grammar_of grammar.now) rule weighed x →
        IfOk result (λ o. IsOutcome o (Develop node.now rule (map ground_of args.now)) x) }
    ensures untested { IfOk result (λ o. (answer_of o.answer ≡ Taken → ⊥) → IsRefused weighed) }
{
    let alloc = args.allocator();
    match weighed {
        Weighed::Refused(answer) => Ok(Outcome::plainly(alloc, answer)),
        Weighed::Takes(bound) => Ok(Outcome {
            answer: Answer::Taken,
            made: made(alloc, grammar, node, rule, args, bound)?,
            place,
        }),
    }
}

impl<'g, F: Facts> Space<'g, F> {
    ghost use Rattle.aw_space.specs.InSpace.{IsChosen, IsForeseen};
    ghost use Rattle.aw_space.specs.Seen.{choice_cost_at, grammar_in, space_seen, IsUnchanged};

    /// What a rule on a node leads to, and what it makes. It changes nothing.
    fn foresee_rule<L: Ledger>(
        &self,
        node: &Node,
        rule: u16,
        args: &Grounds,
        steps: &mut Steps<L>,
    ) -> Result<Outcome, AllocError>
        requires { choice_ok (grammar_in ⟦<F as Facts>⟧ self.now) (Develop node.now rule (map ground_of args.now)) ≡ true }
        ensures outcome { IfOk result (IsForeseen ⟦<F as Facts>⟧ self.now (Develop node.now rule (map ground_of args.now))) }
        ensures steps { steps.new ≤ steps.old + 1 }
        ensures untested { IfOk result (λ o. (answer_of o.answer ≡ Taken → ⊥) → steps.new ≡ steps.old) }
    {
        let found = find_held(&self.held, node);
        let weighed = self.weigh(found, node, rule, args, steps)?;
        let place = found.unwrap_or(0);
        outcome_of(self.accepted.grammar(), node, rule, args, place, weighed)
    }

    /// What a choice leads to, and what it makes. It changes nothing. How a rule stands is kept, so that a choice which is not
    /// taken tests no guard.
    pub(crate) fn foresee_choice<L: Ledger>(
        &self,
        choice: &Choice,
        steps: &mut Steps<L>,
    ) -> Result<Outcome, AllocError>
        requires { choice_ok (grammar_in ⟦<F as Facts>⟧ self.now) (choice_of choice.now) ≡ true }
        ensures outcome { IfOk result (IsForeseen ⟦<F as Facts>⟧ self.now (choice_of choice.now)) }
        ensures steps { steps.new ≤ steps.old + 1 }
        ensures untested { IfOk result (λ o. (answer_of o.answer ≡ Taken → ⊥) → steps.new ≡ steps.old) }
    {
        match choice {
            Choice::Start { sort, case } => {
                let alloc = self.held.allocator();
                let answer = match find_held(&self.held, &root(alloc, *sort, *case)) {
                    Some(_) => Answer::Known,
                    None => Answer::Taken,
                };
                Ok(Outcome::plainly(alloc, answer))
            }
            Choice::Develop { node, rule, args } => self.foresee_rule(node, *rule, args, steps),
        }
    }

    /// Carries out a choice that is foreseen to be taken. The place is where its node may be, and any is as right. All memory is
    /// taken first, so an error changes nothing but the names of the store. With the guard that was tested to foresee it, no more
    /// are tested than the choice costs.
    pub(crate) fn carry_out<L: Ledger>(
        &mut self,
        choice: &Choice,
        place: usize,
        made: Made,
        steps: &mut Steps<L>,
    ) -> Result<(), AllocError>
        requires { IsChosen ⟦<F as Facts>⟧ self.old (choice_of choice.now) made }
        ensures grammar { self.new.accepted.now.grammar ≡ self.old.accepted.now.grammar }
        ensures role { self.new.role ≡ self.old.role }
        ensures space { OnOk result (space_seen ⟦<F as Facts>⟧ self.new
            ≡ space_after (grammar_in ⟦<F as Facts>⟧ self.old) self.old.role (space_seen ⟦<F as Facts>⟧ self.old) (choice_of choice.now)) }
        ensures err { OnErr result (IsUnchanged ⟦<F as Facts>⟧ self.old self.new) }
        ensures steps { steps.new + 1 ≤ steps.old + choice_cost_at ⟦<F as Facts>⟧ (grammar_in ⟦<F as Facts>⟧ self.old) self.old (choice_of choice.now) }
    {
        match choice {
            Choice::Start { sort, case } => self.take_start(choice, *sort, *case, steps),
            Choice::Develop { node, .. } => match find_from(&self.held, node, place) {
                Some(at) => self.take_rule(at, choice, made, steps),
                None => unreachable!(),
            },
        }
    }
}
