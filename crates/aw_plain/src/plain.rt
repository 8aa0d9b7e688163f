//! The undivided configuration.
ghost use Rattle.std.specs.Prelude.{◌≡◌, [], true, IfOk, OnErr};
ghost use Rattle.aw_term.specs.Names.{Ref};
ghost use Rattle.aw_term.specs.Choices.{answer, after};
ghost use Rattle.aw_base.specs.ChoiceFits.{choice_ok};
ghost use Rattle.aw_choice.specs.ChoiceView.{answer_of, choice_of};
ghost use Rattle.aw_grammar.specs.GrammarOf.{grammar_of};
ghost use Rattle.aw_iograph.specs.Dependence.{IO, HasNoCircle};
ghost use Rattle.aw_accept.specs.Acyclic.{IsAcyclic, IsTree};
ghost use Rattle.aw_accept.specs.Missing.{IsMissing};
ghost use Rattle.aw_accept.specs.Sorts.{HaveTheirSorts};
ghost use Rattle.aw_plain_rows.specs.RowView.{config_of};
ghost use Rattle.aw_plain.specs.Filled.{AreFilled};
ghost use Rattle.aw_plain.specs.Ordered.{IsOrdered};
ghost use Rattle.aw_plain.specs.Cases.{AreApart};
ghost use Rattle.aw_plain.specs.Reached.{IsReached};

use crate::take::choose;
use aw_accept::Accepted;
use aw_base::{Answer, Choice, Grammar};
use aw_plain_rows::Row;
use std::alloc::{AllocError, Global};

/// The rows that all taken choices lead to, one after the other, from none. Its grammar was accepted, so no value in it
/// ever waits for itself.
#[derive(Debug, Drop)]
pub struct Plain<'g> {
    grammar: &'g Grammar,
    rows: Vec<Row>,
    ghost accepted: { ∥ HasNoCircle (grammar_of grammar.now) (IO (grammar_of grammar.now)) ∥₁ },
    ghost filled: { ∥ AreFilled (grammar_of grammar.now) (config_of rows.items) ∥₁ },
    pub ghost ordered: { IsOrdered (config_of rows.items) },
    ghost apart: { AreApart (config_of rows.items) },
    pub ghost reached: { ∥ IsReached (grammar_of grammar.now) (config_of rows.items) ∥₁ },
    pub ghost tree: { ∥ IsTree (grammar_of grammar.now) (config_of rows.items) ∥₁ },
    pub ghost acyclic: { ∥ IsAcyclic (IO (grammar_of grammar.now)) (config_of rows.items) ∥₁ },
    pub ghost sorts: { HaveTheirSorts (grammar_of grammar.now) (config_of rows.items) },
}

impl<'g> Plain<'g> {
    /// No rows.
    pub fn new(alloc: Global, accepted: &'g Accepted) -> Plain<'g>
        ensures grammar { result.grammar.now ≡ accepted.now.grammar }
        ensures rows { result.rows.items ≡ [] }
    {
        Plain {
            grammar: accepted.grammar(),
            rows: Vec::new(alloc),
        }
    }

    /// The rows, in the order of their nodes.
    pub fn rows(&self) -> &[Row]
        ensures { result.now ≡ self.now.rows.items }
    {
        self.rows.as_slice()
    }

    /// Answers a choice, and takes it where the answer is `Taken`. A refused choice and an error change nothing. What a
    /// choice waits for is a result of a pending row, and none is answered with a circle.
    pub fn choose(&mut self, g: &Accepted, choice: &Choice) -> Result<Answer, AllocError>
        requires grammar { g.now.grammar ≡ self.old.grammar.now }
        requires fits { choice_ok (grammar_of self.old.grammar.now) (choice_of choice.now) ≡ true }
        ensures grammar { self.new.grammar.now ≡ self.old.grammar.now }
        ensures answer { IfOk result (λ a. answer_of a ≡ answer (grammar_of self.old.grammar.now) (config_of self.old.rows.items) (choice_of choice.now)) }
        ensures rows { IfOk result (λ a. config_of self.new.rows.items ≡ after (grammar_of self.old.grammar.now) (config_of self.old.rows.items) (choice_of choice.now)) }
        ensures refused { IfOk result (λ a. (a ≡ Answer.Taken → ⊥) → self.new.rows.items ≡ self.old.rows.items) }
        ensures err { OnErr result (self.new.rows.items ≡ self.old.rows.items) }
        ensures acyclic { ∥ IsAcyclic (IO (grammar_of self.new.grammar.now)) (config_of self.new.rows.items) ∥₁ }
        ensures waits { IfOk result (λ a. (r : Ref) → a ≡ Answer.Waits r →
            ∥ IsMissing (grammar_of self.old.grammar.now) (config_of self.old.rows.items) r ∥₁) }
        ensures no_circle { IfOk result (λ a. (r : Ref) → a ≡ Answer.Circle r → ⊥) }
    {
        choose(g.grammar(), &mut self.rows, choice)
    }
}
