//! Taking a choice on some rows.
ghost use Rattle.std.specs.Prelude.{◌≡◌, IfOk, OnErr, map};
ghost use Rattle.aw_term.specs.Choices.{Start, Develop, answer, after, start_row as plain_start_row};
ghost use Rattle.aw_term.specs.Names.{root as plain_root};
ghost use Rattle.aw_term.specs.Views.{ground_of};
ghost use Rattle.aw_choice.specs.ChoiceView.{answer_of, choice_of};
ghost use Rattle.aw_grammar.specs.GrammarOf.{grammar_of};
ghost use Rattle.aw_plain_rows.specs.RowView.{plain_row, config_of};
ghost use Rattle.aw_plain.specs.Filled.{AreFilled};
ghost use Rattle.aw_plain.specs.Ordered.{IsOrdered};
ghost use Rattle.aw_plain.specs.Cases.{AreApart};

use crate::develop::develop;
use crate::fill::holes;
use crate::outcome::{Outcome, weigh};
use crate::row::{add_row, find_row};
use aw_base::{Answer, Choice, Grammar, Grounds};
use aw_list::Items;
use aw_name::{Node, Trail};
use aw_plain_rows::{Row, State};
use std::alloc::{AllocError, Global};

/// The node that a case begins with.
fn root(alloc: Global, sort: u16, case: u64) -> Node
    ensures { result ≡ plain_root sort case }
{
    Node {
        start: sort,
        case,
        steps: Trail::new(alloc),
    }
}

/// The pending row of a new case.
fn start_row(alloc: Global, grammar: &Grammar, sort: u16, case: u64) -> Result<Row, AllocError>
    ensures { IfOk result (λ row. plain_row row ≡ plain_start_row (grammar_of grammar.now) sort case) }
{
    let node = root(alloc, sort, case);
    let results = holes(alloc, &node, grammar.gives(sort))?;
    Ok(Row {
        node,
        sort,
        inherited: Items::new(alloc),
        results,
        state: State::Pending,
    })
}

/// Takes a start, unless its node is held.
fn start(grammar: &Grammar, rows: &mut Vec<Row>, sort: u16, case: u64) -> Result<Answer, AllocError>
    requires { IsOrdered (config_of rows.old.items) }
    ensures answer { IfOk result (λ a. answer_of a ≡ answer (grammar_of grammar.now) (config_of rows.old.items) (Start sort case)) }
    ensures rows { IfOk result (λ a. config_of rows.new.items ≡ after (grammar_of grammar.now) (config_of rows.old.items) (Start sort case)) }
    ensures refused { IfOk result (λ a. (a ≡ Answer.Taken → ⊥) → rows.new.items ≡ rows.old.items) }
    ensures err { OnErr result (rows.new.items ≡ rows.old.items) }
{
    let alloc = *rows.allocator();
    if find_row(rows.as_slice(), &root(alloc, sort, case)).is_some() {
        return Ok(Answer::Known);
    }
    let row = start_row(alloc, grammar, sort, case)?;
    add_row(rows, row)?;
    Ok(Answer::Taken)
}

/// Takes a rule on a node, unless it is refused.
fn take(
    grammar: &Grammar,
    rows: &mut Vec<Row>,
    node: &Node,
    number: u16,
    args: &Grounds,
) -> Result<Answer, AllocError>
    requires filled { ∥ AreFilled (grammar_of grammar.now) (config_of rows.old.items) ∥₁ }
    requires ordered { IsOrdered (config_of rows.old.items) }
    requires apart { AreApart (config_of rows.old.items) }
    ensures answer { IfOk result (λ a. answer_of a ≡ answer (grammar_of grammar.now) (config_of rows.old.items) (Develop node.now number (map ground_of args.now))) }
    ensures rows { IfOk result (λ a. config_of rows.new.items ≡ after (grammar_of grammar.now) (config_of rows.old.items) (Develop node.now number (map ground_of args.now))) }
    ensures refused { IfOk result (λ a. (a ≡ Answer.Taken → ⊥) → rows.new.items ≡ rows.old.items) }
    ensures err { OnErr result (rows.new.items ≡ rows.old.items) }
{
    let alloc = *rows.allocator();
    match weigh(
        alloc,
        grammar,
        rows.as_slice(),
        node,
        number,
        args.as_slice(),
    )? {
        Outcome::Refused(answer) => Ok(answer),
        Outcome::Takes { rule, bound } => {
            develop(alloc, grammar, rows, node, number, rule, bound, args)?;
            Ok(Answer::Taken)
        }
    }
}

/// Answers a choice, and takes it where the answer is `Taken`. A refused choice and an error change nothing.
pub fn choose(grammar: &Grammar, rows: &mut Vec<Row>, choice: &Choice) -> Result<Answer, AllocError>
    requires filled { ∥ AreFilled (grammar_of grammar.now) (config_of rows.old.items) ∥₁ }
    requires ordered { IsOrdered (config_of rows.old.items) }
    requires apart { AreApart (config_of rows.old.items) }
    ensures answer { IfOk result (λ a. answer_of a ≡ answer (grammar_of grammar.now) (config_of rows.old.items) (choice_of choice.now)) }
    ensures rows { IfOk result (λ a. config_of rows.new.items ≡ after (grammar_of grammar.now) (config_of rows.old.items) (choice_of choice.now)) }
    ensures refused { IfOk result (λ a. (a ≡ Answer.Taken → ⊥) → rows.new.items ≡ rows.old.items) }
    ensures err { OnErr result (rows.new.items ≡ rows.old.items) }
{
    match choice {
        Choice::Start { sort, case } => start(grammar, rows, *sort, *case),
        Choice::Develop { node, rule, args } => take(grammar, rows, node, *rule, args),
    }
}
