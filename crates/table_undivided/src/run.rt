//! One run, over whole trees and over flat equations.
ghost use Rattle.std.specs.Prelude.{◌≡◌, true, IfOk, OnOk};
ghost use Rattle.aw_base.specs.ChoiceFits.{choice_ok};
ghost use Rattle.aw_choice.specs.ChoiceView.{choice_of};
ghost use Rattle.aw_grammar.specs.GrammarOf.{grammar_of};
ghost use Rattle.aw_sched.specs.Answers.{MayCome};
ghost use Rattle.aw_term.specs.WellFormed.{Each};

use aw_accept::Accepted;
use aw_base::{NameWriter, push_artifacts_line, push_choice_line};
use aw_choice::{Answer, Choice};
use aw_grammar::Grammar;
use aw_list::Text;
use aw_out::{OUTPUT_LIMIT, PrintFault, Report};
use aw_plain::{Plain, print_rows};
use aw_plain_rows::Row;
use aw_replay::run_undivided;
use aw_sched::Event;
use std::alloc::{AllocError, Global};

/// Adds the line of a choice and its answer.
fn push_answer(
    told: &mut Text,
    g: &Grammar,
    choice: &Choice,
    answer: &Answer,
) -> Result<(), AllocError> {
    let mut names = NameWriter::new(told.allocator(), g);
    push_choice_line(told, &mut names, choice, answer)
}

/// Adds the event that a choice is made.
fn push_event(g: &Grammar, events: &mut Vec<Event>, choice: Choice) -> Result<(), AllocError>
    requires fit { Each (MayCome (grammar_of g.now)) events.old.items }
    requires fits { choice_ok (grammar_of g.now) (choice_of choice) ≡ true }
    ensures { OnOk result (Each (MayCome (grammar_of g.now)) events.new.items) }
{
    let event = Event::of_choice(*events.allocator(), choice)?;
    events.push(event)?;
    Ok(())
}

/// The rows over whole trees that choices lead to, the choices, and the lines of their answers.
#[derive(Drop)]
pub struct Run<'g> {
    plain: Plain<'g>,
    events: Vec<Event>,
    told: Text,
}

impl<'g> Run<'g> {
    /// No choice was made.
    pub fn new(alloc: Global, accepted: &'g Accepted) -> Run<'g>
        ensures same { result.plain.grammar.now ≡ accepted.now.grammar }
        ensures fit { Each (MayCome (grammar_of accepted.now.grammar)) result.events.items }
    {
        Run {
            plain: Plain::new(alloc, accepted),
            events: Vec::new(alloc),
            told: Text::new(alloc),
        }
    }

    /// The rows that stand.
    pub fn rows(&self) -> &[Row] {
        self.plain.rows()
    }

    /// Makes a choice over whole trees, and adds the line of its answer.
    fn answer(&mut self, accepted: &Accepted, choice: &Choice) -> Result<Answer, AllocError>
        requires same { self.old.plain.grammar.now ≡ accepted.now.grammar }
        requires fits { choice_ok (grammar_of accepted.now.grammar) (choice_of choice.now) ≡ true }
        ensures same { self.new.plain.grammar.now ≡ accepted.now.grammar }
        ensures events { self.new.events ≡ self.old.events }
    {
        let answer = self.plain.choose(accepted, choice)?;
        push_answer(&mut self.told, accepted.grammar(), choice, &answer)?;
        Ok(answer)
    }

    /// Makes a choice over whole trees.
    pub fn choose(&mut self, accepted: &Accepted, choice: Choice) -> Result<Answer, AllocError>
        requires same { self.old.plain.grammar.now ≡ accepted.now.grammar }
        requires fit { Each (MayCome (grammar_of accepted.now.grammar)) self.old.events.items }
        requires fits { choice_ok (grammar_of accepted.now.grammar) (choice_of choice) ≡ true }
        ensures same { self.new.plain.grammar.now ≡ accepted.now.grammar }
        ensures fit { IfOk result (λ a. Each (MayCome (grammar_of accepted.now.grammar)) self.new.events.items) }
    {
        let answer = self.answer(accepted, &choice)?;
        push_event(accepted.grammar(), &mut self.events, choice)?;
        Ok(answer)
    }

    /// Prints the answers and the rows.
    fn print(&self, alloc: Global, g: &Grammar, report: &mut Report) -> Result<(), PrintFault> {
        let mut line = Text::new(alloc);
        push_artifacts_line(&mut line, self.rows().len())?;
        report.push(self.told.as_slice())?;
        report.push(line.as_slice())?;
        print_rows(alloc, g, self.rows(), report)
    }

    /// What is told over whole trees; `None` where that is too large.
    pub fn told_of_trees(&self, alloc: Global, g: &Grammar) -> Result<Option<Text>, AllocError> {
        let mut report = Report::new(alloc, OUTPUT_LIMIT);
        match self.print(alloc, g, &mut report) {
            Ok(()) => Ok(Some(report.into_text())),
            Err(PrintFault::TooLarge) => Ok(None),
            Err(PrintFault::NoMemory) => Err(AllocError),
        }
    }

    /// What is told of the same choices over flat equations; `None` where that is too large.
    pub fn told_of_equations(
        &self,
        alloc: Global,
        accepted: &Accepted,
    ) -> Result<Option<Text>, AllocError>
        requires { Each (MayCome (grammar_of accepted.now.grammar)) self.now.events.items }
    {
        match run_undivided(alloc, accepted, self.events.as_slice()) {
            Ok(report) => Ok(Some(report.into_text())),
            Err(PrintFault::TooLarge) => Ok(None),
            Err(PrintFault::NoMemory) => Err(AllocError),
        }
    }
}
