//! A schedule, read event by event.
ghost use Rattle.std.specs.Prelude.{◌≡◌, ◌<◌, ◌∷◌, ◌↔◌, IsTrue, IfOk, IfSome, Ok, None, length};
ghost use Rattle.aw_lex.specs.Lines.{lines_of};
ghost use Rattle.aw_typed.specs.Typing.{types_of, IsMadeFor};
ghost use Rattle.aw_term.specs.WellFormed.{Each};
ghost use Rattle.aw_grammar.specs.GrammarOf.{declarations_of, grammar_of};
ghost use Rattle.aw_sched.specs.Schedules.{schedule_of};
ghost use Rattle.aw_sched.specs.Answers.{Answers, HasTypes, MayCome};
ghost use Rattle.aw_sched.specs.LineEvents.{fault_at, found_at};
ghost use Rattle.aw_sched.specs.Readers.{IsReading, Passes, ReadsNext, ReadsOn, left};

use crate::choice_line::LastNode;
use crate::event::{Event, Events};
use crate::fault::{LineFault, SchedFault};
use crate::read::line_event;
use aw_base::{Grammar, NodeReader};
use aw_lex::{Tokens, next_line};
use aw_typed::Typed;
use std::alloc::Global;

fn fault_at(line: u64, fault: LineFault) -> SchedFault
    ensures { result ≡ fault_at line fault }
{
    match fault {
        LineFault::Bad(kind) => SchedFault::Bad { line, kind },
        LineFault::NoMemory => SchedFault::NoMemory,
    }
}

/// What was found in the line of this number, its fault told with that number.
fn at_line(line: u64, found: Result<Option<Event>, LineFault>) -> Result<Option<Event>, SchedFault>
    ensures { result ≡ found_at line found }
{
    match found {
        Ok(event) => Ok(event),
        Err(fault) => Err(fault_at(line, fault)),
    }
}

/// Whether a line was passed over.
fn is_passed_over(found: &Result<Option<Event>, SchedFault>) -> bool
    ensures { IsTrue result ↔ (found.now ≡ Ok None) }
{
    matches!(found, Ok(None))
}

/// Reads the events of a schedule one after the other, whose choices have arguments of these types. No event is kept: who reads one
/// may let it go before the next. The list of tokens is filled anew for each line that is read by tokens, and the name of a node is
/// read from where it parts from the last one of its case, and not at all where it is the last one again.
#[derive(Drop)]
pub struct ScheduleReader<'a> {
    grammar: &'a Grammar,
    typed: &'a Typed,
    found: Tokens,
    nodes: NodeReader,
    last: Option<LastNode<'a>>,
    rest: &'a [u8],
    line: u64,
}

impl<'a> ScheduleReader<'a> {
    /// Nothing is read yet. It takes no memory.
    pub fn new(alloc: Global, g: &'a Grammar, t: &'a Typed, text: &'a [u8]) -> ScheduleReader<'a>
        requires { IsMadeFor (grammar_of g.now) t.now }
        ensures reading { IsReading result }
        ensures left { left result ≡ schedule_of (types_of t.now.types) (declarations_of g.now) text.now }
        ensures grammar { result.grammar.now ≡ g.now }
        ensures typed { result.typed.now ≡ t.now }
    {
        ScheduleReader {
            grammar: g,
            typed: t,
            found: Tokens::new(alloc),
            nodes: NodeReader::new(alloc),
            last: None,
            rest: text,
            line: 0,
        }
    }

    /// The next event, or `None` at the end; or, of the lines up to the next event, the first that is faulty, counted from 1, and the
    /// first kind of fault there. Behind a fault it goes on with the next line.
    pub fn next(&mut self) -> Result<Option<Event>, SchedFault>
        requires { IsReading self.old }
        ensures reading { IsReading self.new }
        ensures grammar { self.new.grammar.now ≡ self.old.grammar.now }
        ensures typed { self.new.typed.now ≡ self.old.typed.now }
        ensures next { ReadsNext (left self.old) result (left self.new) }
        ensures fits { IfOk result (λ found. IfSome found (MayCome (grammar_of self.old.grammar.now))) }
        ensures types { IfOk result (λ found. IfSome found (HasTypes (types_of self.old.typed.now.types) (grammar_of self.old.grammar.now))) }
        ensures shorter { IfOk result (λ found. IfSome found (λ event. length self.new.rest.now < length self.old.rest.now)) }
    {
        while let Some((line, behind)) = next_line(self.rest) {
            let found = self.read_line(line, behind);
            if !is_passed_over(&found) {
                return found;
            }
        }
        Ok(None)
    }

    /// What the next line gives, behind which this is left. It is counted.
    fn read_line(&mut self, line: &'a [u8], behind: &'a [u8]) -> Result<Option<Event>, SchedFault>
        requires reading { IsReading self.old }
        requires line { lines_of self.old.rest.now ≡ line.now ∷ lines_of behind.now }
        requires shorter { length behind.now < length self.old.rest.now }
        ensures reading { IsReading self.new }
        ensures kept { (self.new.grammar.now ≡ self.old.grammar.now) × (self.new.typed.now ≡ self.old.typed.now) }
        ensures rest { self.new.rest.now ≡ behind.now }
        ensures next { ReadsOn (left self.old) result (left self.new) }
        ensures fits { IfOk result (λ found. IfSome found (MayCome (grammar_of self.old.grammar.now))) }
        ensures types { IfOk result (λ found. IfSome found (HasTypes (types_of self.old.typed.now.types) (grammar_of self.old.grammar.now))) }
    {
        self.rest = behind;
        self.line += 1;
        let found = line_event(
            &mut self.found,
            &mut self.nodes,
            &mut self.last,
            self.grammar,
            self.typed,
            line,
        );
        at_line(self.line, found)
    }

    /// Reads what is left for its faults alone.
    pub fn pass(&mut self) -> Result<(), SchedFault>
        requires { IsReading self.old }
        ensures reading { IsReading self.new }
        ensures grammar { self.new.grammar.now ≡ self.old.grammar.now }
        ensures typed { self.new.typed.now ≡ self.old.typed.now }
        ensures passes { Passes self.old result }
    {
        while let Some(event) = self.next()? {
            drop(event);
        }
        Ok(())
    }
}

/// The events of a schedule, whose choices have arguments of these types; or its first faulty line, counted from 1, and the first
/// kind of fault there.
pub fn read_schedule(
    alloc: Global,
    g: &Grammar,
    t: &Typed,
    text: &[u8],
) -> Result<Events, SchedFault>
    requires { IsMadeFor (grammar_of g.now) t.now }
    ensures answer { Answers (schedule_of (types_of t.now.types) (declarations_of g.now) text.now) result }
    ensures fits { IfOk result (λ events. Each (MayCome (grammar_of g.now)) events) }
    ensures types { IfOk result (λ events. Each (HasTypes (types_of t.now.types) (grammar_of g.now)) events) }
{
    let mut reader = ScheduleReader::new(alloc, g, t, text);
    let mut events = Events::new(alloc);
    while let Some(event) = reader.next()? {
        events.push(event)?;
    }
    Ok(events)
}
