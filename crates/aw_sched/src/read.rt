//! Reading a line of a schedule.
ghost use Rattle.std.specs.Prelude.{◌≡◌, IfOk, IfSome, Some};
ghost use Rattle.aw_typed.specs.Types.{Types};
ghost use Rattle.aw_typed.specs.Typing.{types_of, IsMadeFor};
ghost use Rattle.aw_lex.specs.Tokens.{AreSlices};
ghost use Rattle.aw_term.specs.Rules as rules;
ghost use Rattle.aw_grammar.specs.Declarations.{Declarations};
ghost use Rattle.aw_grammar.specs.GrammarOf.{declarations_of, grammar_of};
ghost use Rattle.aw_base.specs.ReadFronts.{IsReaderOf};
ghost use Rattle.aw_term_reader.specs.Lexemes.{lexemes};
ghost use Rattle.aw_sched.specs.Lines.{line_of};
ghost use Rattle.aw_sched.specs.Events.{line_kind};
ghost use Rattle.aw_sched.specs.LineSeen.{line_seen, HasContents};
ghost use Rattle.aw_sched.specs.Schedules.{by_form, by_kind, by_type, event_fits, read_line, Gives};
ghost use Rattle.aw_sched.specs.Answers.{HasTypes, MayCome, event_seen};
ghost use Rattle.aw_sched.specs.LineEvents.{ReadsLine};
ghost use Rattle.aw_sched.specs.LastNodes.{IsLast};

use crate::choice_line::{LastNode, node_of_choice};
use crate::event::Event;
use crate::fault::{LineFault, SchedKind};
use crate::known::known_choice;
use crate::line::SchedLine;
use crate::lookup::event_of;
use crate::parse::parse_line;
use aw_base::{Grammar, NodeReader};
use aw_lex::{LexFault, Token, Tokens, is_passed_over, read_tokens};
use aw_spelling::number_value;
use aw_term_reader::Unread;
use aw_typed::{Typed, arg_ok};
use std::alloc::Global;

/// Whether the arguments of a choice fit the types of its rule's parameters.
fn event_fits(g: &Grammar, t: &Typed, event: &Event) -> bool
    requires { IsMadeFor (grammar_of g.now) t.now }
    ensures { result ≡ event_fits (types_of t.now.types) (grammar_of g.now) (event_seen event.now) }
{
    match event {
        Event::Choose(choice) => arg_ok(t, choice.get()),
        Event::Deliver(_) => true,
        Event::Settle => true,
        Event::List(_) => true,
    }
}

/// An event whose arguments fit, or the fault that they do not.
fn typed_event(g: &Grammar, t: &Typed, event: Event) -> Result<Option<Event>, LineFault>
    requires { IsMadeFor (grammar_of g.now) t.now }
    ensures reads { ReadsLine (by_type (types_of t.now.types) (grammar_of g.now) (event_seen event)) result }
    ensures same { IfOk result (λ found. found ≡ Some event) }
    ensures types { IfOk result (λ found. IfSome found (HasTypes (types_of t.now.types) (grammar_of g.now))) }
{
    if event_fits(g, t, &event) {
        return Ok(Some(event));
    }
    drop(event);
    Err(LineFault::Bad(SchedKind::Misfit))
}

/// The event that a line asks for, its arguments looked at, or the first kind of fault in it.
fn said_event(
    alloc: Global,
    nodes: &mut NodeReader,
    g: &Grammar,
    t: &Typed,
    line: SchedLine<'_>,
) -> Result<Option<Event>, LineFault>
    requires contents { HasContents (line_seen line) }
    requires made { IsMadeFor (grammar_of g.now) t.now }
    requires nodes { IsReaderOf g.now nodes.old }
    ensures kept { IsReaderOf g.now nodes.new }
    ensures reads { ReadsLine (by_kind (types_of t.now.types) (declarations_of g.now) (line_seen line.entry) (line_kind (declarations_of g.now) (line_seen line.entry))) result }
    ensures fits { IfOk result (λ found. IfSome found (MayCome (grammar_of g.now))) }
    ensures types { IfOk result (λ found. IfSome found (HasTypes (types_of t.now.types) (grammar_of g.now))) }
{
    match event_of(alloc, nodes, g, line) {
        Ok(event) => typed_event(g, t, event),
        Err(fault) => Err(fault),
    }
}

fn event_said(
    alloc: Global,
    nodes: &mut NodeReader,
    g: &Grammar,
    t: &Typed,
    line: &[u8],
    tokens: &[Token],
) -> Result<Option<Event>, LineFault>
    requires slices { AreSlices line.now 0 tokens.now }
    requires made { IsMadeFor (grammar_of g.now) t.now }
    requires nodes { IsReaderOf g.now nodes.old }
    ensures kept { IsReaderOf g.now nodes.new }
    ensures reads { ReadsLine (by_form (types_of t.now.types) (declarations_of g.now) (line_of (lexemes line.now tokens.now))) result }
    ensures fits { IfOk result (λ found. IfSome found (MayCome (grammar_of g.now))) }
    ensures types { IfOk result (λ found. IfSome found (HasTypes (types_of t.now.types) (grammar_of g.now))) }
{
    match parse_line(alloc, line, tokens) {
        Ok(said) => said_event(alloc, nodes, g, t, said),
        Err(Unread::Form) => Err(LineFault::Bad(SchedKind::Form)),
        Err(Unread::NoMemory) => Err(LineFault::NoMemory),
    }
}

/// The event of a line that is `settle`, or `deliver `, a number and nothing else, as its bytes tell it. Any other line is left to
/// be read by its tokens.
fn plain_event(line: &[u8]) -> Option<Event>
    ensures reads { IfSome result (λ event. (t : Types) (d : Declarations) → read_line t d line.now ≡ Gives (event_seen event)) }
    ensures fits { IfSome result (λ event. (g : rules.Grammar) → MayCome g event) }
    ensures types { IfSome result (λ event. (t : Types) (g : rules.Grammar) → HasTypes t g event) }
{
    match line {
        [b's', b'e', b't', b't', b'l', b'e'] => Some(Event::Settle),
        [b'd', b'e', b'l', b'i', b'v', b'e', b'r', b' ', digits @ ..] => {
            Some(Event::Deliver(number_value(digits)?))
        }
        _ => None,
    }
}

/// The event of a line that is `choose `, the name of a node and a choice there, without a fault. It is read from the bytes at once:
/// where they name a node, they are one token, and nothing else has to judge them. Any other line, also one with a fault, is left to be
/// read by its tokens.
fn choice_event<'a>(
    alloc: Global,
    nodes: &mut NodeReader,
    last: &mut Option<LastNode<'a>>,
    g: &Grammar,
    t: &Typed,
    line: &'a [u8],
) -> Option<Event>
    requires made { IsMadeFor (grammar_of g.now) t.now }
    requires nodes { IsReaderOf g.now nodes.old }
    requires last { IsLast g.now last.old }
    ensures kept { IsReaderOf g.now nodes.new }
    ensures last { IsLast g.now last.new }
    ensures reads { IfSome result (λ event. read_line (types_of t.now.types) (declarations_of g.now) line.entry.now ≡ Gives (event_seen event)) }
    ensures fits { IfSome result (MayCome (grammar_of g.now)) }
    ensures types { IfSome result (HasTypes (types_of t.now.types) (grammar_of g.now)) }
{
    let (node, rest) = node_of_choice(nodes, last, g, line)?;
    let Ok(event) = known_choice(alloc, g, node, rest) else {
        return None;
    };
    match typed_event(g, t, event) {
        Ok(event) => event,
        Err(_) => None,
    }
}

/// What a line gives: by its bytes alone where these tell it, and else by its tokens.
pub(crate) fn line_event<'a>(
    found: &mut Tokens,
    nodes: &mut NodeReader,
    last: &mut Option<LastNode<'a>>,
    g: &Grammar,
    t: &Typed,
    line: &'a [u8],
) -> Result<Option<Event>, LineFault>
    requires made { IsMadeFor (grammar_of g.now) t.now }
    requires nodes { IsReaderOf g.now nodes.old }
    requires last { IsLast g.now last.old }
    ensures kept { IsReaderOf g.now nodes.new }
    ensures last { IsLast g.now last.new }
    ensures reads { ReadsLine (read_line (types_of t.now.types) (declarations_of g.now) line.entry.now) result }
    ensures fits { IfOk result (λ found. IfSome found (MayCome (grammar_of g.now))) }
    ensures types { IfOk result (λ found. IfSome found (HasTypes (types_of t.now.types) (grammar_of g.now))) }
{
    if let Some(event) = plain_event(line) {
        return Ok(Some(event));
    }
    if let Some(event) = choice_event(found.allocator(), nodes, last, g, t, line) {
        return Ok(Some(event));
    }
    if is_passed_over(line) {
        return Ok(None);
    }
    match read_tokens(found, line) {
        Ok(()) => event_said(found.allocator(), nodes, g, t, line, found.as_slice()),
        Err(LexFault::Bad { .. }) => Err(LineFault::Bad(SchedKind::Token)),
        Err(LexFault::NoMemory) => Err(LineFault::NoMemory),
    }
}
