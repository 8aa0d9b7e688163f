//! The event that a line of a schedule asks for, its names looked up.
ghost use Rattle.std.specs.Prelude.{◌≡◌, true, map, IfOk, IfErr};
ghost use Rattle.aw_grammar.specs.Written.{written_of};
ghost use Rattle.aw_grammar.specs.Terms.{all_have_contents};
ghost use Rattle.aw_grammar.specs.GrammarOf.{declarations_of, grammar_of, words_of};
ghost use Rattle.aw_base.specs.NodeNames.{node_named};
ghost use Rattle.aw_base.specs.ReadFronts.{IsReaderOf};
ghost use Rattle.aw_sched.specs.Lines.{StartLine, ChooseLine, ListLine};
ghost use Rattle.aw_sched.specs.Events.{is_long, event_of, line_kind};
ghost use Rattle.aw_sched.specs.Answers.{MayCome};
ghost use Rattle.aw_sched.specs.LineEvents.{GivesArgs, GivesEvent, SaysNode};
ghost use Rattle.aw_sched.specs.LineSeen.{line_seen, HasContents};
ghost use Rattle.aw_sched.specs.declared.fault.LineFault.TheVariants.{NoMemory};

use crate::event::Event;
use crate::fault::{LineFault, SchedKind};
use crate::ground::{args_are_past, grounds};
use crate::line::SchedLine;
use aw_base::{Choice, Grammar, Grounds, NameFault, Node, NodeReader, RawTerms, args_ok, is_start};
use std::alloc::Global;

/// What the name of a node says.
#[derive(Drop)]
pub(crate) enum NodeSaid {
    Valid(Node),
    /// It has more than 250 steps.
    Long,
    Faulty,
}

/// The node of this name, or why it is none.
pub(crate) fn said_node(
    nodes: &mut NodeReader,
    g: &Grammar,
    node: &[u8],
) -> Result<NodeSaid, LineFault>
    requires { IsReaderOf g.now nodes.old }
    ensures kept { IsReaderOf g.now nodes.new }
    ensures ok { IfOk result (SaysNode (grammar_of g.now) (is_long node.now) (node_named (words_of g.now) (grammar_of g.now) node.now)) }
    ensures err { IfErr result (λ e. e ≡ NoMemory) }
{
    match nodes.read(g, node) {
        Ok(node) => Ok(NodeSaid::Valid(node)),
        Err(NameFault::Long) => Ok(NodeSaid::Long),
        Err(NameFault::Form) => Ok(NodeSaid::Faulty),
        Err(NameFault::Unknown) => Ok(NodeSaid::Faulty),
        Err(NameFault::Step { .. }) => Ok(NodeSaid::Faulty),
        Err(NameFault::NoMemory) => Err(LineFault::NoMemory),
    }
}

fn chosen_args(
    alloc: Global,
    g: &Grammar,
    rule: &[u8],
    args: RawTerms,
) -> Result<(u16, Grounds), LineFault>
    requires { all_have_contents (map written_of args) ≡ true }
    ensures { GivesArgs (declarations_of g.now) (grammar_of g.now) rule.now (map written_of args) result }
{
    if args_are_past(&args) {
        return Err(LineFault::Bad(SchedKind::Limit));
    }
    let rule = match g.rule_named(rule) {
        Some(rule) => rule,
        None => return Err(LineFault::Bad(SchedKind::Unknown)),
    };
    let args = grounds(alloc, g, args)?;
    if args_ok(g, &args) {
        Ok((rule, args))
    } else {
        Err(LineFault::Bad(SchedKind::Arity))
    }
}

fn choose_event(
    alloc: Global,
    nodes: &mut NodeReader,
    g: &Grammar,
    node: &[u8],
    rule: &[u8],
    args: RawTerms,
) -> Result<Event, LineFault>
    requires contents { all_have_contents (map written_of args) ≡ true }
    requires nodes { IsReaderOf g.now nodes.old }
    ensures kept { IsReaderOf g.now nodes.new }
    ensures gives { let line = ChooseLine node.now rule.now (map written_of args) in GivesEvent (line_kind (declarations_of g.now) line) (event_of (declarations_of g.now) line) result }
    ensures fits { IfOk result (MayCome (grammar_of g.now)) }
{
    match said_node(nodes, g, node)? {
        NodeSaid::Long => Err(LineFault::Bad(SchedKind::Limit)),
        NodeSaid::Faulty => match chosen_args(alloc, g, rule, args) {
            Ok(_) => Err(LineFault::Bad(SchedKind::Name)),
            Err(fault) => Err(fault),
        },
        NodeSaid::Valid(node) => match chosen_args(alloc, g, rule, args) {
            Ok((rule, args)) => {
                let choice = Choice::Develop { node, rule, args };
                Ok(Event::of_choice(alloc, choice)?)
            }
            Err(fault) => Err(fault),
        },
    }
}

fn start_event(alloc: Global, g: &Grammar, sort: &[u8], case: u64) -> Result<Event, LineFault>
    ensures gives { let line = StartLine sort.now case in GivesEvent (line_kind (declarations_of g.now) line) (event_of (declarations_of g.now) line) result }
    ensures fits { IfOk result (MayCome (grammar_of g.now)) }
{
    match g.sort_named(sort) {
        None => Err(LineFault::Bad(SchedKind::Unknown)),
        Some(sort) if is_start(g, sort) => {
            Ok(Event::of_choice(alloc, Choice::Start { sort, case })?)
        }
        Some(_) => Err(LineFault::Bad(SchedKind::NotStart)),
    }
}

fn list_event(g: &Grammar, role: &[u8]) -> Result<Event, LineFault>
    ensures gives { let line = ListLine role.now in GivesEvent (line_kind (declarations_of g.now) line) (event_of (declarations_of g.now) line) result }
    ensures fits { IfOk result (MayCome (grammar_of g.now)) }
{
    match g.role_named(role) {
        Some(role) => Ok(Event::List(role)),
        None => Err(LineFault::Bad(SchedKind::Unknown)),
    }
}

/// The event that a line asks for, or the first kind of fault in it.
pub(crate) fn event_of(
    alloc: Global,
    nodes: &mut NodeReader,
    g: &Grammar,
    line: SchedLine<'_>,
) -> Result<Event, LineFault>
    requires contents { HasContents (line_seen line) }
    requires nodes { IsReaderOf g.now nodes.old }
    ensures kept { IsReaderOf g.now nodes.new }
    ensures gives { GivesEvent (line_kind (declarations_of g.now) (line_seen line.entry)) (event_of (declarations_of g.now) (line_seen line.entry)) result }
    ensures fits { IfOk result (MayCome (grammar_of g.now)) }
{
    match line {
        SchedLine::Start { sort, case } => start_event(alloc, g, sort, case),
        SchedLine::Choose { node, rule, args } => choose_event(alloc, nodes, g, node, rule, args),
        SchedLine::Deliver(message) => Ok(Event::Deliver(message)),
        SchedLine::Settle => Ok(Event::Settle),
        SchedLine::List(role) => list_event(g, role),
    }
}
