//! What is told of an entry.
ghost use Rattle.std.specs.Prelude.{◌≡◌, ◌≤◌, IfOk, length};
ghost use Rattle.aw_grammar.specs.GrammarOf.{grammar_of};
ghost use Rattle.aw_sched.specs.Answers.{MayCome};
ghost use Rattle.aw_term.specs.WellFormed.{Each};
ghost use Rattle.aw_typed.specs.Typing.{IsMadeFor};
ghost use Rattle.aw_world.specs.WorldView.{plain_of};

use crate::fault::EntryFault;
use aw_accept::{Accepted, Refused, accept};
use aw_base::{Grammar, push_node};
use aw_list::Text;
use aw_out::{OUTPUT_LIMIT, PrintFault, Report};
use aw_replay::tell_events;
use aw_sched::{Event, Events, SchedFault, read_schedule};
use aw_spec::{SpecFault, SpecText, read_spec};
use aw_typed::{Typed, untyped};
use aw_world::{SiteWorld, Workspace, World};
use aw_world_waits::{Pair, waiting};
use std::alloc::{AllocError, Global};

/// Adds a line for each pair.
fn push_pairs(told: &mut Text, g: &Grammar, pairs: &[Pair]) -> Result<(), AllocError> {
    for pair in pairs {
        push_node(told, g, &pair.node)?;
        told.push_bytes(b" waits for ")?;
        push_node(told, g, &pair.on)?;
        told.push_bytes(b"\n")?;
    }
    Ok(())
}

/// The events of a schedule with these types.
fn events_with(
    alloc: Global,
    g: &Grammar,
    typed: &Typed,
    schedule: &[u8],
) -> Result<Events, EntryFault>
    requires { IsMadeFor (grammar_of g.now) typed.now }
    ensures { IfOk result (λ events. Each (MayCome (grammar_of g.now)) events) }
{
    match read_schedule(alloc, g, typed, schedule) {
        Ok(events) => Ok(events),
        Err(SchedFault::Bad { .. }) => Err(EntryFault::Unreadable),
        Err(SchedFault::NoMemory) => Err(EntryFault::NoMemory),
    }
}

/// The events of a schedule without types.
fn events_of(alloc: Global, g: &Grammar, schedule: &[u8]) -> Result<Events, EntryFault>
    ensures { IfOk result (λ events. Each (MayCome (grammar_of g.now)) events) }
{
    let typed = untyped(alloc, g)?;
    events_with(alloc, g, &typed, schedule)
}

/// Does the events of a schedule. What is told of them is dropped.
fn do_events<W: Workspace>(
    alloc: Global,
    world: &mut World<W>,
    events: &[Event],
) -> Result<(), PrintFault>
    requires { Each (MayCome (plain_of world.old)) events.now }
{
    let mut report = Report::new(alloc, OUTPUT_LIMIT);
    tell_events(world, events, &mut report)
}

/// Adds who waits for whom in a world.
fn push_waiting<W: Workspace>(
    told: &mut Text,
    g: &Grammar,
    world: &World<W>,
) -> Result<(), AllocError> {
    let pairs = waiting(world)?;
    push_pairs(told, g, pairs.as_slice())
}

/// Adds who waits for whom in a world after these events.
fn push_after<W: Workspace>(
    alloc: Global,
    told: &mut Text,
    g: &Grammar,
    world: &mut World<W>,
    events: &[Event],
) -> Result<(), EntryFault>
    requires { Each (MayCome (plain_of world.old)) events.now }
{
    do_events(alloc, world, events)?;
    Ok(push_waiting(told, g, world)?)
}

/// Adds who waits for whom after these events, where nothing happened before.
fn push_world(
    alloc: Global,
    told: &mut Text,
    accepted: &Accepted,
    loads: bool,
    events: &[Event],
) -> Result<(), EntryFault>
    requires { Each (MayCome (grammar_of accepted.now.grammar)) events.now }
{
    let mut world = SiteWorld::new(alloc, accepted, loads)?;
    let pushed = push_after(alloc, told, accepted.grammar(), &mut world, events);
    drop(world);
    pushed
}

/// Adds who waits for whom after the events of a schedule.
fn push_schedule(
    alloc: Global,
    told: &mut Text,
    accepted: &Accepted,
    loads: bool,
    schedule: &[u8],
) -> Result<(), EntryFault> {
    let events = events_of(alloc, accepted.grammar(), schedule)?;
    let pushed = push_world(alloc, told, accepted, loads, events.as_slice());
    drop(events);
    pushed
}

/// The specification of an entry.
fn spec_of(alloc: Global, input: &[u8]) -> Result<SpecText, EntryFault>
    ensures { IfOk result (λ spec. spec.rest ≤ length input.now) }
{
    match read_spec(alloc, input) {
        Ok(spec) => Ok(spec),
        Err(SpecFault::Bad { .. }) => Err(EntryFault::Unreadable),
        Err(SpecFault::NoMemory) => Err(EntryFault::NoMemory),
    }
}

/// Why the entry of a grammar that is not accepted is not told.
fn fault_of(refused: &Refused) -> EntryFault {
    match refused {
        Refused::Circular { .. } => EntryFault::Unreadable,
        Refused::NoMemory => EntryFault::NoMemory,
    }
}

/// A grammar that is accepted.
fn accepted_of(alloc: Global, g: Grammar) -> Result<Accepted, EntryFault> {
    match accept(alloc, g) {
        Ok(accepted) => Ok(accepted),
        Err(refused) => {
            let fault = fault_of(&refused);
            drop(refused);
            Err(fault)
        }
    }
}

/// The grammar of a specification, where its schedule begins, and whether it has loads. Its other parts are dropped.
fn parts_of(spec: SpecText) -> (Grammar, usize, bool)
    ensures { result.1 ≡ spec.rest }
{
    let SpecText {
        grammar,
        rest,
        loads,
        ..
    } = spec;
    (grammar, rest, loads)
}

/// Adds who waits for whom in the world of an entry.
pub fn push_entry(alloc: Global, told: &mut Text, input: &[u8]) -> Result<(), EntryFault> {
    let (grammar, rest, loads) = parts_of(spec_of(alloc, input)?);
    let accepted = accepted_of(alloc, grammar)?;
    let pushed = push_schedule(alloc, told, &accepted, loads, &input[rest..]);
    drop(accepted);
    pushed
}
