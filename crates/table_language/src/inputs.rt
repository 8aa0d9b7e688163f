//! Inputs: of each it is told whether its specification and its schedule are good, or the first faulty line of
//! the whole input and its kind. What is good is also written again, the specification and the name of each task that is
//! chosen on, and has to be read as what it was. What stands in `stdin` was made from the stated limits, and `stdout` says
//! what has to be told; nothing in them comes from the program.
ghost use Rattle.aw_grammar.specs.GrammarOf.{grammar_of};
ghost use Rattle.aw_typed.specs.Types.{AreFor};
ghost use Rattle.aw_typed.specs.Typing.{types_of, IsMadeFor, NumbersInRange};
ghost use Rattle.aw_spec.specs.TypesFit.{TypesFit};
ghost use Rattle.aw_spec.specs.Views.{spec_seen};
ghost use Rattle.aw_spec_writer.specs.Writable.{FacesFit};

use crate::told::MARK;
use aw_base::{Choice, Grammar, sort_of};
use aw_list::Text;
use aw_name::{Node, is_same_node};
use aw_sched::{Event, SchedFault, read_schedule};
use aw_spec::{SpecFault, SpecText, read_spec};
use aw_spec_writer::{read_fits, write_spec};
use aw_spelling::push_number;
use aw_typed::{TypeFault, Typed, type_check};
use bstr::ByteSlice;
use std::alloc::{AllocError, Global};

/// Adds `schedule line 3 form`.
fn push_place(told: &mut Text, what: &[u8], line: u64, kind: &[u8]) -> Result<(), AllocError> {
    told.push_bytes(what)?;
    told.push_bytes(b" line ")?;
    push_number(told, line)?;
    told.push_bytes(b" ")?;
    told.push_bytes(kind)
}

/// Whether two specifications have the same declarations, faces, types, dependences and wish.
fn is_same(a: &SpecText, b: &SpecText) -> bool {
    a.grammar.roles == b.grammar.roles
        && a.grammar.cons == b.grammar.cons
        && a.grammar.sorts == b.grammar.sorts
        && a.grammar.rules == b.grammar.rules
        && a.faces == b.faces
        && a.types == b.types
        && a.depends == b.depends
        && a.free == b.free
}

/// Whether a specification is read as the same from the text that is written of it.
fn is_read_again(alloc: Global, spec: &SpecText) -> Result<bool, AllocError>
    requires faces { FacesFit (spec_seen spec.now) }
    requires types { TypesFit (spec_seen spec.now) }
{
    match aw_spec_writer::read_again(alloc, spec) {
        Ok(again) => {
            let same = is_same(spec, &again);
            drop(again);
            Ok(same)
        }
        Err(_) => Err(AllocError),
    }
}

/// Whether a task's printed name is read as that task.
fn is_named_again(alloc: Global, g: &Grammar, node: &Node) -> Result<bool, AllocError> {
    if sort_of(g, node).is_none() {
        return Ok(false);
    }
    match aw_sched::read_again(alloc, g, node) {
        Ok(again) => Ok(is_same_node(&again, node)),
        Err(_) => Err(AllocError),
    }
}

/// Whether the task that a choice is on, where it is on one, is named again.
fn is_node_named_again(alloc: Global, g: &Grammar, choice: &Choice) -> Result<bool, AllocError> {
    match choice {
        Choice::Start { .. } => Ok(true),
        Choice::Develop { node, .. } => is_named_again(alloc, g, node),
    }
}

/// Whether each task that is chosen on is named again.
fn are_named_again(alloc: Global, g: &Grammar, events: &[Event]) -> Result<bool, AllocError> {
    for event in events {
        if let Event::Choose(choice) = event {
            if !is_node_named_again(alloc, g, choice.get())? {
                return Ok(false);
            }
        }
    }
    Ok(true)
}

/// Adds whether the tasks of a good schedule are named again.
fn push_named(told: &mut Text, named: bool) -> Result<(), AllocError> {
    told.push_bytes(if named {
        b"good"
    } else {
        b"tasks named otherwise"
    })
}

/// Adds what is told of the schedule behind a good specification.
fn push_schedule_verdict(
    alloc: Global,
    told: &mut Text,
    spec: &SpecText,
    typed: &Typed,
    schedule: &[u8],
) -> Result<(), AllocError>
    requires { IsMadeFor (grammar_of spec.now.grammar) typed.now }
{
    match read_schedule(alloc, &spec.grammar, typed, schedule) {
        Ok(events) => {
            let named = are_named_again(alloc, &spec.grammar, events.as_slice());
            drop(events);
            push_named(told, named?)
        }
        Err(SchedFault::Bad { line, kind }) => push_place(
            told,
            b"schedule",
            line.saturating_add(spec.lines),
            kind.name(),
        ),
        Err(SchedFault::NoMemory) => Err(AllocError),
    }
}

/// Adds what is told of the types of a good specification, and of the schedule behind it.
fn push_typed_verdict(
    alloc: Global,
    told: &mut Text,
    spec: &SpecText,
    schedule: &[u8],
) -> Result<(), AllocError>
    requires sizes { AreFor (grammar_of spec.now.grammar) (types_of spec.now.types) }
    requires numbers { NumbersInRange (types_of spec.now.types) }
{
    match type_check(alloc, &spec.grammar, &spec.types) {
        Ok(typed) => {
            let pushed = push_schedule_verdict(alloc, told, spec, &typed, schedule);
            drop(typed);
            pushed
        }
        Err(TypeFault::NoMemory) => Err(AllocError),
        Err(_) => told.push_bytes(b"types"),
    }
}

/// Adds what is told of a good specification, and of the schedule behind it.
fn push_spec_verdict(
    alloc: Global,
    told: &mut Text,
    spec: &SpecText,
    schedule: &[u8],
) -> Result<(), AllocError>
    requires faces { FacesFit (spec_seen spec.now) }
    requires types { TypesFit (spec_seen spec.now) }
    requires sizes { AreFor (grammar_of spec.now.grammar) (types_of spec.now.types) }
    requires numbers { NumbersInRange (types_of spec.now.types) }
{
    if is_read_again(alloc, spec)? {
        return push_typed_verdict(alloc, told, spec, schedule);
    }
    told.push_bytes(b"specification read otherwise")
}

/// Adds what is told of an input.
fn push_verdict(alloc: Global, told: &mut Text, input: &[u8]) -> Result<(), AllocError> {
    match read_spec(alloc, input) {
        Ok(spec) => {
            read_fits();
            let pushed = push_spec_verdict(alloc, told, &spec, &input[spec.rest..]);
            drop(spec);
            pushed
        }
        Err(SpecFault::Bad { line, kind }) => {
            push_place(told, b"specification", line, kind.name())
        }
        Err(SpecFault::NoMemory) => Err(AllocError),
    }
}

/// Adds a specification as it is written again.
fn push_again(alloc: Global, told: &mut Text, spec: &SpecText) -> Result<(), AllocError> {
    let written = write_spec(alloc, spec)?;
    told.push_bytes(written.as_slice())
}

/// Adds the specification of an input as it is written again.
fn push_written(alloc: Global, told: &mut Text, input: &[u8]) -> Result<(), AllocError> {
    match read_spec(alloc, input) {
        Ok(spec) => {
            let pushed = push_again(alloc, told, &spec);
            drop(spec);
            pushed
        }
        Err(SpecFault::Bad { .. }) => told.push_bytes(b"nothing\n"),
        Err(SpecFault::NoMemory) => Err(AllocError),
    }
}

/// Adds the line of an entry, and the lines of its specification as it is written where the name says so. What has no line is none.
fn push_entry(alloc: Global, told: &mut Text, entry: &[u8]) -> Result<(), AllocError> {
    let Some((name, input)) = entry.split_once_str(b"\n") else {
        return Ok(());
    };
    told.push_bytes(name)?;
    told.push_bytes(b": ")?;
    push_verdict(alloc, told, input)?;
    told.push_bytes(b"\n")?;
    if name.starts_with(b"write ") {
        return push_written(alloc, told, input);
    }
    Ok(())
}

/// Adds the lines of all entries. What stands before the first mark is none.
pub fn push_inputs(alloc: Global, told: &mut Text, text: &[u8]) -> Result<(), AllocError> {
    for entry in text.split_str(MARK) {
        push_entry(alloc, told, entry)?;
    }
    Ok(())
}
