//! Couriers between the sites of all roles in one process. The part has entries: each has a mark and its name, a specification, and behind it
//! what is done, a line for each step: what the site of a role is asked in a session, or for how many rounds a courier carries. It is told what
//! was replied, what the courier wrote in each session and what it answered, and at the end how often the wire starved.
ghost use Rattle.std.specs.Prelude.{◌≡◌, true};
ghost use Rattle.aw_grammar.specs.GrammarOf.{grammar_of};
ghost use Rattle.aw_typed.specs.Typing.{IsMadeFor};

use crate::carried::carry_over;
use crate::given::given_of;
use crate::offices::offices_of;
use crate::steps::{Step, read_step};
use crate::told::{MARK, line_of, push_answer, push_count, push_hex, push_name};
use crate::whole::{read_whole, write_whole};
use aw_accept::Accepted;
use aw_desk_wire::{DeskWire, SiteWire};
use aw_list::Text;
use aw_out::{Dialed, Wire};
use aw_typed::Typed;
use bstr::ByteSlice;
use std::alloc::{AllocError, Global};
use table_common::TableFault;

/// What stands between a specification and what is done.
const DONE: &[u8] = b"--\n";

/// The most roles of a specification.
const ROLES: u16 = 64;

/// What is replied to these bytes in the session that is open.
fn replies_to<W: Wire>(alloc: Global, wire: &mut W, bytes: &[u8]) -> Result<Text, TableFault>
    requires { W.is_open wire.old ≡ true }
{
    if !write_whole(wire, bytes) {
        return Err(TableFault::NoMemory);
    }
    match read_whole(alloc, wire) {
        Ok(Some(replies)) => Ok(replies),
        Ok(None) | Err(AllocError) => Err(TableFault::NoMemory),
    }
}

/// What is replied to these bytes in a session of their own with the role of this number.
fn ask<W: Wire>(alloc: Global, wire: &mut W, role: u16, bytes: &[u8]) -> Result<Text, TableFault> {
    if role >= ROLES {
        return Err(TableFault::Unreadable);
    }
    match wire.dial(role) {
        Dialed::Opened => replies_to(alloc, wire, bytes),
        Dialed::Failed => Err(TableFault::NoMemory),
    }
}

/// Asks the site of a role, and tells what it replies.
fn push_asked(
    alloc: Global,
    told: &mut Text,
    wire: &mut SiteWire<'_>,
    role: u16,
    bytes: &[u8],
) -> Result<(), TableFault> {
    let read = ask(alloc, wire, role, bytes)?;
    Ok(push_hex(alloc, told, b"read", read.as_slice())?)
}

/// Lets a courier carry, and tells what it wrote in each session and what it answered.
fn push_carried(
    alloc: Global,
    told: &mut Text,
    g: &Accepted,
    wire: &mut SiteWire<'_>,
    rounds: u64,
) -> Result<(), AllocError> {
    let before = wire.passed();
    let answer = carry_over(alloc, g, wire, rounds);
    for session in before..wire.passed() {
        push_hex(alloc, told, b"written", wire.written(session))?;
    }
    push_answer(told, answer)
}

/// Does the step that a line spells, and tells what came of it.
fn push_step(
    alloc: Global,
    told: &mut Text,
    g: &Accepted,
    wire: &mut SiteWire<'_>,
    line: &[u8],
) -> Result<(), TableFault> {
    match read_step(alloc, line)? {
        Step::Ask { role, bytes } => push_asked(alloc, told, wire, role, bytes.as_slice()),
        Step::Carry { rounds } => Ok(push_carried(alloc, told, g, wire, rounds)?),
    }
}

/// Does all steps in order.
fn push_steps(
    alloc: Global,
    told: &mut Text,
    g: &Accepted,
    wire: &mut SiteWire<'_>,
    lines: &[u8],
) -> Result<(), TableFault> {
    for line in lines.lines() {
        push_step(alloc, told, g, wire, line)?;
    }
    Ok(push_count(told, b"starved", wire.starved())?)
}

/// Does all steps in order, at offices that hold nothing at first.
fn push_done(
    alloc: Global,
    told: &mut Text,
    g: &Accepted,
    t: &Typed,
    lines: &[u8],
) -> Result<(), TableFault>
    requires { IsMadeFor (grammar_of g.now.grammar) t.now }
{
    let mut wire = DeskWire::new(alloc, offices_of(alloc, g, t)?);
    let pushed = push_steps(alloc, told, g, &mut wire, lines);
    drop(wire);
    pushed
}

/// Adds what is told of an entry: the text of a specification, and the lines of what is done.
fn push_told(
    alloc: Global,
    told: &mut Text,
    declared: &[u8],
    lines: &[u8],
) -> Result<(), TableFault> {
    let given = given_of(alloc, declared)?;
    let pushed = push_done(alloc, told, &given.accepted, &given.typed, lines);
    drop(given);
    pushed
}

/// Adds an entry's name and what is told of it.
fn push_entry(alloc: Global, told: &mut Text, entry: &[u8]) -> Result<(), TableFault> {
    let (name, rest) = line_of(entry)?;
    let Some((declared, lines)) = rest.split_once_str(DONE) else {
        return Err(TableFault::Unreadable);
    };
    push_name(told, name)?;
    push_told(alloc, told, declared, lines)
}

/// Adds what is told of all entries of the part, which begins with the first one's mark.
pub fn push_rounds(alloc: Global, told: &mut Text, text: &[u8]) -> Result<(), TableFault> {
    let Some((b"", entries)) = text.split_once_str(MARK) else {
        return Err(TableFault::Unreadable);
    };
    for entry in entries.split_str(MARK) {
        push_entry(alloc, told, entry)?;
    }
    Ok(())
}
