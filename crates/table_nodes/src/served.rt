//! Sessions at the node of one role, over a wire in memory. The part begins with a specification, and behind it stand entries: each has a
//! mark and its name, a line of numbers that say how the node is asked, and the bytes of its sessions in hexadecimal. Of each session it is
//! told what the node wrote, how many requests it answered, and how it ended. Each case is served by two nodes, over the two stores of
//! equations, and told once where both tell the same.
ghost use Rattle.std.specs.Prelude.{◌<◌};
ghost use Rattle.aw_grammar.specs.GrammarOf.{grammar_of};
ghost use Rattle.aw_typed.specs.Typing.{IsMadeFor};

use crate::given::given_of;
use crate::memory::wire_of;
use crate::told::{MARK, entries_of, line_of, push_hex, push_name, push_session};
use aw_accept::Accepted;
use aw_list::Text;
use aw_net::MemWire;
use aw_node::{ServeFault, serve, serve_workspace};
use aw_out::Wire;
use aw_session::Log;
use aw_site::Site;
use aw_store::ListFacts;
use aw_typed::Typed;
use bstr::ByteSlice;
use std::alloc::{AllocError, Global};
use table_common::{TableFault, numbers_of};

/// How a node is asked: its role, how many sessions it serves, the most bytes that one call moves, the numbers of the calls that fail, and the
/// sessions that come, in hexadecimal.
#[derive(Clone, Copy)]
struct Case<'a> {
    role: u16,
    sessions: u32,
    piece: usize,
    fails: &'a [usize],
    bytes: &'a [u8],
}

/// The case of a line of numbers: the role, how many sessions are served, the most bytes of a piece, and the numbers of the calls that fail.
fn case_of<'a>(numbers: &'a [usize], bytes: &'a [u8]) -> Result<Case<'a>, TableFault> {
    let &[role, sessions, piece, ref fails @ ..] = numbers else {
        return Err(TableFault::Unreadable);
    };
    let (Ok(role), Ok(sessions)) = (u16::try_from(role), u32::try_from(sessions)) else {
        return Err(TableFault::Unreadable);
    };
    Ok(Case {
        role,
        sessions,
        piece,
        fails,
        bytes,
    })
}

/// Adds what is told of each session.
fn push_log(alloc: Global, told: &mut Text, wire: &MemWire, log: &Log) -> Result<(), AllocError> {
    for number in 0..log.len() {
        if number < wire.passed() {
            push_hex(alloc, told, b"written", wire.written(number))?;
        }
        push_session(told, number + 1, *log.at(number))?;
    }
    Ok(())
}

/// Adds what is told of a case, or that a session could not be opened.
fn push_answer(
    alloc: Global,
    told: &mut Text,
    wire: &MemWire,
    served: Result<Log, ServeFault>,
) -> Result<(), TableFault> {
    match served {
        Ok(log) => Ok(push_log(alloc, told, wire, &log)?),
        Err(ServeFault::NetFault) => Ok(told.push_bytes(b"net fault\n")?),
        Err(ServeFault::NoMemory) => Err(TableFault::NoMemory),
    }
}

/// What is told of a case, or that a session could not be opened.
fn told_of(
    alloc: Global,
    wire: &MemWire,
    served: Result<Log, ServeFault>,
) -> Result<Text, TableFault> {
    let mut told = Text::new(alloc);
    push_answer(alloc, &mut told, wire, served)?;
    Ok(told)
}

/// Serves sessions at a node as the program does: its store finds references by hashes. It stands apart, over any wire, since what `serve`
/// promises of a wire in memory takes long to prove and is asked for by nobody here.
fn serve_by_cells<W: Wire>(
    alloc: Global,
    g: &Accepted,
    t: &Typed,
    role: u16,
    sessions: u32,
    wire: &mut W,
) -> Result<Log, ServeFault>
    requires role { role < (grammar_of g.now.grammar).roles }
    requires types { IsMadeFor (grammar_of g.now.grammar) t.now }
{
    serve(alloc, g, t, role, sessions, wire)
}

/// Serves sessions at a node whose store scans a list.
fn serve_by_list<W: Wire>(
    alloc: Global,
    g: &Accepted,
    t: &Typed,
    role: u16,
    sessions: u32,
    wire: &mut W,
) -> Result<Log, ServeFault>
    requires role { role < 64 }
    requires types { IsMadeFor (grammar_of g.now.grammar) t.now }
{
    let site = Site::new(alloc, g, role, ListFacts::new(alloc), true);
    serve_workspace(alloc, g, t, site, role, sessions, wire)
}

/// What is told of a case at a node as the program serves it.
fn told_by_cells(alloc: Global, g: &Accepted, t: &Typed, case: Case<'_>) -> Result<Text, TableFault>
    requires { IsMadeFor (grammar_of g.now.grammar) t.now }
{
    let role = case.role;
    if usize::from(role) >= g.grammar().roles.len() {
        return Err(TableFault::Unreadable);
    }
    let mut wire = wire_of(alloc, case.piece, case.fails, case.bytes)?;
    let served = serve_by_cells(alloc, g, t, role, case.sessions, &mut wire);
    let told = told_of(alloc, &wire, served);
    drop(wire);
    told
}

/// What is told of a case at a node whose store scans a list.
fn told_by_list(alloc: Global, g: &Accepted, t: &Typed, case: Case<'_>) -> Result<Text, TableFault>
    requires { IsMadeFor (grammar_of g.now.grammar) t.now }
{
    let role = case.role;
    if role >= 64 {
        return Err(TableFault::Unreadable);
    }
    let mut wire = wire_of(alloc, case.piece, case.fails, case.bytes)?;
    let served = serve_by_list(alloc, g, t, role, case.sessions, &mut wire);
    let told = told_of(alloc, &wire, served);
    drop(wire);
    told
}

/// Adds what is told of a case over both stores: once where they tell the same.
fn push_both(told: &mut Text, by_cells: &Text, by_list: &Text) -> Result<(), AllocError> {
    told.push_bytes(by_cells.as_slice())?;
    if by_cells == by_list {
        return Ok(());
    }
    told.push_bytes(b"over a list\n")?;
    told.push_bytes(by_list.as_slice())
}

/// Adds what is told of a case.
fn push_case(
    alloc: Global,
    told: &mut Text,
    g: &Accepted,
    t: &Typed,
    case: Case<'_>,
) -> Result<(), TableFault>
    requires { IsMadeFor (grammar_of g.now.grammar) t.now }
{
    let by_cells = told_by_cells(alloc, g, t, case)?;
    let by_list = told_by_list(alloc, g, t, case)?;
    Ok(push_both(told, &by_cells, &by_list)?)
}

/// Adds a case's name and what is told of it.
fn push_entry(
    alloc: Global,
    told: &mut Text,
    g: &Accepted,
    t: &Typed,
    entry: &[u8],
) -> Result<(), TableFault>
    requires { IsMadeFor (grammar_of g.now.grammar) t.now }
{
    let (name, rest) = line_of(entry)?;
    let (line, bytes) = line_of(rest)?;
    push_name(told, name)?;
    let numbers = numbers_of(alloc, line)?;
    push_case(alloc, told, g, t, case_of(numbers.as_slice(), bytes)?)
}

/// Adds what is told of all cases.
fn push_entries(
    alloc: Global,
    told: &mut Text,
    g: &Accepted,
    t: &Typed,
    entries: &[u8],
) -> Result<(), TableFault>
    requires { IsMadeFor (grammar_of g.now.grammar) t.now }
{
    for entry in entries.split_str(MARK) {
        push_entry(alloc, told, g, t, entry)?;
    }
    Ok(())
}

/// Adds what is told of the cases behind a specification.
pub fn push_served(alloc: Global, told: &mut Text, text: &[u8]) -> Result<(), TableFault> {
    let (declared, entries) = entries_of(text)?;
    let given = given_of(alloc, declared)?;
    let pushed = push_entries(alloc, told, &given.accepted, &given.typed, entries);
    drop(given);
    pushed
}
