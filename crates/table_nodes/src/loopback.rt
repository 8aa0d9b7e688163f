//! A node that serves over this machine's sockets, and is asked by the same process. All is done in one thread: a peer writes all that it
//! asks, then the node serves it, and then the peer reads the replies. The part begins with a specification, and behind it stand entries: each
//! has a mark and its name, and a line for each session with its bytes in hexadecimal. Of each session it is told what the peer read, how many
//! requests the node answered, and how it ended.
ghost use Rattle.aw_grammar.specs.GrammarOf.{grammar_of};
ghost use Rattle.aw_typed.specs.Typing.{IsMadeFor};

use crate::entry::{Entry, read_entry};
use crate::given::given_of;
use crate::sockets::{Served, ServedFault, serve_entry};
use crate::told::{MARK, entries_of, line_of, push_hex, push_name, push_session};
use aw_accept::Accepted;
use aw_list::Text;
use aw_out::Texts;
use aw_session::Log;
use aw_typed::Typed;
use bstr::ByteSlice;
use std::alloc::{AllocError, Global};
use std::net::Net;
use std::rt::Clock;
use table_common::TableFault;

/// Adds what each peer read.
fn push_replies(alloc: Global, told: &mut Text, replies: &Texts) -> Result<(), AllocError> {
    for read in replies.as_slice() {
        push_hex(alloc, told, b"read", read.as_slice())?;
    }
    Ok(())
}

/// Adds how each session went.
fn push_log(told: &mut Text, log: &Log) -> Result<(), AllocError> {
    for number in 0..log.len() {
        push_session(told, number + 1, *log.at(number))?;
    }
    Ok(())
}

/// Adds what is told of each session.
fn push_sessions(alloc: Global, told: &mut Text, served: &Served) -> Result<(), AllocError> {
    push_replies(alloc, told, &served.replies)?;
    push_log(told, &served.log)
}

/// Adds what is told of an entry.
fn push_served<R: Net + Clock>(
    alloc: Global,
    rt: &R,
    told: &mut Text,
    g: &Accepted,
    t: &Typed,
    entry: &Entry,
) -> Result<(), TableFault>
    requires { IsMadeFor (grammar_of g.now.grammar) t.now }
{
    match serve_entry(alloc, rt, g, t, entry) {
        Ok(served) => Ok(push_sessions(alloc, told, &served)?),
        Err(ServedFault::Peer) => Ok(told.push_bytes(b"peer fault\n")?),
        Err(ServedFault::Net) => Ok(told.push_bytes(b"net fault\n")?),
        Err(ServedFault::NoMemory) => Err(TableFault::NoMemory),
    }
}

/// Adds an entry's name and what is told of it.
fn push_entry<R: Net + Clock>(
    alloc: Global,
    rt: &R,
    told: &mut Text,
    g: &Accepted,
    t: &Typed,
    text: &[u8],
) -> Result<(), TableFault>
    requires { IsMadeFor (grammar_of g.now.grammar) t.now }
{
    let (name, lines) = line_of(text)?;
    push_name(told, name)?;
    let entry = read_entry(alloc, lines)?;
    push_served(alloc, rt, told, g, t, &entry)
}

/// Adds what is told of all entries.
fn push_entries<R: Net + Clock>(
    alloc: Global,
    rt: &R,
    told: &mut Text,
    g: &Accepted,
    t: &Typed,
    entries: &[u8],
) -> Result<(), TableFault>
    requires { IsMadeFor (grammar_of g.now.grammar) t.now }
{
    for entry in entries.split_str(MARK) {
        push_entry(alloc, rt, told, g, t, entry)?;
    }
    Ok(())
}

/// Adds what is told of the entries behind a specification.
pub fn push_loopback<R: Net + Clock>(
    alloc: Global,
    rt: &R,
    told: &mut Text,
    text: &[u8],
) -> Result<(), TableFault> {
    let (declared, entries) = entries_of(text)?;
    let given = given_of(alloc, declared)?;
    let pushed = push_entries(alloc, rt, told, &given.accepted, &given.typed, entries);
    drop(given);
    pushed
}
