//! A table of bytes, in three parts, each behind a line with its name: `frames`, sessions, messages, choices and replies, of each of which it
//! is told what is read, or what is written; `journals`, the files of
//! kept nodes; and `long journals`, such files that are read in more than one piece. With the words `count SIZE` it is told only how many
//! requests of each kind the bytes of one session are, fed in pieces of that size. What stands in `stdin` and `stdout` was made from the
//! stated formats; nothing in it comes from the program.
#![tactic(auto)]

mod count;
mod fault;
mod fields;
mod frames;
mod images;
mod journals;
mod long;
mod replies;
mod session;
mod standings;
mod values;
mod worked;

use aw_list::Text;
use aw_spelling::number_value;
use bstr::ByteSlice;
use count::push_counts;
use frames::push_frames;
use journals::push_journals;
use long::push_long;
use standings::push_standings;
use std::alloc::Global;
use std::process::ExitCode;
use std::rt::Env;
use std::{env, io};
use table_common::{TableFault, input_of, tell};

/// What stands in front of a part's name.
const PART: &[u8] = b"+++ ";

/// Adds what is told of the part of this name.
fn push_told(alloc: Global, told: &mut Text, name: &[u8], text: &[u8]) -> Result<(), TableFault> {
    match name {
        b"frames" => Ok(push_frames(alloc, told, text)?),
        b"journals" => Ok(push_journals(alloc, told, text)?),
        b"long journals" => Ok(push_long(alloc, told, text)?),
        b"records" => Ok(push_standings(alloc, told, text)?),
        _ => Err(TableFault::Unreadable),
    }
}

/// Adds a part's name and what is told of it. What has no line is none.
fn push_part(alloc: Global, told: &mut Text, part: &[u8]) -> Result<(), TableFault> {
    let Some((name, text)) = part.split_once_str(b"\n") else {
        return Ok(());
    };
    told.push_bytes(PART)?;
    told.push_bytes(name)?;
    told.push_bytes(b"\n")?;
    push_told(alloc, told, name, text)
}

/// Adds what is told of all parts. What stands before the first one is none.
fn push_parts(alloc: Global, told: &mut Text, text: &[u8]) -> Result<(), TableFault> {
    for part in text.split_str(PART) {
        push_part(alloc, told, part)?;
    }
    Ok(())
}

/// What is told of all parts.
fn table(alloc: Global, text: &[u8]) -> Result<Text, TableFault> {
    let mut told = Text::new(alloc);
    push_parts(alloc, &mut told, text)?;
    Ok(told)
}

/// The size of the pieces, where the words ask for a count.
fn counted_size<R: Env + AllocGlobal>(rt: &R) -> io::Result<Option<u64>> {
    let mut words = env::args(rt)?.skip(1);
    let Some(count) = words.next() else {
        return Ok(None);
    };
    if count.as_str() != "count" {
        return Ok(None);
    }
    match words.next() {
        Some(size) => Ok(number_value(size.as_bytes())),
        None => Ok(None),
    }
}

/// What is told of the input.
fn told<R: Env + AllocGlobal>(rt: &R, input: &[u8]) -> Result<Text, TableFault> {
    match counted_size(rt) {
        Ok(Some(size)) => push_counts(rt.alloc(), input, size as usize),
        Ok(None) => table(rt.alloc(), input),
        Err(_) => Err(TableFault::NoMemory),
    }
}

fn main(rt: HostRuntime) -> ExitCode {
    match input_of(&rt) {
        Ok(input) => tell(&rt, told(&rt, input.as_slice())),
        Err(status) => status,
    }
}
