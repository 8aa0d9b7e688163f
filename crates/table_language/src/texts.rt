//! Names, numbers, texts and tokens, and what is read and written whole. Each line is a word and what it is about, and behind it stands
//! what came of it. Bytes are written in hexadecimal.
use crate::edges::{push_read, push_report, push_written};
use crate::lexed::{push_line, push_passed_over, push_tokens};
use crate::spelled::{
    push_content, push_cut, push_end, push_length, push_name, push_node, push_text,
};
use crate::wire::push_sessions;
use aw_list::Text;
use aw_spelling::cut_at;
use bstr::ByteSlice;
use std::alloc::Global;
use table_common::{TableFault, bytes_of, numbers_of};

/// Adds what is told of bytes that are tokens or lines.
fn push_lexed(alloc: Global, told: &mut Text, word: &[u8], bytes: &[u8]) -> Result<(), TableFault> {
    match word {
        b"tokens" => Ok(push_tokens(alloc, told, bytes)?),
        b"line" => Ok(push_line(alloc, told, bytes)?),
        b"over" => Ok(push_passed_over(told, bytes)?),
        _ => Err(TableFault::Unreadable),
    }
}

/// Adds what is told of bytes.
fn push_spelled(
    alloc: Global,
    told: &mut Text,
    word: &[u8],
    bytes: &[u8],
) -> Result<(), TableFault> {
    match word {
        b"name" => Ok(push_name(told, bytes)?),
        b"length" => Ok(push_length(told, bytes)?),
        b"text" => Ok(push_text(alloc, told, bytes)?),
        b"end" => Ok(push_end(told, bytes)?),
        b"content" => Ok(push_content(told, bytes)?),
        b"cut" => Ok(push_cut(alloc, told, bytes)?),
        b"node" => Ok(push_node(told, bytes)?),
        _ => push_lexed(alloc, told, word, bytes),
    }
}

/// Adds what is told of a source, a sink or a report that numbers describe.
fn push_edge(
    alloc: Global,
    told: &mut Text,
    word: &[u8],
    numbers: &[usize],
) -> Result<(), TableFault> {
    match (word, numbers) {
        (b"read", [piece, fails, limit]) => Ok(push_read(alloc, told, *piece, *fails, *limit)?),
        (b"write", [fails, room]) => Ok(push_written(alloc, told, *fails, *room)?),
        (b"report", [limit]) => Ok(push_report(alloc, told, *limit)?),
        _ => Err(TableFault::Unreadable),
    }
}

/// Adds what is told of an edge, or of bytes.
fn push_told(alloc: Global, told: &mut Text, word: &[u8], rest: &[u8]) -> Result<(), TableFault> {
    if let Some((b"edge", kind)) = cut_at(word, b'-') {
        let numbers = numbers_of(alloc, rest)?;
        return push_edge(alloc, told, kind, numbers.as_slice());
    }
    let bytes = bytes_of(alloc, rest)?;
    push_spelled(alloc, told, word, bytes.as_slice())
}

/// Adds a line and what is told of it.
fn push_entry(alloc: Global, told: &mut Text, line: &[u8]) -> Result<(), TableFault> {
    told.push_bytes(line)?;
    told.push_bytes(b":")?;
    match cut_at(line, b' ') {
        Some((word, rest)) => push_told(alloc, told, word, rest)?,
        None => push_sessions(alloc, told)?,
    }
    Ok(told.push_bytes(b"\n")?)
}

/// Adds all lines.
pub fn push_texts(alloc: Global, told: &mut Text, text: &[u8]) -> Result<(), TableFault> {
    for line in text.lines() {
        push_entry(alloc, told, line)?;
    }
    Ok(())
}
