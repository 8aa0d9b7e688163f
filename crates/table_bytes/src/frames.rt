//! Sessions, messages, choices and replies as bytes: a specification, and behind it entries, each with a mark and its name, its form, and its bytes in hexadecimal or its
//! replies in words.
use crate::fault::EntryFault;
use crate::replies::push_replies;
use crate::session::push_session;
use crate::values::{push_decoded, push_decoded_choice};
use aw_base::Grammar;
use aw_list::Text;
use aw_spec::read_spec;
use aw_spelling::number_value;
use bstr::ByteSlice;
use std::alloc::Global;
use table_common::bytes_of;

/// What stands in front of an entry's name.
const MARK: &[u8] = b"=== ";

/// The size of pieces that a word names: a number, or `whole`.
fn size_of(word: &[u8], whole: usize) -> Result<usize, EntryFault> {
    if word == b"whole".as_slice() {
        return Ok(whole);
    }
    match number_value(word) {
        Some(size) => Ok(size as usize),
        None => Err(EntryFault::Unreadable),
    }
}

/// Adds what is answered to a session in pieces of the size that a word names.
fn push_pieces(
    alloc: Global,
    told: &mut Text,
    bytes: &[u8],
    word: &[u8],
) -> Result<(), EntryFault> {
    told.push_bytes(b"pieces ")?;
    told.push_bytes(word)?;
    told.push_bytes(b"\n")?;
    let size = size_of(word, bytes.len())?;
    Ok(push_session(alloc, told, bytes, size)?)
}

/// Adds what is answered to a session, for each size of pieces.
fn push_sessions(
    alloc: Global,
    told: &mut Text,
    bytes: &[u8],
    sizes: &[u8],
) -> Result<(), EntryFault> {
    for word in sizes.split_str(b" ") {
        push_pieces(alloc, told, bytes, word)?;
    }
    Ok(())
}

/// Adds what is told of bytes of this form.
fn push_form(alloc: Global, told: &mut Text, form: &[u8], bytes: &[u8]) -> Result<(), EntryFault> {
    if form == b"message".as_slice() {
        return push_decoded(alloc, told, bytes);
    }
    if form == b"choice".as_slice() {
        return push_decoded_choice(alloc, told, bytes);
    }
    match form.split_once_str(b" ") {
        Some((word, sizes)) if word == b"session".as_slice() => {
            push_sessions(alloc, told, bytes, sizes)
        }
        _ => Err(EntryFault::Unreadable),
    }
}

/// Adds what is told of an entry of this form.
fn push_told(
    alloc: Global,
    told: &mut Text,
    g: &Grammar,
    form: &[u8],
    rest: &[u8],
) -> Result<(), EntryFault> {
    if form == b"replies".as_slice() {
        return push_replies(alloc, told, g, rest);
    }
    let bytes = bytes_of(alloc, rest)?;
    push_form(alloc, told, form, bytes.as_slice())
}

/// Adds an entry's name and what is told of it.
fn push_entry(alloc: Global, told: &mut Text, g: &Grammar, entry: &[u8]) -> Result<(), EntryFault> {
    let Some((name, rest)) = entry.split_once_str(b"\n") else {
        return Err(EntryFault::Unreadable);
    };
    let Some((form, rest)) = rest.split_once_str(b"\n") else {
        return Err(EntryFault::Unreadable);
    };
    told.push_bytes(MARK)?;
    told.push_bytes(name)?;
    told.push_bytes(b"\n")?;
    push_told(alloc, told, g, form, rest)
}

/// Adds what is told of entries.
fn push_entries(
    alloc: Global,
    told: &mut Text,
    g: &Grammar,
    entries: &[u8],
) -> Result<(), EntryFault> {
    for entry in entries.split_str(MARK) {
        push_entry(alloc, told, g, entry)?;
    }
    Ok(())
}

/// Adds what is told of all entries. Replies name what the specification before the first mark declares.
pub fn push_frames(alloc: Global, told: &mut Text, text: &[u8]) -> Result<(), EntryFault> {
    let Some((declared, entries)) = text.split_once_str(MARK) else {
        return Err(EntryFault::Unreadable);
    };
    match read_spec(alloc, declared) {
        Ok(spec) => {
            let pushed = push_entries(alloc, told, &spec.grammar, entries);
            drop(spec);
            pushed
        }
        Err(_) => Err(EntryFault::Unreadable),
    }
}
