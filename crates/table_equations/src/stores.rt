//! Calls on two stores: the one that scans a list, and the one that finds names by their hashes. Each line of an
//! entry is a call, or asks for calls that are drawn. Both stores get each call, and what they answer is compared. What
//! stands in `stdout` is worked out by hand and, for the lines that are drawn and the longest entries, by a script that
//! knows nothing of the program; nothing in it comes from the program.
use crate::both::Both;
use crate::draws::Draws;
use crate::reading::{Asked, Reader};
use crate::told::{MARK, push_name};
use aw_list::Text;
use aw_term_reader::Unread;
use bstr::ByteSlice;
use std::alloc::{AllocError, Global};

/// Makes a call that is drawn.
fn draw_call(alloc: Global, both: &mut Both, draws: &mut Draws) -> Result<(), AllocError> {
    let call = draws.call(alloc)?;
    both.call(alloc, &call)
}

/// Makes so many calls that are drawn.
fn draw_calls(alloc: Global, both: &mut Both, count: u64, seed: u64) -> Result<(), AllocError> {
    let mut draws = Draws::new(seed);
    for _ in 0..count {
        draw_call(alloc, both, &mut draws)?;
    }
    Ok(())
}

/// Makes the calls that are asked for.
fn make_calls(alloc: Global, both: &mut Both, asked: &Asked) -> Result<(), AllocError> {
    match asked {
        Asked::Call(call) => both.call(alloc, call),
        Asked::Draw { count, seed } => draw_calls(alloc, both, *count, *seed),
    }
}

/// Makes the calls of a line.
fn run_line(
    alloc: Global,
    reader: &mut Reader,
    both: &mut Both,
    line: &[u8],
) -> Result<(), Unread> {
    let asked = reader.asked(alloc, line)?;
    let made = make_calls(alloc, both, &asked);
    drop(asked);
    Ok(made?)
}

/// Makes the calls of a line, or tells that it is not read.
fn push_line(
    alloc: Global,
    told: &mut Text,
    reader: &mut Reader,
    both: &mut Both,
    line: &[u8],
) -> Result<(), AllocError> {
    match run_line(alloc, reader, both, line) {
        Ok(()) => Ok(()),
        Err(Unread::NoMemory) => Err(AllocError),
        Err(Unread::Form) => {
            told.push_bytes(b"not read: ")?;
            told.push_bytes(line)?;
            told.push_bytes(b"\n")
        }
    }
}

/// Makes the calls of all lines, and tells what they came to.
fn push_lines(
    alloc: Global,
    told: &mut Text,
    reader: &mut Reader,
    both: &mut Both,
    input: &[u8],
) -> Result<(), AllocError> {
    for line in input.lines() {
        push_line(alloc, told, reader, both, line)?;
    }
    both.push_told(told)
}

/// Adds what lines come to on stores of their own.
fn push_both(alloc: Global, told: &mut Text, input: &[u8]) -> Result<(), AllocError> {
    let mut reader = Reader::new(alloc);
    let mut both = Both::new(alloc);
    let pushed = push_lines(alloc, told, &mut reader, &mut both, input);
    drop(both);
    pushed
}

/// Adds the name of an entry, and what its lines came to. What has no line is none.
fn push_entry(alloc: Global, told: &mut Text, entry: &[u8]) -> Result<(), AllocError> {
    let Some((name, input)) = entry.split_once_str(b"\n") else {
        return Ok(());
    };
    push_name(told, name)?;
    push_both(alloc, told, input)
}

/// Adds the lines of all entries. What stands before the first mark is none.
pub fn push_stores(alloc: Global, told: &mut Text, text: &[u8]) -> Result<(), AllocError> {
    for entry in text.split_str(MARK) {
        push_entry(alloc, told, entry)?;
    }
    Ok(())
}
