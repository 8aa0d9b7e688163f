//! Words, inputs and outputs of runs over memory.
use crate::once::Outcome;
use aw_list::Text;
use aw_out::{Calls, MemSink, MemSource, Sizes};
use aw_run::{Status, Word};
use aw_spelling::push_number;
use bstr::ByteSlice;
use std::alloc::{AllocError, Global};

/// No call has this number.
pub const NEVER: usize = usize::MAX;

/// The words of a line.
pub fn words_of(alloc: Global, line: &[u8]) -> Result<Vec<Word>, AllocError> {
    let mut words = Vec::new(alloc);
    for word in line.fields() {
        words.push(Word::from_bytes(alloc, word)?)?;
    }
    Ok(words)
}

/// An input that is read in pieces of so many bytes, where one read may fail.
pub fn source_of(
    alloc: Global,
    input: &[u8],
    piece: usize,
    read_fails: usize,
) -> Result<MemSource, AllocError> {
    let pieces = Sizes::from_slice(alloc, &[piece.max(1)])?;
    let fails = Calls::from_slice(alloc, &[read_fails])?;
    Ok(MemSource::new(Text::from_bytes(alloc, input)?, pieces, fails))
}

/// Room for so many bytes of an output that is written in pieces of so many, where one write may fail.
pub fn sink_of(
    alloc: Global,
    room: usize,
    piece: usize,
    write_fails: usize,
) -> Result<MemSink, AllocError> {
    let pieces = Sizes::from_slice(alloc, &[piece.max(1)])?;
    let fails = Calls::from_slice(alloc, &[write_fails])?;
    MemSink::new(alloc, pieces, fails, room)
}

/// Adds the line of a status.
pub fn push_status(told: &mut Text, status: Status) -> Result<(), AllocError> {
    told.push_bytes(b"status ")?;
    push_number(told, u64::from(status.code()))?;
    told.push_bytes(b"\n")
}

/// Adds the status and what was written.
pub fn push_outcome(told: &mut Text, outcome: &Outcome) -> Result<(), AllocError> {
    push_status(told, outcome.status)?;
    told.push_bytes(outcome.text.as_slice())
}
