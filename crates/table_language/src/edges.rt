//! What is read and written whole, over objects that move pieces and fail.
use crate::words::{push_count, push_word};
use aw_list::Text;
use aw_out::{
    Calls, MemSink, MemSource, PrintFault, ReadError, Report, Sink, Sizes, Source, read_all,
    write_all,
};
use std::alloc::{AllocError, Global};

/// A source of five bytes, of which the first call moves one and each other one so many, where one call fails.
fn source_of(alloc: Global, piece: usize, fails: usize) -> Result<MemSource, AllocError> {
    let pieces = Sizes::from_slice(alloc, &[1, piece.max(1)])?;
    let fails = Calls::from_slice(alloc, &[fails])?;
    Ok(MemSource::new(Text::from_bytes(alloc, b"hello")?, pieces, fails))
}

/// How many bytes are read within a limit, or why they are not. It stands apart, over any source, since what `read_all` promises of one in
/// memory takes long to prove and is asked for by nobody here.
fn count_read<S: Source>(alloc: Global, src: &mut S, limit: usize) -> Result<usize, ReadError> {
    match read_all(alloc, src, limit) {
        Ok(text) => Ok(text.len()),
        Err(fault) => Err(fault),
    }
}

/// Adds how many bytes are read within a limit, or why they are not.
pub fn push_read(
    alloc: Global,
    told: &mut Text,
    piece: usize,
    fails: usize,
    limit: usize,
) -> Result<(), AllocError> {
    let mut src = source_of(alloc, piece, fails)?;
    match count_read(alloc, &mut src, limit) {
        Ok(count) => push_count(told, count as u64),
        Err(ReadError::TooLong) => push_word(told, b"too long"),
        Err(ReadError::ReadFault) => push_word(told, b"read fault"),
        Err(ReadError::NoMemory) => Err(AllocError),
    }
}

/// A sink with so much room that takes one byte and then two at a time, where one call fails.
fn sink_of(alloc: Global, fails: usize, room: usize) -> Result<MemSink, AllocError> {
    let pieces = Sizes::from_slice(alloc, &[1, 2])?;
    let fails = Calls::from_slice(alloc, &[fails])?;
    MemSink::new(alloc, pieces, fails, room)
}

/// Whether five bytes are written whole. It stands apart, over any sink.
fn is_written<K: Sink>(out: &mut K) -> bool {
    write_all(out, b"hello").is_ok()
}

/// Adds whether five bytes are written whole, and what was written.
pub fn push_written(
    alloc: Global,
    told: &mut Text,
    fails: usize,
    room: usize,
) -> Result<(), AllocError> {
    let mut out = sink_of(alloc, fails, room)?;
    let word: &[u8] = if is_written(&mut out) {
        b"whole"
    } else {
        b"write fault"
    };
    push_word(told, word)?;
    push_word(told, out.written())
}

/// Adds bytes to a report, and tells whether it took them.
fn push_to(told: &mut Text, report: &mut Report, bytes: &[u8]) -> Result<(), AllocError> {
    match report.push(bytes) {
        Ok(()) => push_word(told, b"taken"),
        Err(PrintFault::TooLarge) => push_word(told, b"too large"),
        Err(PrintFault::NoMemory) => Err(AllocError),
    }
}

/// Adds what a report takes, one after the other, and what it has then.
fn push_taken(told: &mut Text, report: &mut Report) -> Result<(), AllocError> {
    push_to(told, report, b"012345")?;
    push_to(told, report, b"6789")?;
    push_to(told, report, b"a")?;
    push_to(told, report, b"")?;
    push_word(told, report.bytes())
}

/// Adds what a report of so many bytes takes, and how many bytes it has then.
pub fn push_report(alloc: Global, told: &mut Text, limit: usize) -> Result<(), AllocError> {
    let mut report = Report::new(alloc, limit);
    push_taken(told, &mut report)?;
    push_count(told, report.into_text().len() as u64)
}
