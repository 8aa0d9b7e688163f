//! Whole runs. Of each entry the words are run on the input, read in pieces of several sizes, and the status and what was written are
//! told; or, behind the word `faults`, how many reads and writes there are, each of which fails once; or, behind `fill` and a number, the
//! run on so many line feeds.
use crate::memory::{NEVER, push_outcome, sink_of, source_of, words_of};
use crate::once::{Outcome, run_alone};
use aw_list::Text;
use aw_out::MemSource;
use aw_run::{Status, Word};
use aw_spelling::{number_value, push_number};
use bstr::ByteSlice;
use std::alloc::{AllocError, Global};

/// What stands in front of an entry's name.
const MARK: &[u8] = b"=== ";

/// The most bytes that a sink takes, and more calls than any run makes.
const LIMIT: usize = 16_777_216;

/// In how many bytes an input is read and an output written where calls fail.
const READ: usize = 40;

const WRITTEN: usize = 10;

/// Runs the words on a source, where one write may fail.
fn run_on(
    alloc: Global,
    words: &[Word],
    src: &mut MemSource,
    write_fails: usize,
) -> Result<Outcome, AllocError> {
    let mut out = sink_of(alloc, LIMIT, WRITTEN, write_fails)?;
    let came = run_alone(alloc, words, src, &mut out);
    drop(out);
    came
}

/// Runs the words on an input that is read in pieces of so many bytes, where one read and one write may fail.
fn run_once(
    alloc: Global,
    words: &[Word],
    input: &[u8],
    piece: usize,
    read_fails: usize,
    write_fails: usize,
) -> Result<Outcome, AllocError> {
    let mut src = source_of(alloc, input, piece, read_fails)?;
    let came = run_on(alloc, words, &mut src, write_fails);
    drop(src);
    came
}

/// Whether the run is the same where the input is read in pieces of so many bytes.
fn is_same_in(
    alloc: Global,
    words: &[Word],
    input: &[u8],
    piece: usize,
    first: &Outcome,
) -> Result<bool, AllocError> {
    let other = run_once(alloc, words, input, piece, NEVER, NEVER)?;
    Ok(other.status == first.status && other.text.as_slice() == first.text.as_slice())
}

/// Adds the outcome of a run, and where it is another one in pieces of 40 bytes, 7 and 1.
fn push_pieces(
    alloc: Global,
    told: &mut Text,
    words: &[Word],
    input: &[u8],
    first: &Outcome,
) -> Result<(), AllocError> {
    push_outcome(told, first)?;
    for piece in [READ, 7, 1] {
        if !is_same_in(alloc, words, input, piece, first)? {
            told.push_bytes(b"otherwise in other pieces\n")?;
        }
    }
    Ok(())
}

/// Adds what is told of a run, read in pieces of 4,096 bytes, 40, 7 and 1.
fn push_run(
    alloc: Global,
    told: &mut Text,
    words: &[Word],
    input: &[u8],
) -> Result<(), AllocError> {
    let first = run_once(alloc, words, input, 4096, NEVER, NEVER)?;
    push_pieces(alloc, told, words, input, &first)
}

/// How many reads fail and are told, where each fails once: nothing is written then.
fn failed_reads(alloc: Global, words: &[Word], input: &[u8]) -> Result<u64, AllocError> {
    for call in 0..LIMIT {
        let came = run_once(alloc, words, input, READ, call, NEVER)?;
        if came.status != Status::ReadFault || came.text.len() > 0 {
            return Ok(call as u64);
        }
    }
    Ok(LIMIT as u64)
}

/// Whether a run tells that a write failed, and has written what comes before it.
fn is_cut(came: &Outcome, whole: &[u8], call: usize) -> bool {
    let front = whole.len().min(call.saturating_mul(WRITTEN));
    came.status == Status::WriteFault && came.text.as_slice() == &whole[..front]
}

/// How many writes fail and are told, where each fails once.
fn failed_writes(alloc: Global, words: &[Word], input: &[u8]) -> Result<u64, AllocError> {
    let whole = run_once(alloc, words, input, READ, NEVER, NEVER)?;
    for call in 0..LIMIT {
        let came = run_once(alloc, words, input, READ, NEVER, call)?;
        if !is_cut(&came, whole.text.as_slice(), call) {
            return Ok(call as u64);
        }
    }
    Ok(LIMIT as u64)
}

/// Adds how many reads and how many writes fail and are told.
fn push_faults(
    alloc: Global,
    told: &mut Text,
    words: &[Word],
    input: &[u8],
) -> Result<(), AllocError> {
    told.push_bytes(b"reads ")?;
    push_number(told, failed_reads(alloc, words, input)?)?;
    told.push_bytes(b" writes ")?;
    push_number(told, failed_writes(alloc, words, input)?)?;
    told.push_bytes(b"\n")
}

/// So many line feeds, of which there are at most one more than an input may have.
fn line_feeds(alloc: Global, count: &[u8]) -> Result<Text, AllocError> {
    let mut text = Text::new(alloc);
    for _ in 0..number_value(count).unwrap_or(0) {
        text.push(b'\n')?;
    }
    Ok(text)
}

/// Adds what is told of the words on so many line feeds.
fn push_filled(
    alloc: Global,
    told: &mut Text,
    words: &[Word],
    count: &[u8],
) -> Result<(), AllocError> {
    let input = line_feeds(alloc, count)?;
    let came = run_once(alloc, words, input.as_slice(), 4096, NEVER, NEVER)?;
    push_outcome(told, &came)
}

/// Adds what is told of the words `line` on an input.
fn push_verdict(
    alloc: Global,
    told: &mut Text,
    line: &[u8],
    input: &[u8],
) -> Result<(), AllocError> {
    match line.split_once_str(b" ") {
        Some((b"faults", words)) => {
            push_faults(alloc, told, words_of(alloc, words)?.as_slice(), input)
        }
        Some((b"fill", behind)) => {
            let Some((count, words)) = behind.split_once_str(b" ") else {
                return told.push_bytes(b"no words\n");
            };
            let words = words_of(alloc, words)?;
            push_filled(alloc, told, words.as_slice(), count)
        }
        _ => push_run(alloc, told, words_of(alloc, line)?.as_slice(), input),
    }
}

/// Adds an entry's name and what is told of it.
fn push_entry(alloc: Global, told: &mut Text, entry: &[u8]) -> Result<(), AllocError> {
    let Some((name, rest)) = entry.split_once_str(b"\n") else {
        return Ok(());
    };
    told.push_bytes(MARK)?;
    told.push_bytes(name)?;
    told.push_bytes(b"\n")?;
    match rest.split_once_str(b"\n") {
        Some((line, input)) => push_verdict(alloc, told, line, input),
        None => Ok(()),
    }
}

/// Adds the lines of all entries. What stands before the first mark is none.
pub fn push_runs(alloc: Global, told: &mut Text, text: &[u8]) -> Result<(), AllocError> {
    for entry in text.split_str(MARK) {
        push_entry(alloc, told, entry)?;
    }
    Ok(())
}
