//! Thirty thousand cases of two roles, each of which sends a task to the other role, and all 180,000 messages delivered one after the
//! other. Told is the status, the last line that `settled` begins, the line of the artifacts, and whether the artifacts are byte for byte
//! those that the undivided run writes of the same choices.
use crate::memory::{NEVER, push_status, sink_of, source_of, words_of};
use crate::once::{Outcome, run_alone};
use crate::session::SPECIFICATION;
use aw_list::Text;
use aw_out::{MemSource, OUTPUT_LIMIT};
use aw_run::Word;
use aw_spelling::push_number;
use bstr::ByteSlice;
use std::alloc::{AllocError, Global};

/// How many cases there are.
const CASES: u64 = 30_000;

/// In how many bytes an input is read and an output written.
const PIECE: usize = 4096;

/// Adds the start of a case and its choice.
fn push_case(text: &mut Text, case: u64) -> Result<(), AllocError> {
    text.push_bytes(b"start visit ")?;
    push_number(text, case)?;
    text.push_bytes(b"\nchoose visit#")?;
    push_number(text, case)?;
    text.push_bytes(b" admit {\"Ada\"}\n")
}

/// The specification, the starts and choices of all cases, and a settling.
fn input(alloc: Global) -> Result<Text, AllocError> {
    let mut text = Text::from_bytes(alloc, SPECIFICATION)?;
    text.push_bytes(b"schedule\n")?;
    for case in 0..CASES {
        push_case(&mut text, case)?;
    }
    text.push_bytes(b"settle\n")?;
    Ok(text)
}

/// Runs words on a source.
fn run_on(alloc: Global, words: &[Word], src: &mut MemSource) -> Result<Outcome, AllocError> {
    let mut out = sink_of(alloc, OUTPUT_LIMIT, PIECE, NEVER)?;
    let came = run_alone(alloc, words, src, &mut out);
    drop(out);
    came
}

/// Runs words on an input.
fn run_words(alloc: Global, words: &[Word], input: &[u8]) -> Result<Outcome, AllocError> {
    let mut src = source_of(alloc, input, PIECE, NEVER)?;
    let came = run_on(alloc, words, &mut src);
    drop(src);
    came
}

/// Runs one word on an input.
fn run_word(alloc: Global, word: &[u8], input: &[u8]) -> Result<Outcome, AllocError> {
    let words = words_of(alloc, word)?;
    run_words(alloc, words.as_slice(), input)
}

/// The text from the last line on that these bytes begin.
fn from_last<'a>(text: &'a [u8], begin: &[u8]) -> &'a [u8] {
    match text.rsplit_once_str(begin) {
        Some((_, behind)) => behind,
        None => b"",
    }
}

/// Adds these bytes and the rest of the line.
fn push_line(told: &mut Text, begin: &[u8], behind: &[u8]) -> Result<(), AllocError> {
    let (front, _) = behind.split_once_str(b"\n").unwrap_or((behind, b""));
    told.push_bytes(begin)?;
    told.push_bytes(front)?;
    told.push_bytes(b"\n")
}

/// Adds what is told of the text that a replay wrote, beside the text of the undivided run.
fn push_both(told: &mut Text, replayed: &[u8], undivided: &[u8]) -> Result<(), AllocError> {
    let artifacts = from_last(replayed, b"artifacts ");
    push_line(told, b"settled ", from_last(replayed, b"settled "))?;
    push_line(told, b"artifacts ", artifacts)?;
    if artifacts == from_last(undivided, b"artifacts ") {
        told.push_bytes(b"the artifacts of the undivided run\n")?;
    }
    Ok(())
}

/// Adds what is told of both runs.
fn push_told(told: &mut Text, replayed: &Outcome, undivided: &Outcome) -> Result<(), AllocError> {
    push_status(told, replayed.status)?;
    push_both(told, replayed.text.as_slice(), undivided.text.as_slice())
}

/// Adds what is told of both runs, of which the first is done.
fn push_beside(
    alloc: Global,
    told: &mut Text,
    input: &[u8],
    replayed: &Outcome,
) -> Result<(), AllocError> {
    let undivided = run_word(alloc, b"plain", input)?;
    push_told(told, replayed, &undivided)
}

/// Adds what is told of both runs on an input.
fn push_compared(alloc: Global, told: &mut Text, input: &[u8]) -> Result<(), AllocError> {
    let replayed = run_word(alloc, b"replay", input)?;
    push_beside(alloc, told, input, &replayed)
}

/// Adds what is told of both runs.
pub fn push_posts(alloc: Global, told: &mut Text) -> Result<(), AllocError> {
    let input = input(alloc)?;
    push_compared(alloc, told, input.as_slice())
}
