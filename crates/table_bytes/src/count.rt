//! How many requests of each kind a session has.
use aw_list::Text;
use aw_msg::{Frame, FrameReader, Next};
use aw_spelling::push_number;
use std::alloc::{AllocError, Global};
use table_common::TableFault;

/// How many requests of each kind came, and whether the last answer was `Bad`.
#[derive(Clone, Copy)]
struct Counts {
    pushes: u64,
    choices: u64,
    pulls: u64,
    lists: u64,
    failed: bool,
}

impl Counts {
    fn add(&mut self, frame: &Frame) {
        match frame {
            Frame::Push(_) => self.pushes = self.pushes.saturating_add(1),
            Frame::Choose(_) => self.choices = self.choices.saturating_add(1),
            Frame::Pull(_) => self.pulls = self.pulls.saturating_add(1),
            Frame::List(_) => self.lists = self.lists.saturating_add(1),
        }
    }
}

/// Counts the next request, and tells whether one was there.
fn add_next(counts: &mut Counts, reader: &mut FrameReader) -> Result<bool, AllocError> {
    match reader.next()? {
        Next::Frame(frame) => {
            counts.add(&frame);
            drop(frame);
            Ok(true)
        }
        Next::Need => Ok(false),
        Next::Bad => {
            counts.failed = true;
            Ok(false)
        }
    }
}

/// Counts the requests that are there; there are at most as many as bytes.
fn add_requests(
    counts: &mut Counts,
    reader: &mut FrameReader,
    most: usize,
) -> Result<(), AllocError> {
    for _ in 0..=most {
        if !add_next(counts, reader)? {
            return Ok(());
        }
    }
    Ok(())
}

/// Counts the requests of bytes that come in pieces of this size.
fn add_pieces(
    counts: &mut Counts,
    reader: &mut FrameReader,
    bytes: &[u8],
    size: usize,
) -> Result<(), AllocError> {
    for piece in bytes.chunks(size.max(1)) {
        reader.feed(piece)?;
        add_requests(counts, reader, bytes.len())?;
    }
    Ok(())
}

fn counted(alloc: Global, bytes: &[u8], size: usize) -> Result<Counts, AllocError> {
    let mut counts = Counts {
        pushes: 0,
        choices: 0,
        pulls: 0,
        lists: 0,
        failed: false,
    };
    let mut reader = FrameReader::new(alloc);
    add_pieces(&mut counts, &mut reader, bytes, size)?;
    Ok(counts)
}

fn push_count(told: &mut Text, word: &[u8], count: u64) -> Result<(), AllocError> {
    told.push_bytes(word)?;
    push_number(told, count)?;
    told.push_bytes(b"\n")
}

/// Adds what was counted, and the last answer.
fn push_all(told: &mut Text, counts: &Counts) -> Result<(), AllocError> {
    push_count(told, b"pushes ", counts.pushes)?;
    push_count(told, b"choices ", counts.choices)?;
    push_count(told, b"pulls ", counts.pulls)?;
    push_count(told, b"lists ", counts.lists)?;
    told.push_bytes(if counts.failed { b"bad\n" } else { b"need\n" })
}

/// How many requests of each kind a session has that comes in pieces of this size, and the last answer.
pub fn push_counts(alloc: Global, bytes: &[u8], size: usize) -> Result<Text, TableFault> {
    let counts = counted(alloc, bytes, size)?;
    let mut told = Text::new(alloc);
    push_all(&mut told, &counts)?;
    Ok(told)
}
