//! One run of the program over memory. What `aw_run::run` promises of a run is not said again here: a table compares what came out with
//! what was worked out by hand. The call stands once, since each function that makes it has to prove all that it is told.
use aw_disk::{Disk, DiskCalls, MemDisk};
use aw_list::Text;
use aw_out::{MemSink, Sink, Source, SureWire, Texts, Wire};
use aw_run::{Status, Word, run};
use std::alloc::{AllocError, Global};

/// How a run came out: its status, and what it wrote.
#[derive(Drop)]
pub struct Outcome {
    pub status: Status,
    pub text: Text,
}

/// Runs the words, and tells the status alone.
fn status_of<S: Source, K: Sink, W: Wire, D: Disk>(
    alloc: Global,
    words: &[Word],
    src: &mut S,
    out: &mut K,
    wire: &mut W,
    disk: &mut D,
) -> Status {
    run(alloc, words, src, out, wire, disk)
}

/// How a run came out that told this status and wrote to this sink.
fn outcome_of(alloc: Global, status: Status, out: &MemSink) -> Result<Outcome, AllocError> {
    let text = Text::from_bytes(alloc, out.written())?;
    Ok(Outcome { status, text })
}

/// Runs the words over a source, a wire and a disk, and gives what was written to a sink in memory, which held nothing before. Only want
/// of memory is an error.
pub fn run_over<S: Source, W: Wire, D: Disk>(
    alloc: Global,
    words: &[Word],
    src: &mut S,
    out: &mut MemSink,
    wire: &mut W,
    disk: &mut D,
) -> Result<Outcome, AllocError> {
    let status = status_of(alloc, words, src, out, wire, disk);
    outcome_of(alloc, status, out)
}

/// A disk that holds nothing and takes nothing.
fn empty_disk(alloc: Global) -> Result<MemDisk, AllocError> {
    let fails = DiskCalls::from_slice(alloc, &[])?;
    MemDisk::new(alloc, Text::new(alloc), fails, 0, 0)
}

/// Runs the words over a source, where the wire brings nothing and the disk is empty.
pub fn run_alone<S: Source>(
    alloc: Global,
    words: &[Word],
    src: &mut S,
    out: &mut MemSink,
) -> Result<Outcome, AllocError> {
    let mut disk = empty_disk(alloc)?;
    let mut wire = SureWire::new(Texts::new(alloc));
    run_over(alloc, words, src, out, &mut wire, &mut disk)
}
