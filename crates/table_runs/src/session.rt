//! A node of one session, over a wire in memory.
use crate::memory::{NEVER, sink_of, words_of};
use crate::once::{Outcome, run_over};
use aw_disk::Disk;
use aw_list::Text;
use aw_net::{MemWire, Numbers};
use aw_out::{SureSource, Texts};
use aw_run::Word;
use std::alloc::{AllocError, Global};

/// The specification of a clinic and its laboratory, laid out as the program writes it.
pub const SPECIFICATION: &[u8] = b"role clinic
role lab
con blood 1
con report 2
con found 2
con none 0
sort visit clinic 0 1
sort test lab 1 1
start visit
offer test
use clinic test
rule admit {who} : visit()<report(who, r)> = test(blood(who))<r>
rule analyse {v} : test(blood(w))<found(w, v)>
rule skip : test(x)<none>
";

/// A frame with a message: the laboratory is called for `visit#1/admit.1`.
const CALLED: &[u8] = b"\x01\x00\x00\x00\x21\
    \x01\x00\x01\x00\x00\x00\x00\x00\x00\x00\x00\x00\x00\x01\x01\x00\x00\x01\
    \x01\x00\x00\x00\x00\x00\x00\x00\x00\x00\x01\x00\x01\x00\x02";

/// A frame that pulls the first message, with which the laboratory asks for `visit#1:p2`.
const PULLED: &[u8] = b"\x03\x00\x00\x00\x08\x00\x00\x00\x00\x00\x00\x00\x00";

/// A frame that pulls a second message, which is not there.
const PULLED_PAST: &[u8] = b"\x03\x00\x00\x00\x08\x00\x00\x00\x00\x00\x00\x00\x01";

/// A frame with a choice: the laboratory skips the test.
const SKIPPED: &[u8] = b"\x02\x00\x00\x00\x12\
    \x01\x00\x00\x00\x00\x00\x00\x00\x00\x00\x01\x01\x00\x00\x01\x00\x02\x00";

/// The laboratory is called; its first message is pulled; and it skips the test.
pub const FIRST: [&[u8]; 3] = [CALLED, PULLED, SKIPPED];

/// The first message is pulled again, and then the second one.
pub const AGAIN: [&[u8]; 2] = [PULLED, PULLED_PAST];

/// The most bytes that are written in a run, on its output or its wire.
const ROOM: usize = 4096;

/// In how many bytes is read and written.
const PIECE: usize = 40;

/// How a run came out, and what was replied in its session.
#[derive(Drop)]
pub struct Served {
    pub came: Outcome,
    pub replies: Text,
}

/// `node ROLE 1 kept`
fn words_for(alloc: Global, role: &[u8]) -> Result<Vec<Word>, AllocError> {
    let mut line = Text::from_bytes(alloc, b"node ")?;
    line.push_bytes(role)?;
    line.push_bytes(b" 1 kept")?;
    words_of(alloc, line.as_slice())
}

/// The bytes of frames, one after the other.
fn joined(alloc: Global, frames: &[&[u8]]) -> Result<Text, AllocError> {
    let mut bytes = Text::new(alloc);
    for frame in frames {
        bytes.push_bytes(frame)?;
    }
    Ok(bytes)
}

/// A wire on which one session comes, with these frames.
fn wire_of(alloc: Global, frames: &[&[u8]]) -> Result<MemWire, AllocError> {
    let mut sessions = Vec::new(alloc);
    sessions.push(joined(alloc, frames)?)?;
    let mut pieces = Numbers::new(alloc);
    pieces.push(PIECE)?;
    MemWire::new(
        alloc,
        Texts::from_vec(sessions),
        pieces,
        Numbers::new(alloc),
        ROOM,
        1,
    )
}

/// What was written in the session, if it came.
fn replies_on(alloc: Global, wire: &MemWire) -> Result<Text, AllocError> {
    if wire.passed() == 0 {
        return Ok(Text::new(alloc));
    }
    Text::from_bytes(alloc, wire.written(0))
}

/// Runs the words over a wire, kept on a disk.
fn run_kept<D: Disk>(
    alloc: Global,
    words: &[Word],
    wire: &mut MemWire,
    disk: &mut D,
) -> Result<Outcome, AllocError> {
    let mut src = SureSource::new(Text::from_bytes(alloc, SPECIFICATION)?);
    let mut out = sink_of(alloc, ROOM, PIECE, NEVER)?;
    let came = run_over(alloc, words, &mut src, &mut out, wire, disk);
    drop(out);
    came
}

/// Runs the words over a wire, and takes what was replied on it.
fn serve_on<D: Disk>(
    alloc: Global,
    words: &[Word],
    wire: &mut MemWire,
    disk: &mut D,
) -> Result<Served, AllocError> {
    let came = run_kept(alloc, words, wire, disk)?;
    let replies = replies_on(alloc, wire)?;
    Ok(Served { came, replies })
}

/// Serves one session of a role with these frames, kept on a disk.
pub fn serve<D: Disk>(
    alloc: Global,
    role: &[u8],
    frames: &[&[u8]],
    disk: &mut D,
) -> Result<Served, AllocError> {
    let words = words_for(alloc, role)?;
    let mut wire = wire_of(alloc, frames)?;
    let served = serve_on(alloc, words.as_slice(), &mut wire, disk);
    drop(wire);
    served
}
