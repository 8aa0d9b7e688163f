//! Nodes whose events are kept on a disk. A worked session of a laboratory runs with each call of its disk failing once, and told are
//! the status, what was replied, and how many events are found in what a crash may leave of the call before: the file as it was, the file
//! as it became, and half of what was new. Then come the lines of the part, each a role, the bytes of a session and those of a journal;
//! and last the worked session on a real file, twice. What it has to write was worked out from the stated formats alone.
use crate::memory::push_outcome;
use crate::session::{AGAIN, FIRST, SPECIFICATION, Served, serve};
use aw_disk::{Did, Disk, DiskCalls, MemDisk};
use aw_journal::Journal;
use aw_list::Text;
use aw_spelling::push_number;
use bstr::ByteSlice;
use std::alloc::{AllocError, Global};

/// How many calls of the disk the worked session makes.
const CALLS: usize = 16;

/// The most written bytes and calls of a disk.
const ROOM: usize = 4000;

/// The most bytes of a journal.
const MOST_JOURNAL: u64 = 1_048_576;

/// The number of the role of the laboratory.
const LABORATORY: u16 = 1;

/// The file between two: as long as halfway, with the bytes of the longer one.
fn half_new(alloc: Global, old: &[u8], new: &[u8]) -> Result<Text, AllocError> {
    if old.len() < new.len() {
        let half = old.len() + (new.len() - old.len()) / 2;
        Text::from_bytes(alloc, &new[..half])
    } else {
        let half = new.len() + (old.len() - new.len()) / 2;
        Text::from_bytes(alloc, &old[..half])
    }
}

/// A disk that holds these bytes, of whose calls these fail.
fn disk_of(alloc: Global, bytes: &[u8], fails: &[usize]) -> Result<MemDisk, AllocError> {
    let fails = DiskCalls::from_slice(alloc, fails)?;
    MemDisk::new(alloc, Text::from_bytes(alloc, bytes)?, fails, ROOM, ROOM)
}

/// Adds a word and these bytes in hexadecimal.
fn push_hex(alloc: Global, told: &mut Text, word: &[u8], bytes: &[u8]) -> Result<(), AllocError> {
    told.push_bytes(word)?;
    told.push_bytes(hex::encode(alloc, bytes)?.as_bytes())?;
    told.push_bytes(b"\n")
}

/// Adds the status of a run, what it wrote and what it replied.
fn push_served(alloc: Global, told: &mut Text, served: &Served) -> Result<(), AllocError> {
    push_outcome(told, &served.came)?;
    push_hex(alloc, told, b"replied ", served.replies.as_slice())
}

/// How many events the journal on a disk has. It stands apart, over any disk, since what `reopen` promises of a disk in memory takes long
/// to prove and is asked for by nobody here.
fn events_on<D: Disk>(alloc: Global, disk: &mut D) -> Option<u64> {
    match Journal::reopen(alloc, disk, LABORATORY, SPECIFICATION, MOST_JOURNAL) {
        Ok(journal) => Some(journal.events().len() as u64),
        Err(_) => None,
    }
}

/// How many events a file has.
fn events_in(alloc: Global, bytes: &[u8]) -> Result<Option<u64>, AllocError> {
    let mut disk = disk_of(alloc, bytes, &[])?;
    let count = events_on(alloc, &mut disk);
    drop(disk);
    Ok(count)
}

/// Adds how many events a file has.
fn push_events(alloc: Global, told: &mut Text, bytes: &[u8]) -> Result<(), AllocError> {
    told.push_bytes(b" ")?;
    match events_in(alloc, bytes)? {
        Some(count) => push_number(told, count),
        None => told.push_bytes(b"none"),
    }
}

/// Adds how many events each image of a call has, which made the second file of the first one.
fn push_images(alloc: Global, told: &mut Text, old: &[u8], new: &[u8]) -> Result<(), AllocError> {
    told.push_bytes(b"events")?;
    push_events(alloc, told, old)?;
    push_events(alloc, told, new)?;
    push_events(alloc, told, half_new(alloc, old, new)?.as_slice())?;
    told.push_bytes(b"\n")
}

/// Adds what comes of a session of a role with these frames, kept on a disk.
fn push_session<D: Disk>(
    alloc: Global,
    told: &mut Text,
    role: &[u8],
    frames: &[&[u8]],
    disk: &mut D,
) -> Result<(), AllocError> {
    let served = serve(alloc, role, frames, disk)?;
    push_served(alloc, told, &served)
}

/// Adds the worked session on a disk, and the images of its last call, which made its file of the one before. Gives its file.
fn push_worked(
    alloc: Global,
    told: &mut Text,
    before: &[u8],
    disk: &mut MemDisk,
) -> Result<Text, AllocError> {
    push_session(alloc, told, b"lab", &FIRST, disk)?;
    push_images(alloc, told, before, disk.bytes())?;
    Text::from_bytes(alloc, disk.bytes())
}

/// Adds the worked session in which this call fails, where the one before left this file. Gives the file that it leaves.
fn push_failing(
    alloc: Global,
    told: &mut Text,
    number: usize,
    before: &[u8],
) -> Result<Text, AllocError> {
    told.push_bytes(b"calls ")?;
    push_number(told, number as u64)?;
    told.push_bytes(b"\n")?;
    let mut disk = disk_of(alloc, b"", &[number])?;
    let left = push_worked(alloc, told, before, &mut disk);
    drop(disk);
    left
}

/// Adds the worked session with each call failing, the last time with none, and the images of each call.
fn push_sessions(alloc: Global, told: &mut Text) -> Result<(), AllocError> {
    let mut before = Text::new(alloc);
    for number in 0..CALLS + 1 {
        before = push_failing(alloc, told, number, before.as_slice())?;
    }
    Ok(())
}

/// Adds what comes of a session of a role, and what the disk holds then.
fn push_changed(
    alloc: Global,
    told: &mut Text,
    role: &[u8],
    frames: &[u8],
    disk: &mut MemDisk,
) -> Result<(), AllocError> {
    told.push_bytes(role)?;
    told.push_bytes(b"\n")?;
    push_session(alloc, told, role, &[frames], disk)?;
    push_hex(alloc, told, b"disk ", disk.bytes())
}

/// Adds what comes of a session of a role on a disk that holds a journal.
fn push_on(
    alloc: Global,
    told: &mut Text,
    role: &[u8],
    frames: &[u8],
    journal: &[u8],
) -> Result<(), AllocError> {
    let mut disk = disk_of(alloc, journal, &[])?;
    let pushed = push_changed(alloc, told, role, frames, &mut disk);
    drop(disk);
    pushed
}

/// Adds what comes of a line `ROLE SESSION JOURNAL`, the bytes in hexadecimal.
fn push_line(alloc: Global, told: &mut Text, line: &[u8]) -> Result<(), AllocError> {
    let mut words = line.fields();
    let (Some(role), Some(frames), Some(journal)) = (words.next(), words.next(), words.next())
    else {
        return told.push_bytes(b"not read\n");
    };
    match (hex::decode(alloc, frames), hex::decode(alloc, journal)) {
        (Ok(frames), Ok(journal)) => {
            push_on(alloc, told, role, frames.as_slice(), journal.as_slice())
        }
        _ => told.push_bytes(b"not read\n"),
    }
}

/// Adds the worked session on a disk that holds nothing, and the next one behind it.
fn push_twice<D: Disk>(alloc: Global, told: &mut Text, disk: &mut D) -> Result<(), AllocError> {
    told.push_bytes(b"file\n")?;
    if disk.cut(0) == Did::Failed {
        return told.push_bytes(b"not cut\n");
    }
    push_session(alloc, told, b"lab", &FIRST, disk)?;
    push_session(alloc, told, b"lab", &AGAIN, disk)
}

/// Adds what comes of the worked sessions and of each line.
pub fn push_kept<D: Disk>(
    alloc: Global,
    told: &mut Text,
    lines: &[u8],
    disk: &mut D,
) -> Result<(), AllocError> {
    push_sessions(alloc, told)?;
    for line in lines.lines() {
        push_line(alloc, told, line)?;
    }
    push_twice(alloc, told, disk)
}
