//! Journals. It runs a worked session with each call of the disk failing once, and tells
//! how far it came and what the disk then holds. Of each call it opens what a crash may leave: the file before it, the file after
//! it, half of what was new, and that half with open gates in place of the rest. Then it opens the files that the part gives in
//! hexadecimal. What it has to write was worked out from the form of the file alone.
use crate::images::{half_new, half_open};
use crate::worked::{Came, End, LIMIT, ROLE, head_text, run_session};
use aw_disk::{Disk, DiskCalls, MemDisk};
use aw_journal::{AppendFault, Journal, OpenFault};
use aw_list::Text;
use aw_spelling::{cut_at, number_value, push_number};
use bstr::ByteSlice;
use std::alloc::{AllocError, Global};

/// How many calls of the disk the session makes.
const CALLS: usize = 21;

/// The most written bytes and calls of a disk.
const ROOM: usize = 1000;

fn disk_of(alloc: Global, bytes: &[u8], fails: &[usize]) -> Result<MemDisk, AllocError> {
    let bytes = Text::from_bytes(alloc, bytes)?;
    MemDisk::new(
        alloc,
        bytes,
        DiskCalls::from_slice(alloc, fails)?,
        ROOM,
        ROOM,
    )
}

fn opening_word(fault: OpenFault) -> &'static [u8] {
    match fault {
        OpenFault::DiskFault => b"disk fault while opening",
        OpenFault::BadHead => b"bad head",
        OpenFault::Full => b"full while opening",
        OpenFault::NoMemory => b"no memory",
    }
}

fn appending_word(fault: AppendFault) -> &'static [u8] {
    match fault {
        AppendFault::DiskFault => b"disk fault while appending",
        AppendFault::Full => b"full while appending",
        AppendFault::NoMemory => b"no memory",
    }
}

fn end_word(end: End) -> &'static [u8] {
    match end {
        End::Whole => b"whole",
        End::Opening(fault) => opening_word(fault),
        End::Appending(fault) => appending_word(fault),
    }
}

/// Adds a number and a blank, and a word.
fn push_count(told: &mut Text, count: usize, word: &[u8]) -> Result<(), AllocError> {
    push_number(told, count as u64)?;
    told.push_bytes(b" ")?;
    told.push_bytes(word)
}

fn push_hex(alloc: Global, told: &mut Text, bytes: &[u8]) -> Result<(), AllocError> {
    told.push_bytes(hex::encode(alloc, bytes)?.as_bytes())?;
    told.push_bytes(b"\n")
}

/// Adds how far a session came, and what the disk holds.
fn push_session(
    alloc: Global,
    told: &mut Text,
    disk: &mut MemDisk,
    limit: u64,
) -> Result<(), AllocError> {
    let Came { acknowledged, end } = run_session(alloc, disk, limit);
    push_count(told, acknowledged, b"acknowledged, ")?;
    told.push_bytes(end_word(end))?;
    told.push_bytes(b"\n")?;
    push_hex(alloc, told, disk.bytes())
}

/// How many events the file of a disk has, or why it is not opened. It stands apart, over any disk, since what `reopen` promises of a disk
/// in memory takes long to prove and is asked for by nobody here.
fn opened<D: Disk>(alloc: Global, disk: &mut D, role: u16, limit: u64) -> Result<usize, OpenFault> {
    match Journal::reopen(alloc, disk, role, head_text(), limit) {
        Ok(journal) => Ok(journal.events().len()),
        Err(fault) => Err(fault),
    }
}

/// Adds how many events the file of a disk has, or why it is not opened.
pub fn push_opened(
    alloc: Global,
    told: &mut Text,
    disk: &mut MemDisk,
    role: u16,
) -> Result<(), AllocError> {
    match opened(alloc, disk, role, LIMIT) {
        Ok(count) => push_count(told, count, b"events"),
        Err(fault) => told.push_bytes(opening_word(fault)),
    }
}

/// Adds how many events an image has.
fn push_image(alloc: Global, told: &mut Text, bytes: &[u8]) -> Result<(), AllocError> {
    told.push_bytes(b", ")?;
    let mut disk = disk_of(alloc, bytes, &[])?;
    let pushed = push_opened(alloc, told, &mut disk, ROLE);
    drop(disk);
    pushed
}

/// Adds what the images of a call give, which made the second file of the first one.
fn push_images(alloc: Global, told: &mut Text, old: &[u8], new: &[u8]) -> Result<(), AllocError> {
    told.push_bytes(b"images")?;
    push_image(alloc, told, old)?;
    push_image(alloc, told, new)?;
    push_image(alloc, told, half_new(alloc, old, new)?.as_slice())?;
    push_image(alloc, told, half_open(alloc, old, new)?.as_slice())?;
    told.push_bytes(b"\n")
}

/// Adds a session, and the images of its last call, which made its file of the one before. Gives its file.
fn push_worked(
    alloc: Global,
    told: &mut Text,
    disk: &mut MemDisk,
    before: &[u8],
) -> Result<Text, AllocError> {
    push_session(alloc, told, disk, LIMIT)?;
    push_images(alloc, told, before, disk.bytes())?;
    Text::from_bytes(alloc, disk.bytes())
}

/// Adds the session in which this call fails, where the one before left this file. Gives the file that it leaves.
fn push_failing(
    alloc: Global,
    told: &mut Text,
    number: usize,
    before: &[u8],
) -> Result<Text, AllocError> {
    push_count(told, number, b"calls: ")?;
    let mut disk = disk_of(alloc, b"", &[number])?;
    let left = push_worked(alloc, told, &mut disk, before);
    drop(disk);
    left
}

/// Adds the sessions in which one call fails, the last of which is whole, and the images of each call.
fn push_sessions(alloc: Global, told: &mut Text) -> Result<(), AllocError> {
    let mut before = Text::new(alloc);
    for number in 0..CALLS + 1 {
        before = push_failing(alloc, told, number, before.as_slice())?;
    }
    Ok(())
}

/// Adds the session within a limit.
fn push_limited(alloc: Global, told: &mut Text, limit: u64) -> Result<(), AllocError> {
    told.push_bytes(b"limit ")?;
    push_number(told, limit)?;
    told.push_bytes(b": ")?;
    let mut disk = disk_of(alloc, b"", &[])?;
    let pushed = push_session(alloc, told, &mut disk, limit);
    drop(disk);
    pushed
}

/// Adds the sessions within some limits.
fn push_limits(alloc: Global, told: &mut Text) -> Result<(), AllocError> {
    for limit in [13, 14, 34, 35, 64, 65] {
        push_limited(alloc, told, limit)?;
    }
    Ok(())
}

/// Adds what opening the file of a disk gives, and what the disk then holds.
fn push_changed(
    alloc: Global,
    told: &mut Text,
    disk: &mut MemDisk,
    role: u64,
) -> Result<(), AllocError> {
    push_opened(alloc, told, disk, role.min(63) as u16)?;
    told.push_bytes(b"\n")?;
    push_hex(alloc, told, disk.bytes())
}

/// Adds what opening a file gives, and what the disk then holds.
fn push_bytes(alloc: Global, told: &mut Text, role: u64, bytes: &[u8]) -> Result<(), AllocError> {
    let mut disk = disk_of(alloc, bytes, &[])?;
    let pushed = push_changed(alloc, told, &mut disk, role);
    drop(disk);
    pushed
}

/// Adds what opening a file of the input gives, and what the disk then holds: `ROLE HEX`.
fn push_file(alloc: Global, told: &mut Text, line: &[u8]) -> Result<(), AllocError> {
    told.push_bytes(line)?;
    told.push_bytes(b"\n")?;
    let Some((role, digits)) = cut_at(line, b' ') else {
        return told.push_bytes(b"not read\n");
    };
    match (number_value(role), hex::decode(alloc, digits)) {
        (Some(role), Ok(bytes)) => push_bytes(alloc, told, role, bytes.as_slice()),
        _ => told.push_bytes(b"not read\n"),
    }
}

/// Adds all that is told.
pub fn push_journals(alloc: Global, told: &mut Text, input: &[u8]) -> Result<(), AllocError> {
    push_sessions(alloc, told)?;
    push_limits(alloc, told)?;
    for line in input.lines() {
        push_file(alloc, told, line)?;
    }
    Ok(())
}
