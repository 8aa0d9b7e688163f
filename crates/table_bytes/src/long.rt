//! Long files of journals. It opens each on a disk that takes no more than some calls, and tells what that gives and how long
//! the file is then.
use crate::journals::push_opened;
use aw_disk::{DiskCalls, MemDisk};
use aw_list::Text;
use aw_spelling::{cut_at, number_value, push_number};
use bstr::ByteSlice;
use std::alloc::{AllocError, Global};

/// The most written bytes of a disk.
const ROOM: usize = 1000;

/// A line of the part: `ROLE CALLS FRONT TIMES PIECE BEHIND`, the bytes in hexadecimal.
#[derive(Clone, Copy)]
struct Long<'a> {
    role: u64,
    calls: u64,
    front: &'a [u8],
    times: u64,
    piece: &'a [u8],
    behind: &'a [u8],
}

fn long_of(line: &[u8]) -> Option<Long<'_>> {
    let (role, rest) = cut_at(line, b' ')?;
    let (calls, rest) = cut_at(rest, b' ')?;
    let (front, rest) = cut_at(rest, b' ')?;
    let (times, rest) = cut_at(rest, b' ')?;
    let (piece, behind) = cut_at(rest, b' ')?;
    Some(Long {
        role: number_value(role)?,
        calls: number_value(calls)?,
        front,
        times: number_value(times)?,
        piece,
        behind,
    })
}

/// Adds bytes that are given in hexadecimal.
fn push_digits(alloc: Global, bytes: &mut Text, digits: &[u8]) -> Result<(), AllocError> {
    match hex::decode(alloc, digits) {
        Ok(more) => bytes.push_bytes(more.as_slice()),
        Err(_) => Ok(()),
    }
}

/// The bytes of a line: its front, its piece so often, and what stands behind.
fn file_of(alloc: Global, long: &Long<'_>) -> Result<Text, AllocError> {
    let mut piece = Text::new(alloc);
    push_digits(alloc, &mut piece, long.piece)?;
    let mut bytes = Text::new(alloc);
    push_digits(alloc, &mut bytes, long.front)?;
    for _ in 0..long.times {
        bytes.push_bytes(piece.as_slice())?;
    }
    push_digits(alloc, &mut bytes, long.behind)?;
    Ok(bytes)
}

/// Adds what opening a file gives, and how long it is then.
fn push_file(alloc: Global, told: &mut Text, long: &Long<'_>) -> Result<(), AllocError> {
    let bytes = file_of(alloc, long)?;
    let calls = DiskCalls::from_slice(alloc, &[])?;
    let mut disk = MemDisk::new(alloc, bytes, calls, ROOM, long.calls.min(1000) as usize)?;
    push_opened(alloc, told, &mut disk, long.role.min(63) as u16)?;
    told.push_bytes(b", ")?;
    push_number(told, disk.bytes().len() as u64)?;
    told.push_bytes(b" bytes\n")
}

/// Adds all that is told.
pub fn push_long(alloc: Global, told: &mut Text, input: &[u8]) -> Result<(), AllocError> {
    for line in input.lines() {
        told.push_bytes(line)?;
        told.push_bytes(b"\n")?;
        match long_of(line) {
            Some(long) => push_file(alloc, told, &long)?,
            None => told.push_bytes(b"not read\n")?,
        }
    }
    Ok(())
}
