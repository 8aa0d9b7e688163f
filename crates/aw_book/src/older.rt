//! Whether a file goes on from an older copy of it.
ghost use Rattle.std.specs.Prelude.{◌≡◌, ◌≤◌, ◌<◌, ℕ, Some, length, IfOk};

use crate::faults::{BookStop, FileFault, OlderFault};
use aw_book_read::check;
use aw_disk::Pages;
use aw_journal::ReadFault;
use aw_out::Got;
use std::alloc::Global;

/// How many bytes are compared at a time.
const PIECE: usize = 65_536;

/// Reads some bytes at a place, and tells how many they were: none where the file ends before, nothing where it was not read.
fn read_some<P: Pages>(pages: &mut P, at: u64, room: &mut [u8]) -> Option<usize>
    requires { 0 < length room.old }
    ensures fits { (n : ℕ) → result ≡ Some n → n ≤ length room.old }
    ensures size { length room.new ≡ length room.old }
{
    match pages.read_at(at, room) {
        Got::Read(n) => Some(n),
        Got::End => Some(0),
        Got::Failed => None,
    }
}

/// Whether these bytes are the same.
fn same_bytes(left: &[u8], right: &[u8]) -> bool {
    left == right
}

/// How many of these bytes stand at a place of a file, at least one; none where others do or the file ends before, nothing where it was not
/// read.
fn same_at<Q: Pages>(newer: &mut Q, at: u64, bytes: &[u8], room: &mut [u8]) -> Option<usize>
    requires room { length room.old ≡ length bytes.now }
    requires some { 0 < length bytes.now }
    ensures fits { (m : ℕ) → result ≡ Some m → m ≤ length bytes.now }
    ensures size { length room.new ≡ length room.old }
{
    let m = match read_some(newer, at, room) {
        Some(m) => m,
        None => return None,
    };
    if same_bytes(&bytes[..m], &room[..m]) {
        Some(m)
    } else {
        Some(0)
    }
}

/// How many bytes at a place are the same in both files, at most so many; none where they differ or one of the files ends before.
fn same_some<P: Pages, Q: Pages>(
    older: &mut P,
    newer: &mut Q,
    at: u64,
    left: &mut [u8],
    right: &mut [u8],
) -> Result<usize, FileFault>
    requires room { length right.old ≡ length left.old }
    requires some { 0 < length left.old }
    ensures fits { IfOk result (λ n. n ≤ length left.old) }
    ensures sizes { (length left.new ≡ length left.old) × (length right.new ≡ length right.old) }
{
    let n = match read_some(older, at, left) {
        Some(n) => n,
        None => return Err(FileFault::Older(OlderFault::Unread)),
    };
    if n == 0 {
        return Ok(0);
    }
    match same_at(newer, at, &left[..n], &mut right[..n]) {
        Some(m) => Ok(m),
        None => Err(FileFault::Unread),
    }
}

/// Whether so many bytes at the front are the same in both files.
fn same_front<P: Pages, Q: Pages>(
    older: &mut P,
    newer: &mut Q,
    left: &mut [u8],
    right: &mut [u8],
    count: u64,
) -> Result<bool, FileFault>
    requires room { length right.old ≡ length left.old }
    requires some { 0 < length left.old }
    ensures sizes { (length left.new ≡ length left.old) × (length right.new ≡ length right.old) }
{
    let mut at = 0u64;
    'pieces: while at < count {
        let most = (count - at).min(left.len() as u64) as usize;
        let n = same_some(older, newer, at, &mut left[..most], &mut right[..most])?;
        if n == 0 {
            return Ok(false);
        }
        at += n as u64;
    }
    Ok(true)
}

/// What is wrong with a file that has to go on from an older copy, of which so many bytes count: these bytes stand in the file too, and a gate
/// behind them.
fn compare<P: Pages, Q: Pages>(
    older: &mut P,
    newer: &mut Q,
    left: &mut [u8],
    right: &mut [u8],
    count: u64,
) -> Option<FileFault>
    requires room { length right.old ≡ length left.old }
    requires some { 0 < length left.old }
{
    match same_front(older, newer, left, right, count) {
        Ok(true) => {}
        Ok(false) => return Some(FileFault::Older(OlderFault::Other)),
        Err(fault) => return Some(fault),
    }
    match read_some(newer, count, right) {
        Some(0) => Some(FileFault::Older(OlderFault::Other)),
        Some(_) => None,
        None => Some(FileFault::Unread),
    }
}

/// Tells whether a file goes on from an older copy of it: the bytes that count in the copy are those at the file's front, and a gate stands
/// behind them.
pub fn tell_older<P: Pages, Q: Pages>(
    alloc: Global,
    older: &mut P,
    newer: &mut Q,
) -> Result<Option<FileFault>, BookStop> {
    let seen = match check(alloc, older, false) {
        Ok(seen) => seen,
        Err(ReadFault::Failed) => return Ok(Some(FileFault::Older(OlderFault::Unread))),
        Err(ReadFault::NoMemory) => return Err(BookStop::NoMemory),
    };
    if seen.head.is_none() {
        return Ok(Some(FileFault::Older(OlderFault::Headless)));
    }
    let mut left = vec![in alloc; 0u8; PIECE]?;
    let mut right = vec![in alloc; 0u8; PIECE]?;
    Ok(compare(older, newer, &mut left, &mut right, seen.checked.bytes))
}
