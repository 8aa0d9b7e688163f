//! What is told of nodes and couriers.
use aw_courier::{Carried, CarryFault};
use aw_list::Text;
use aw_session::{How, SessionLog};
use aw_spelling::push_number;
use bstr::ByteSlice;
use std::alloc::{AllocError, Global};
use table_common::TableFault;

/// What stands in front of an entry's name.
pub const MARK: &[u8] = b"=== ";

/// The line in front of a text, and what stands behind it.
pub fn line_of(text: &[u8]) -> Result<(&[u8], &[u8]), TableFault> {
    match text.split_once_str(b"\n") {
        Some(cut) => Ok(cut),
        None => Err(TableFault::Unreadable),
    }
}

/// What stands before the first mark, and the entries.
pub fn entries_of(text: &[u8]) -> Result<(&[u8], &[u8]), TableFault> {
    match text.split_once_str(MARK) {
        Some(cut) => Ok(cut),
        None => Err(TableFault::Unreadable),
    }
}

/// Adds the line with an entry's name.
pub fn push_name(told: &mut Text, name: &[u8]) -> Result<(), AllocError> {
    told.push_bytes(MARK)?;
    told.push_bytes(name)?;
    told.push_bytes(b"\n")
}

/// Adds a word and bytes in hexadecimal.
pub fn push_hex(
    alloc: Global,
    told: &mut Text,
    word: &[u8],
    bytes: &[u8],
) -> Result<(), AllocError> {
    told.push_bytes(word)?;
    told.push_bytes(b" ")?;
    told.push_bytes(hex::encode(alloc, bytes)?.as_bytes())?;
    told.push_bytes(b"\n")
}

/// Adds a word and a number.
pub fn push_count(told: &mut Text, word: &[u8], count: u64) -> Result<(), AllocError> {
    told.push_bytes(word)?;
    told.push_bytes(b" ")?;
    push_number(told, count)?;
    told.push_bytes(b"\n")
}

/// Adds the answer of a courier.
pub fn push_answer(told: &mut Text, answer: Result<Carried, CarryFault>) -> Result<(), AllocError> {
    match answer {
        Ok(Carried::Quiet) => told.push_bytes(b"quiet\n"),
        Ok(Carried::RoundsSpent) => told.push_bytes(b"rounds spent\n"),
        Err(CarryFault::BadReply { role }) => push_count(told, b"bad reply", u64::from(role)),
        Err(CarryFault::NetFault { role }) => push_count(told, b"net fault", u64::from(role)),
        Err(CarryFault::NoMemory) => Err(AllocError),
    }
}

/// How a session ended, in a word.
fn word_of(how: How) -> &'static [u8] {
    match how {
        How::End => b"end",
        How::Cut => b"cut",
        How::Bad => b"bad",
        How::Long => b"long",
        How::Fault => b"fault",
    }
}

/// Adds `session 1 frames 4 end`.
pub fn push_session(told: &mut Text, number: usize, entry: SessionLog) -> Result<(), AllocError> {
    told.push_bytes(b"session ")?;
    push_number(told, number as u64)?;
    told.push_bytes(b" frames ")?;
    push_number(told, entry.frames)?;
    told.push_bytes(b" ")?;
    told.push_bytes(word_of(entry.how))?;
    told.push_bytes(b"\n")
}
