//! Wires in memory.
use aw_net::{MemWire, Numbers};
use std::alloc::Global;
use table_common::{TableFault, failing_of, sessions_of};

/// Room for what is written in a case.
const ROOM: usize = 65_536;

/// The most sessions of a case.
const MOST: usize = 64;

/// A wire of which one call moves at most so many bytes, the calls of these numbers fail, and on which the sessions that a text spells come.
pub fn wire_of(
    alloc: Global,
    piece: usize,
    fails: &[usize],
    sessions: &[u8],
) -> Result<MemWire, TableFault> {
    if piece == 0 {
        return Err(TableFault::Unreadable);
    }
    let fails = failing_of(alloc, fails)?;
    let bytes = sessions_of(alloc, sessions)?;
    let mut pieces = Numbers::new(alloc);
    pieces.push(piece)?;
    Ok(MemWire::new(alloc, bytes, pieces, fails, ROOM, MOST)?)
}
