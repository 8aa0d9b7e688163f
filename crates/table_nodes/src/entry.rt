//! What a node is asked.
use aw_list::Text;
use aw_out::Texts;
use aw_spelling::cut_at;
use bstr::ByteSlice;
use std::alloc::Global;
use table_common::{TableFault, bytes_of};

/// The sessions of an entry.
#[derive(Drop)]
pub enum Entry {
    /// Each peer writes these bytes, and ends its writing side.
    Ending(Texts),
    /// One peer writes these bytes, and waits for the node to end the session.
    Staying(Text),
}

/// The bytes of a session whose peer ends its writing side: `ends HEX`.
fn ending_of(alloc: Global, line: &[u8]) -> Result<Text, TableFault> {
    match cut_at(line, b' ') {
        Some((b"ends", digits)) => bytes_of(alloc, digits),
        _ => Err(TableFault::Unreadable),
    }
}

/// The entry that some lines spell: `stays HEX` alone, or lines `ends HEX`.
pub fn read_entry(alloc: Global, lines: &[u8]) -> Result<Entry, TableFault> {
    if let Some((b"stays", digits)) = cut_at(lines.trim_end(), b' ') {
        return Ok(Entry::Staying(bytes_of(alloc, digits)?));
    }
    let mut sessions = Vec::new(alloc);
    for line in lines.lines() {
        sessions.push(ending_of(alloc, line)?)?;
    }
    Ok(Entry::Ending(Texts::from_vec(sessions)))
}
