//! What is done in an entry.
use aw_list::Text;
use aw_spelling::{cut_at, number_value};
use std::alloc::Global;
use table_common::{TableFault, bytes_of};

/// The most roles of a specification.
const ROLES: u64 = 64;

/// What is done.
#[derive(Drop)]
pub enum Step {
    /// These bytes are written in a session with the role of this number.
    Ask { role: u16, bytes: Text },
    /// A courier carries for so many rounds at most.
    Carry { rounds: u64 },
}

/// A session with a role: its number, and the bytes.
fn read_ask(alloc: Global, words: &[u8]) -> Result<Step, TableFault> {
    let Some((word, digits)) = cut_at(words, b' ') else {
        return Err(TableFault::Unreadable);
    };
    match number_value(word) {
        Some(role) if role < ROLES => Ok(Step::Ask {
            role: role as u16,
            bytes: bytes_of(alloc, digits)?,
        }),
        _ => Err(TableFault::Unreadable),
    }
}

/// A courier: how many rounds it makes at most.
fn read_carry(word: &[u8]) -> Result<Step, TableFault> {
    match number_value(word) {
        Some(rounds) => Ok(Step::Carry { rounds }),
        None => Err(TableFault::Unreadable),
    }
}

/// The step that a line spells: `ask ROLE HEX` or `carry ROUNDS`.
pub fn read_step(alloc: Global, line: &[u8]) -> Result<Step, TableFault> {
    match cut_at(line, b' ') {
        Some((b"ask", words)) => read_ask(alloc, words),
        Some((b"carry", word)) => read_carry(word),
        _ => Err(TableFault::Unreadable),
    }
}
