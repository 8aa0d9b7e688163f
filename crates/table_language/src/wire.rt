//! Sessions on a wire that always works: the first one comes, the second one is dialed, and a third one that is dialed has nothing.
ghost use Rattle.std.specs.Prelude.{◌≡◌, true};

use crate::words::{push_count, push_word};
use aw_list::{Items, Text};
use aw_out::{Arrival, Dialed, Got, Put, SureWire, Texts, Wire};
use std::alloc::{AllocError, Global};

/// Adds what one read of at most four bytes gives.
fn push_got<W: Wire>(told: &mut Text, wire: &mut W) -> Result<(), AllocError>
    requires { W.is_open wire.old ≡ true }
    ensures { W.is_open wire.new ≡ true }
{
    let mut piece = [0u8; 4];
    match wire.read(&mut piece) {
        Got::Read(count) => push_word(told, &piece[..count]),
        Got::End => push_word(told, b"end"),
        Got::Failed => push_word(told, b"failed"),
    }
}

/// Adds what one write takes.
fn push_put<W: Wire>(told: &mut Text, wire: &mut W) -> Result<(), AllocError>
    requires { W.is_open wire.old ≡ true }
    ensures { W.is_open wire.new ≡ true }
{
    match wire.write(b"reply") {
        Put::Took(count) => push_count(told, count as u64),
        Put::Failed => push_word(told, b"failed"),
    }
}

/// Adds whether a session comes, and two reads of it.
fn push_next<W: Wire>(told: &mut Text, wire: &mut W) -> Result<(), AllocError> {
    match wire.next_session(0) {
        Arrival::Session => {
            push_word(told, b"session")?;
            push_got(told, wire)?;
            push_got(told, wire)
        }
        Arrival::End => push_word(told, b"over"),
        Arrival::Failed => push_word(told, b"no session"),
    }
}

/// Adds whether a session is dialed, a read and a write.
fn push_dialed<W: Wire>(told: &mut Text, wire: &mut W) -> Result<(), AllocError> {
    match wire.dial(1) {
        Dialed::Opened => {
            push_word(told, b"opened")?;
            push_got(told, wire)?;
            push_put(told, wire)
        }
        Dialed::Failed => push_word(told, b"not opened"),
    }
}

/// Adds what comes of all sessions.
fn push_all<W: Wire>(told: &mut Text, wire: &mut W) -> Result<(), AllocError> {
    push_next(told, wire)?;
    push_dialed(told, wire)?;
    push_dialed(told, wire)?;
    push_next(told, wire)
}

/// A wire with two sessions.
fn wire_of(alloc: Global) -> Result<SureWire, AllocError> {
    let mut sessions = Vec::new(alloc);
    sessions.push(Text::from_bytes(alloc, b"one")?)?;
    sessions.push(Text::from_bytes(alloc, b"second")?)?;
    let texts: Texts = Items::from_vec(sessions);
    Ok(SureWire::new(texts))
}

/// Adds what comes of two sessions.
pub fn push_sessions(alloc: Global, told: &mut Text) -> Result<(), AllocError> {
    let mut wire = wire_of(alloc)?;
    push_all(told, &mut wire)
}
