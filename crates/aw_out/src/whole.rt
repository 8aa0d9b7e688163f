//! Reading all that a source has, and writing all of some bytes.
ghost use Rattle.std.specs.Prelude.{◌≡◌, ◌≢◌, ◌≤◌, ◌<◌, [], length, IfOk, IsOk, OnOk, OnErr};
ghost use Rattle.aw_out.specs.Causes.{Rose};
ghost use Rattle.aw_out.specs.Edge.{IsUsedUp, Gives, GivesSome, Gets, GetsPrefix};

use crate::edge::{Got, Put, Sink, Source};
use crate::error::{ReadError, WriteError};
use aw_list::Text;
use std::alloc::Global;

/// Room for one read, in bytes.
const PIECE: usize = 4096;

/// Reads to the end, if that comes within `limit` bytes.
pub fn read_all<S: Source>(alloc: Global, src: &mut S, limit: usize) -> Result<Text, ReadError>
    // All that was left is read, and nothing is left.
    ensures all { IfOk result (λ text. Gives (S.left src.old) (S.left src.new) text) }
    ensures end { OnOk result (IsUsedUp (S.left src.new)) }
    ensures within { IfOk result (λ text. length text ≤ limit) }

    // It is too long exactly where more came, and no other error comes after that.
    ensures too_long { result ≡ Err ReadError.TooLong →
        GivesSome (S.left src.old) (S.left src.new) (λ bytes. limit < length bytes) }
    ensures otherwise { result ≢ Err ReadError.TooLong →
        GivesSome (S.left src.old) (S.left src.new) (λ bytes. length bytes ≤ limit) }

    // A read failed where a fault is told, and nowhere else.
    ensures fault { result ≡ Err ReadError.ReadFault → Rose (S.faults src.old) (S.faults src.new) }
    ensures kept { result ≢ Err ReadError.ReadFault → S.faults src.new ≡ S.faults src.old }
    ensures never_falls { S.faults src.old ≤ S.faults src.new }
{
    let mut text = Text::new(alloc);
    let mut piece = [0u8; PIECE];
    loop {
        match src.read(&mut piece) {
            Got::Read(n) => {
                if limit - text.len() < n {
                    return Err(ReadError::TooLong);
                }
                text.push_bytes(&piece[..n])?;
            }
            Got::End => return Ok(text),
            Got::Failed => return Err(ReadError::ReadFault),
        }
    }
}

/// Writes all the bytes, or a prefix of them and then tells the sink's fault. It takes no memory.
pub fn write_all<K: Sink>(out: &mut K, b: &[u8]) -> Result<(), WriteError>
    ensures all { OnOk result (Gets (K.written out.old) (K.written out.new) b.now) }
    ensures prefix { OnErr result (GetsPrefix (K.written out.old) (K.written out.new) b.now) }
    // A write failed where a fault is told, and nowhere else.
    ensures fault { OnErr result (Rose (K.faults out.old) (K.faults out.new)) }
    ensures kept { OnOk result (K.faults out.new ≡ K.faults out.old) }
    ensures never_falls { K.faults out.old ≤ K.faults out.new }

    // The sink is left alone where there is nothing to write.
    ensures nothing { b.now ≡ [] → IsOk result × (out.new ≡ out.old) }
{
    let mut done = 0;
    while done < b.len() {
        let (_, rest) = b.split_at(done);
        match out.write(rest) {
            Put::Took(n) => done += n,
            Put::Failed => return Err(WriteError::WriteFault),
        }
    }
    Ok(())
}
