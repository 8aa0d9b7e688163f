//! Finds the open records of a file.
ghost use Rattle.std.specs.Prelude.{◌≡◌, ◌<◌, ◌≤◌, ◌+◌, ◌^◌, ◌++◌, ◌∷◌, [], ℕ, List, IsTrue, true, false, None, Some, length, take, drop, ⊤, IfOk, OnOk, MatchOption};
ghost use Rattle.aw_journal.specs.Format.{events_from, records, u64_in, u64_bytes};
ghost use Rattle.aw_journal.specs.Events.{AllEvents, IsEvent, payload_of};
ghost use Rattle.aw_journal.specs.EventView.{event_of, events_seen};
ghost use Rattle.aw_journal.specs.Reading.{HasRoom, OnlyReads, Reads};
ghost use Rattle.aw_journal.specs.Scan.{Found, FoundEvent, FoundAll};

use crate::payload::{NodeEvent, read_event};
use crate::reads::{OpenFault, Reader, ask};
use aw_disk::Disk;
use std::alloc::{AllocError, Global};

/// How many bytes stand before the payload of a record: a gate and the length of the payload.
pub(crate) const RECORD_FRONT: usize = 9;

/// Some events, and the gate behind them.
#[derive(Drop)]
pub(crate) struct Scanned {
    pub(crate) events: Vec<NodeEvent>,
    pub(crate) gate: u64,
}

/// The open records from a gate on.
pub(crate) fn scan<D: Disk>(
    alloc: Global,
    disk: &mut D,
    reader: &mut Reader,
    from: u64,
) -> Result<Scanned, OpenFault>
    requires room { HasRoom reader.old }
    requires fits { from + 1 < 2 ^ 64 }
    ensures room { HasRoom reader.new }
    ensures reads { (file : List ℕ) → Reads ⟦<D as Disk>⟧ file disk.old reader.old → OnOk result (Reads ⟦<D as Disk>⟧ file disk.new reader.new) }
    ensures found { (file : List ℕ) → Reads ⟦<D as Disk>⟧ file disk.old reader.old → from < length file → IfOk result (λ found. FoundAll file from found.gate (events_seen found.events.items)) }
    ensures place { IfOk result (λ found. found.gate ≡ from + length (records (events_seen found.events.items))) }
    ensures fits { IfOk result (λ found. found.gate + 1 < 2 ^ 64) }
    ensures all { IfOk result (λ found. AllEvents (events_seen found.events.items)) }
    ensures only { OnlyReads ⟦<D as Disk>⟧ result disk.old disk.new }
{
    let mut events = Vec::new(alloc);
    let mut gate = from;
    while let Some((event, next)) = next_event(alloc, disk, reader, gate)? {
        add(&mut events, event)?;
        gate = next;
    }
    Ok(Scanned { events, gate })
}

fn add(events: &mut Vec<NodeEvent>, event: NodeEvent) -> Result<(), AllocError>
    ensures { OnOk result (events.new.items ≡ events.old.items ++ event ∷ []) }
{
    events.push(event)?;
    Ok(())
}

/// The event of the record behind the gate at this place, and the gate behind it, where it is open and the record whole.
fn next_event<D: Disk>(
    alloc: Global,
    disk: &mut D,
    reader: &mut Reader,
    gate: u64,
) -> Result<Option<(NodeEvent, u64)>, OpenFault>
    requires { HasRoom reader.old }
    ensures room { HasRoom reader.new }
    ensures size { reader.new.size ≡ reader.old.size }
    ensures reads { (file : List ℕ) → Reads ⟦<D as Disk>⟧ file disk.old reader.old → OnOk result (Reads ⟦<D as Disk>⟧ file disk.new reader.new) }
    ensures found { (file : List ℕ) → Reads ⟦<D as Disk>⟧ file disk.old reader.old → gate < length file
        → IfOk result (λ found. MatchOption found (events_from 0 (drop gate file) ≡ []) (λ x. FoundEvent file gate x.1 (event_of x.0))) }
    ensures next { IfOk result (λ found. MatchOption found ⊤ (λ x. (x.1 ≡ gate + length (payload_of (event_of x.0)) + 9) × (x.1 < reader.old.size))) }
    ensures event { IfOk result (λ found. MatchOption found ⊤ (λ x. IsEvent (event_of x.0))) }
    ensures only { OnlyReads ⟦<D as Disk>⟧ result disk.old disk.new }
{
    let count = match payload_at(disk, reader, gate)? {
        Some(count) => count,
        None => return Ok(None),
    };
    ask(disk, reader, gate + RECORD_FRONT as u64, count)?;
    if reader.asked.len() < count {
        return Ok(None);
    }
    match read_event(alloc, &reader.asked)? {
        Some(event) => Ok(Some((event, gate + RECORD_FRONT as u64 + count as u64))),
        None => Ok(None),
    }
}

/// How long the payload of the record behind this gate is, where that is open and the record as long as it says.
fn payload_at<D: Disk>(
    disk: &mut D,
    reader: &mut Reader,
    gate: u64,
) -> Result<Option<usize>, OpenFault>
    requires { HasRoom reader.old }
    ensures room { HasRoom reader.new }
    ensures size { reader.new.size ≡ reader.old.size }
    ensures reads { (file : List ℕ) → Reads ⟦<D as Disk>⟧ file disk.old reader.old → OnOk result (Reads ⟦<D as Disk>⟧ file disk.new reader.new) }
    ensures found { (file : List ℕ) → Reads ⟦<D as Disk>⟧ file disk.old reader.old → gate < length file
        → IfOk result (λ count. MatchOption count (events_from 0 (drop gate file) ≡ []) (λ n. Found file gate (gate + 9 + n))) }
    ensures fits { IfOk result (λ count. MatchOption count ⊤ (λ n. gate + 9 + n < reader.old.size)) }
    ensures only { OnlyReads ⟦<D as Disk>⟧ result disk.old disk.new }
{
    if !has_front(gate, reader.size) {
        return Ok(None);
    }
    ask(disk, reader, gate, RECORD_FRONT)?;
    Ok(payload_len(&reader.asked, gate, reader.size))
}

/// Whether the gate and the length of a payload have their place in a file of this size.
fn has_front(gate: u64, size: u64) -> bool
    ensures yes { result ≡ true → gate + 9 ≤ size }
    ensures no { result ≡ false → size < gate + 9 }
{
    size >= RECORD_FRONT as u64 && size - RECORD_FRONT as u64 >= gate
}

/// How long the payload is behind a front that stands at this place in a file of this size, where the gate is open and the payload
/// has its place with a gate behind it.
fn payload_len(front: &[u8], gate: u64, size: u64) -> Option<usize>
    requires place { gate + 9 ≤ size }
    ensures none { result ≡ None → (file : List ℕ) → length file ≡ size → front.now ≡ take 9 (drop gate file) → events_from 0 (drop gate file) ≡ [] }
    ensures some { (n : ℕ) → result ≡ Some n → (file : List ℕ) → length file ≡ size → front.now ≡ take 9 (drop gate file) → Found file gate (gate + 9 + n) }
    ensures fits { (n : ℕ) → result ≡ Some n → gate + 9 + n < size }
{
    if front.len() < RECORD_FRONT || front[0] != 1 {
        return None;
    }
    let n = number_in(&front[1..RECORD_FRONT]);
    if n >= size - gate - RECORD_FRONT as u64 {
        return None;
    }
    Some(n as usize)
}

pub(crate) fn number_in(long: &[u8]) -> u64
    requires { length long.now ≡ 8 }
    ensures value { result ≡ u64_in long.now }
    ensures bytes { u64_bytes result ≡ long.now }
{
    u64::from_be_bytes([
        long[0], long[1], long[2], long[3], long[4], long[5], long[6], long[7],
    ])
}
