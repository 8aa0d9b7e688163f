//! Seeks whole records behind those that count, and tells how a file stands.
ghost use Rattle.std.specs.Prelude.{◌≡◌, ◌<◌, ◌≤◌, ◌+◌, ◌^◌, ℕ, List, IsTrue, true, false, Some, length, take, drop, IfOk, OnOk, MatchOption, if◌then◌else◌};
ghost use Rattle.aw_journal.specs.Pieces.{HasRoom, Holds, OnlyReads};
ghost use Rattle.aw_journal.specs.Standing as spec;

use crate::pieces::{ReadFault, Reader, ask, reach};
use crate::records::next_event;
use crate::standing::Standing;
use aw_disk::Pages;
use memchr::memchr;
use std::alloc::Global;

/// Where the bytes end that are held.
fn held_to(reader: &Reader) -> u64
    requires { HasRoom reader.now }
    ensures { result ≡ reader.now.start + reader.now.held }
{
    reader.start + reader.held as u64
}

/// Where the first open gate stands among the bytes that are held from a place on.
fn one_held(reader: &Reader, place: u64) -> Option<u64>
    requires room { HasRoom reader.now }
    requires start { reader.now.start ≤ place }
    requires held { place < reader.now.start + reader.now.held }
    ensures within { (at : ℕ) → result ≡ Some at → (place ≤ at) × (at < reader.now.start + reader.now.held) }
    ensures found { (file : List ℕ) → Holds file reader.now
        → MatchOption result (spec.has_record (drop place file) ≡ spec.has_record (drop (reader.now.start + reader.now.held) file))
        (λ at. spec.has_record (drop place file) ≡ spec.has_record (drop at file)) }
{
    let from = (place - reader.start) as usize;
    let at = memchr(1, &reader.ahead[from..reader.held])?;
    Some(place + at as u64)
}

/// Where the first open gate stands from a place on.
fn next_one<P: Pages>(
    pages: &mut P,
    reader: &mut Reader,
    from: u64,
) -> Result<Option<u64>, ReadFault>
    requires { HasRoom reader.old }
    ensures room { HasRoom reader.new }
    ensures end { reader.new.end ≡ reader.old.end }
    ensures asked { reader.new.asked ≡ reader.old.asked }
    ensures within { IfOk result (λ found. (at : ℕ) → found ≡ Some at → (from ≤ at) × (at < reader.old.end)) }
    ensures holds { (file : List ℕ) → P.bytes pages.old ≡ Some file → Holds file reader.old → OnOk result (Holds file reader.new) }
    ensures found { (file : List ℕ) → P.bytes pages.old ≡ Some file → Holds file reader.old
        → IfOk result (λ found. MatchOption found (spec.has_record (drop from file) ≡ false)
        (λ at. spec.has_record (drop from file) ≡ spec.has_record (drop at file))) }
    ensures only { OnlyReads ⟦<P as Pages>⟧ result pages.old pages.new }
{
    let mut place = from;
    while reach(pages, reader, place)? {
        if let Some(at) = one_held(reader, place) {
            return Ok(Some(at));
        }
        place = held_to(reader);
    }
    Ok(None)
}

/// Whether a whole record stands behind this gate.
fn begins_at<P: Pages>(
    alloc: Global,
    pages: &mut P,
    reader: &mut Reader,
    gate: u64,
) -> Result<bool, ReadFault>
    requires { HasRoom reader.old }
    ensures room { HasRoom reader.new }
    ensures end { reader.new.end ≡ reader.old.end }
    ensures few { length reader.old.asked.items ≤ 1048578 → length reader.new.asked.items ≤ 1048578 }
    ensures holds { (file : List ℕ) → P.bytes pages.old ≡ Some file → Holds file reader.old → OnOk result (Holds file reader.new) }
    ensures begins { (file : List ℕ) → P.bytes pages.old ≡ Some file → Holds file reader.old → IfOk result (λ yes. yes ≡ spec.begins_record (drop gate file)) }
    ensures only { OnlyReads ⟦<P as Pages>⟧ result pages.old pages.new }
{
    match next_event(alloc, pages, reader, gate)? {
        Some(found) => {
            drop(found);
            Ok(true)
        }
        None => Ok(false),
    }
}

/// Whether a whole record begins anywhere from a place on. It goes from one open gate to the next, and looks at a length before it reads so much.
pub(crate) fn has_record<P: Pages>(
    alloc: Global,
    pages: &mut P,
    reader: &mut Reader,
    from: u64,
) -> Result<bool, ReadFault>
    requires { HasRoom reader.old }
    ensures room { HasRoom reader.new }
    ensures end { reader.new.end ≡ reader.old.end }
    ensures few { length reader.old.asked.items ≤ 1048578 → length reader.new.asked.items ≤ 1048578 }
    ensures holds { (file : List ℕ) → P.bytes pages.old ≡ Some file → Holds file reader.old → OnOk result (Holds file reader.new) }
    ensures found { (file : List ℕ) → P.bytes pages.old ≡ Some file → Holds file reader.old → IfOk result (λ yes. yes ≡ spec.has_record (drop from file)) }
    ensures only { OnlyReads ⟦<P as Pages>⟧ result pages.old pages.new }
{
    let mut place = from;
    while let Some(gate) = next_one(pages, reader, place)? {
        if begins_at(alloc, pages, reader, gate)? {
            return Ok(true);
        }
        place = gate + 1;
    }
    Ok(false)
}

/// How long a file is that has this many bytes or more.
pub(crate) fn ends_at<P: Pages>(
    pages: &mut P,
    reader: &mut Reader,
    from: u64,
) -> Result<u64, ReadFault>
    requires { HasRoom reader.old }
    ensures room { HasRoom reader.new }
    ensures end { reader.new.end ≡ reader.old.end }
    ensures asked { reader.new.asked ≡ reader.old.asked }
    ensures after { IfOk result (λ end. from ≤ end) }
    ensures holds { (file : List ℕ) → P.bytes pages.old ≡ Some file → Holds file reader.old → OnOk result (Holds file reader.new) }
    ensures long { (file : List ℕ) → P.bytes pages.old ≡ Some file → Holds file reader.old → from ≤ length file → IfOk result (λ end. end ≡ length file) }
    ensures only { OnlyReads ⟦<P as Pages>⟧ result pages.old pages.new }
{
    let mut place = from;
    while reach(pages, reader, place)? {
        place = held_to(reader);
    }
    Ok(place)
}

/// How a file stands whose tail has this many bytes and this front.
pub(crate) fn standing_of(damaged: bool, headed: bool, tail: u64, front: &[u8]) -> Standing
    ensures { (l : List ℕ) → tail ≡ length l → front.now ≡ take 1 l
        → result ≡ (if damaged then Standing.Damaged else (if headed then spec.by_tail l else spec.headless l)) }
{
    if damaged {
        return Standing::Damaged;
    }
    if headed {
        if tail == 1 && !front.is_empty() && front[0] != 1 {
            return Standing::Sound;
        }
        return Standing::Cut;
    }
    if tail == 0 {
        return Standing::Empty;
    }
    Standing::Headless
}
