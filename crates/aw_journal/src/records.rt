//! The records of a file, one after the other, and what lies behind them.
ghost use Rattle.std.specs.Prelude.{◌≡◌, ◌<◌, ◌≤◌, ◌+◌, ◌^◌, ◌++◌, ◌∷◌, [], ℕ, List, IsTrue, true, false, None, Some, length, take, drop, ⊤, IfOk, OnOk, MatchOption};
ghost use Rattle.aw_disk.specs.Pages.{IsFile};
ghost use Rattle.aw_journal.specs.Format.{events_of};
ghost use Rattle.aw_journal.specs.Events.{Event, IsEvent, payload_of};
ghost use Rattle.aw_journal.specs.EventView.{event_of};
ghost use Rattle.aw_journal.specs.Pieces.{HasRoom, Holds, OnlyReads};
ghost use Rattle.aw_journal.specs.Fronts.{IsFront, IsNoEvent};
ghost use Rattle.aw_journal.specs.Scan.{FoundEvent};
ghost use Rattle.aw_journal.specs.Standing as spec;
ghost use Rattle.aw_journal.specs.Records.{IsAtEnd, IsBehind, reached};

use crate::payload::{NodeEvent, read_event};
use crate::pieces::{ReadFault, Reader, ask};
use crate::scan::{RECORD_FRONT, number_in};
use crate::searching::{ends_at, has_record, standing_of};
use crate::standing::Standing;
use aw_disk::Pages;
use std::alloc::{AllocError, Global};
use std::marker::Model;

/// The most bytes that the payload of an event has. A record that says it is longer is none.
pub const LONGEST_PAYLOAD: usize = 1_048_577;

/// Reads the records of a file in turn. It holds one piece of the file and one payload, however long a record says it is.
#[derive(Drop)]
pub struct Records {
    headed: bool,
    gate: u64,
    reader: Reader,
}

impl Model for Records {
    ghost use Rattle.aw_journal.specs.Records.{Reached, reached, IsReached};

    ghost Value = { Reached };

    ghost view = { reached };

    ghost invariant = { IsReached };
}

/// How a file stands.
#[derive(Clone, Copy, Debug, PartialEq, Eq)]
pub struct Ending {
    pub standing: Standing,
    /// How many bytes stand from the last gate on, or in the whole file where no head stands whole.
    pub tail: u64,
}

impl Records {
    /// The records from a gate on.
    pub(crate) fn behind(headed: bool, gate: u64, reader: Reader) -> Records
        requires room { HasRoom reader }
        requires few { length reader.asked.items ≤ 1048578 }
        requires before { gate + 1 < 2 ^ 64 }
        ensures { result ≡ reached (record { headed = headed; gate = gate; reader = reader }) }
    {
        Records {
            headed,
            gate,
            reader,
        }
    }

    /// Where the gate stands behind the records so far, from 0.
    pub fn place(&self) -> u64
        ensures { result ≡ self.now.gate }
    {
        self.gate
    }

    /// The event of the next record that counts. `None` where the records end: what the file gets behind them later is read by a later call.
    pub fn next<P: Pages>(
        &mut self,
        alloc: Global,
        pages: &mut P,
    ) -> Result<Option<NodeEvent>, ReadFault>
        ensures next { (file : List ℕ) (events : List Event) → P.bytes pages.old ≡ Some file → IsBehind file events self.old
            → IfOk result (λ found. MatchOption found (IsBehind file events self.new × IsAtEnd file self.new × (events_of file ≡ events))
            (λ e. IsBehind file (events ++ event_of e ∷ []) self.new)) }
        ensures event { IfOk result (λ found. MatchOption found ⊤ (λ e. IsEvent (event_of e))) }
        ensures place { IfOk result (λ found. MatchOption found (self.new.gate ≡ self.old.gate)
            (λ e. (self.new.gate ≡ self.old.gate + length (payload_of (event_of e)) + 9) × (self.new.gate < self.old.end))) }
        ensures headless { self.old.headed ≡ false → IfOk result (λ found. (found ≡ None) × (self.new ≡ self.old)) }
        ensures head { self.new.headed ≡ self.old.headed }
        ensures end { self.new.end ≡ self.old.end }
        // Whatever a record says of its length, so many bytes are held at most.
        ensures bounded { self.new.room ≤ 1114114 }
        ensures only { OnlyReads ⟦<P as Pages>⟧ result pages.old pages.new }
    {
        if !self.headed {
            return Ok(None);
        }
        match next_event(alloc, pages, &mut self.reader, self.gate)? {
            Some((event, gate)) => {
                self.gate = gate;
                Ok(Some(event))
            }
            None => Ok(None),
        }
    }

    /// How the file stands, once its records were read.
    pub fn standing<P: Pages>(&mut self, alloc: Global, pages: &mut P) -> Result<Ending, ReadFault>
        ensures standing { (file : List ℕ) → P.bytes pages.old ≡ Some file → IsAtEnd file self.old
            → IfOk result (λ e. e ≡ record { standing = spec.standing file; tail = length (spec.tail_of file) }) }
        ensures stays { (file : List ℕ) → P.bytes pages.old ≡ Some file → IsAtEnd file self.old → OnOk result (IsAtEnd file self.new) }
        ensures place { self.new.gate ≡ self.old.gate }
        ensures bounded { self.new.room ≤ 1114114 }
        ensures only { OnlyReads ⟦<P as Pages>⟧ result pages.old pages.new }
    {
        find_ending(alloc, pages, &mut self.reader, self.gate, self.headed)
    }

    /// Lets go of what is held, so that later calls read the file as it is then.
    pub fn forget(&mut self)
        ensures behind { (file : List ℕ) (events : List Event) → IsBehind file events self.old → IsBehind file events self.new }
        ensures at_end { (file : List ℕ) → IsAtEnd file self.old → IsAtEnd file self.new }
        ensures place { self.new ≡ record self.old { start = 0; held = 0 } }
    {
        self.reader.start = 0;
        self.reader.held = 0;
    }
}

/// How a file stands behind the last gate that counts.
fn find_ending<P: Pages>(
    alloc: Global,
    pages: &mut P,
    reader: &mut Reader,
    gate: u64,
    headed: bool,
) -> Result<Ending, ReadFault>
    requires room { HasRoom reader.old }
    requires fits { gate + 1 < 2 ^ 64 }
    ensures room { HasRoom reader.new }
    ensures end { reader.new.end ≡ reader.old.end }
    ensures few { length reader.old.asked.items ≤ 1048578 → length reader.new.asked.items ≤ 1048578 }
    ensures holds { (file : List ℕ) → P.bytes pages.old ≡ Some file → Holds file reader.old → OnOk result (Holds file reader.new) }
    ensures standing { (file : List ℕ) → P.bytes pages.old ≡ Some file → Holds file reader.old → gate ≤ length file
        → IfOk result (λ e. e ≡ record { standing = spec.standing_by (drop gate file) headed; tail = length (drop gate file) }) }
    ensures only { OnlyReads ⟦<P as Pages>⟧ result pages.old pages.new }
{
    let damaged = has_record(alloc, pages, reader, gate)?;
    let end = ends_at(pages, reader, gate)?;
    ask(pages, reader, gate, 1)?;
    let tail = end - gate;
    Ok(Ending {
        standing: standing_of(damaged, headed, tail, &reader.asked),
        tail,
    })
}

/// The event of the record behind the gate at this place, and the gate behind it, where it is open and the record whole.
pub(crate) fn next_event<P: Pages>(
    alloc: Global,
    pages: &mut P,
    reader: &mut Reader,
    gate: u64,
) -> Result<Option<(NodeEvent, u64)>, ReadFault>
    requires { HasRoom reader.old }
    ensures room { HasRoom reader.new }
    ensures end { reader.new.end ≡ reader.old.end }
    ensures few { length reader.old.asked.items ≤ 1048578 → length reader.new.asked.items ≤ 1048578 }
    ensures holds { (file : List ℕ) → P.bytes pages.old ≡ Some file → Holds file reader.old → OnOk result (Holds file reader.new) }
    ensures found { (file : List ℕ) → P.bytes pages.old ≡ Some file → Holds file reader.old
        → IfOk result (λ found. MatchOption found (spec.begins_record (drop gate file) ≡ false) (λ x. FoundEvent file gate x.1 (event_of x.0))) }
    ensures next { IfOk result (λ found. MatchOption found ⊤ (λ x. (x.1 ≡ gate + length (payload_of (event_of x.0)) + 9) × (x.1 < reader.old.end))) }
    ensures event { IfOk result (λ found. MatchOption found ⊤ (λ x. IsEvent (event_of x.0))) }
    ensures only { OnlyReads ⟦<P as Pages>⟧ result pages.old pages.new }
{
    let count = match front_at(pages, reader, gate)? {
        Some(count) => count,
        None => return Ok(None),
    };
    ask(pages, reader, gate + RECORD_FRONT as u64, count + 1)?;
    match whole_event(alloc, &reader.asked, count)? {
        Some(event) => Ok(Some((event, gate + RECORD_FRONT as u64 + count as u64))),
        None => Ok(None),
    }
}

/// The event that so many bytes at the front are, where they are one and a byte stands behind them.
fn whole_event(alloc: Global, bytes: &[u8], count: usize) -> Result<Option<NodeEvent>, AllocError>
    ensures found { IfOk result (λ found. MatchOption found (IsNoEvent bytes.now count)
        (λ e. (count < length bytes.now) × (take count bytes.now ≡ payload_of (event_of e)) × IsEvent (event_of e))) }
{
    if bytes.len() <= count {
        return Ok(None);
    }
    read_event(alloc, &bytes[..count])
}

/// How long the payload is that the record behind this gate says it has, where the gate is open and a payload may be so long.
fn front_at<P: Pages>(
    pages: &mut P,
    reader: &mut Reader,
    gate: u64,
) -> Result<Option<usize>, ReadFault>
    requires { HasRoom reader.old }
    ensures room { HasRoom reader.new }
    ensures end { reader.new.end ≡ reader.old.end }
    ensures few { length reader.old.asked.items ≤ 1048578 → length reader.new.asked.items ≤ 1048578 }
    ensures holds { (file : List ℕ) → P.bytes pages.old ≡ Some file → Holds file reader.old → OnOk result (Holds file reader.new) }
    ensures found { (file : List ℕ) → P.bytes pages.old ≡ Some file → Holds file reader.old
        → IfOk result (λ count. MatchOption count (spec.begins_record (drop gate file) ≡ false) (λ n. IsFront file gate n)) }
    ensures fits { IfOk result (λ count. MatchOption count ⊤ (λ n. (gate + 9 + n < reader.old.end) × (n ≤ 1048577))) }
    ensures only { OnlyReads ⟦<P as Pages>⟧ result pages.old pages.new }
{
    if !has_front(gate, reader.end) {
        return Ok(None);
    }
    ask(pages, reader, gate, RECORD_FRONT)?;
    Ok(payload_len(&reader.asked, gate, reader.end))
}

/// Whether the gate and the length of a payload have their place before this end.
fn has_front(gate: u64, end: u64) -> bool
    ensures yes { result ≡ true → gate + 9 ≤ end }
    ensures no { result ≡ false → end < gate + 9 }
{
    end >= RECORD_FRONT as u64 && end - RECORD_FRONT as u64 >= gate
}

/// How long the payload is behind a front that stands at this place in a file that ends here at the latest, where the gate is open, a payload
/// may be so long, and it has its place with a gate behind it.
fn payload_len(front: &[u8], gate: u64, end: u64) -> Option<usize>
    requires place { gate + 9 ≤ end }
    ensures none { result ≡ None → (file : List ℕ) → IsFile file → length file ≤ end → front.now ≡ take 9 (drop gate file)
        → spec.begins_record (drop gate file) ≡ false }
    ensures some { (n : ℕ) → result ≡ Some n → (file : List ℕ) → front.now ≡ take 9 (drop gate file) → IsFront file gate n }
    ensures fits { (n : ℕ) → result ≡ Some n → (gate + 9 + n < end) × (n ≤ 1048577) }
{
    if front.len() < RECORD_FRONT || front[0] != 1 {
        return None;
    }
    let n = number_in(&front[1..RECORD_FRONT]);
    if n > LONGEST_PAYLOAD as u64 {
        return None;
    }
    if n >= end - gate - RECORD_FRONT as u64 {
        return None;
    }
    Some(n as usize)
}
