//! The events of a node, each on the disk before it is acknowledged.
ghost use Rattle.std.specs.Prelude.{◌≡◌, ◌≤◌, ◌<◌, ◌+◌, ◌++◌, ◌∷◌, ◌^◌, ◌↔◌, [], ℕ, List, IsTrue, true, false, length, take, get_or, ◌==◌, IfOk, IfErr, OnOk, IsErrOf, MatchOption, vec_len, vec_capacity};
ghost use Rattle.aw_out.specs.Causes.{Rose};
ghost use Rattle.aw_disk.specs.Disk.{LeavesOnly, Only};
ghost use Rattle.aw_journal.specs.declared.journal.AppendFault.TheVariants.{NoMemory};
ghost use Rattle.aw_journal.specs.Format.{head, front, has_head, events_of, end_of_head, record_of};
ghost use Rattle.aw_journal.specs.Journal.{IsSettled, HasEventsOf, IsBeforeOrAfter, Quiet, end_after};
ghost use Rattle.aw_journal.specs.Events.{AllEvents, EventInRange, EventSized, payload_of};
ghost use Rattle.aw_journal.specs.EventView.{event_of, events_seen};
ghost use Rattle.aw_journal.specs.Openings.{KeepsFile, KeepsJournal, Reopens, Resumed};
ghost use Rattle.aw_journal.specs.Reading.{HasRoom, OnlyReads, Reads};
ghost use Rattle.aw_journal.specs.Opens.{HasThisHead, IsForeign, IsSameJournal, IsOldOrSame, AllOldOrAllSame, OldUntilSynced};

use crate::head::{Beginning, HEAD_FRONT, begins_open, goes_on, make_beginning, open_head, stands};
use crate::lengths::payload_len;
use crate::payload::{NodeEvent, record_bytes};
use crate::putting::{put_head, put_whole};
use crate::reads::{OpenFault, Reader, ask, begin, settle};
use crate::scan::{RECORD_FRONT, Scanned, scan};
use crate::steps::end_at;
use aw_disk::{Did, Disk};
use aw_list::Text;
use std::alloc::{AllocError, Global};
use std::marker::Model;

#[derive(Clone, Copy, Debug, PartialEq, Eq)]
pub enum AppendFault {
    DiskFault,
    Full,
    NoMemory,
}

impl From<AllocError> for AppendFault {
    ghost from_gives = { λ _ e. e ≡ NoMemory };

    fn from(_: AllocError) -> Self {
        AppendFault::NoMemory
    }
}

#[derive(Drop)]
pub struct Journal {
    alloc: Global,
    role: u16,
    text: Text,
    events: Vec<NodeEvent>,
    gate: u64,
    limit: u64,
    usable: bool,
}

impl Model for Journal {
    ghost use Rattle.aw_journal.specs.Journal.{Kept, kept, IsKept};
    ghost use Rattle.std.specs.Coded.{codes};
    ghost use Rattle.aw_journal.specs.contracts.payload.NodeEvent as event;

    ghost Value = { Kept };

    ghost coded = { Prim.hlevel (codes, event.the_row.coded) };

    ghost view = { kept };

    ghost invariant = { IsKept };
}

impl Journal {
    fn made(
        alloc: Global,
        role: u16,
        text: Text,
        events: Vec<NodeEvent>,
        gate: u64,
        limit: u64,
    ) -> Journal
        requires gate { gate ≡ length (front role text (events_seen events.items)) }
        requires all { AllEvents (events_seen events.items) }
        ensures { result ≡ record { role = role; text = text; events = events.items; limit = limit; usable = true } }
    {
        Journal {
            alloc,
            role,
            text,
            events,
            gate,
            limit,
            usable: true,
        }
    }

    /// Opens the journal of this role and text, and repairs its end. It may crash too.
    pub fn reopen<D: Disk>(
        alloc: Global,
        disk: &mut D,
        role: u16,
        text: &[u8],
        limit: u64,
    ) -> Result<Journal, OpenFault>
        ensures ok { IfOk result (λ j. IsTrue (D.tells disk.old) → events_seen j.events ≡ events_of (D.seen disk.old)) }
        ensures made { IfOk result (λ j. (j.role ≡ role) × (j.text ≡ text.now) × (j.limit ≡ limit) × IsTrue j.usable) }
        ensures settled { IfOk result (λ j. IsTrue (D.tells disk.old) → IsSettled D.seen D.may_leave disk.new j) }
        // A crash at any moment leaves a file that could be there before, or one with the same events in which no new head stands.
        ensures any_moment { IsTrue (D.tells disk.old) → LeavesOnly D.moment D.left_since disk.old disk.new (IsOldOrSame role text.now (D.may_leave disk.old) (D.seen disk.old)) }
        // It leaves the first until the first sync is done, and the second from then on.
        ensures first_sync { IsTrue (D.tells disk.old) → OldUntilSynced ⟦<D as Disk>⟧ (IsSameJournal role text.now (D.seen disk.old)) disk.old disk.new }
        // At the end no image is new, or each image has the same events.
        ensures images { IsTrue (D.tells disk.old) → AllOldOrAllSame role text.now (D.may_leave disk.old) (D.seen disk.old) (D.may_leave disk.new) }
        // What is read has the same events.
        ensures reads_same { IsTrue (D.tells disk.old) → IsSameJournal role text.now (D.seen disk.old) (D.seen disk.new) }
        // What is refused for another reason than a fault of the disk leaves the file and each image as they were, at every moment.
        ensures untouched { IfErr result (λ e. (e ≡ OpenFault.DiskFault → ⊥) → Quiet D.tells D.seen D.may_leave D.moment D.left_since disk.old disk.new) }
        ensures bad_head { IsErrOf result OpenFault.BadHead → IsTrue (D.tells disk.old) → IsForeign role text.now (D.seen disk.old) × (D.seen disk.new ≡ D.seen disk.old) }
        ensures good_head { OnOk result (IsTrue (D.tells disk.old) → IsForeign role text.now (D.seen disk.old) → ⊥) }
        ensures full { IsErrOf result OpenFault.Full → IsTrue (D.tells disk.old) → (has_head (D.seen disk.old) ≡ false) × (limit < end_of_head (length text.now)) × (D.seen disk.new ≡ D.seen disk.old) }
        ensures not_full { OnOk result (IsTrue (D.tells disk.old) → has_head (D.seen disk.old) ≡ false → end_of_head (length text.now) ≤ limit) }
        ensures tells { D.tells disk.new ≡ D.tells disk.old }
        ensures never_falls { D.faults disk.old ≤ D.faults disk.new }
        ensures fault { IsErrOf result OpenFault.DiskFault → Rose (D.faults disk.old) (D.faults disk.new) }
        ensures kept { (IsErrOf result OpenFault.DiskFault → ⊥) → D.faults disk.new ≡ D.faults disk.old }
    {
        open_journal(alloc, disk, role, text, limit)
    }

    /// The events, in order.
    pub fn events(&self) -> &[NodeEvent]
        ensures events { result.now ≡ self.now.events }
        ensures all { AllEvents (events_seen result.now) }
    {
        self.events.as_slice()
    }

    /// Adds an event. At `Ok` it is acknowledged: from then on each crash leaves a file that has it.
    pub fn append<D: Disk>(&mut self, disk: &mut D, event: NodeEvent) -> Result<(), AppendFault>
        requires usable { IsTrue self.old.usable }
        requires settled { IsTrue (D.tells disk.old) → IsSettled D.seen D.may_leave disk.old self.old }
        requires event { EventInRange (event_of event) }
        ensures acknowledged { OnOk result (self.new ≡ record self.old { events = self.old.events ++ event ∷ [] }) }
        ensures settled { OnOk result (IsTrue (D.tells disk.old) → IsSettled D.seen D.may_leave disk.new self.new) }
        ensures durable { OnOk result (IsTrue (D.tells disk.old) → (c : List ℕ) → D.may_leave disk.new c → HasEventsOf self.new c) }
        // A crash at any moment of the call leaves the events from before it, with the new one or without, behind the journal's own head.
        ensures any_moment { IsTrue (D.tells disk.old) → LeavesOnly D.moment D.left_since disk.old disk.new (IsBeforeOrAfter self.old (event_of event)) }
        ensures tells { D.tells disk.new ≡ D.tells disk.old }
        ensures fault { IsErrOf result AppendFault.DiskFault → Rose (D.faults disk.old) (D.faults disk.new) × (self.new ≡ record self.old { usable = false }) }
        ensures full { IsErrOf result AppendFault.Full → self.old.limit < end_after self.old (event_of event) }
        ensures full_always { self.old.limit < end_after self.old (event_of event) → IsErrOf result AppendFault.Full }
        ensures untouched { IsErrOf result AppendFault.Full → (disk.new ≡ disk.old) × (self.new ≡ self.old) }
        ensures untouched_too { IsErrOf result AppendFault.NoMemory → (disk.new ≡ disk.old) × (self.new ≡ self.old) }
        ensures never_falls { D.faults disk.old ≤ D.faults disk.new }
        ensures kept { (IsErrOf result AppendFault.DiskFault → ⊥) → D.faults disk.new ≡ D.faults disk.old }
    {
        let made = make_ready(self.alloc, &mut self.events, self.gate, self.limit, &event);
        let record = match made {
            Ok(record) => record,
            Err(fault) => return Err(fault),
        };
        let Ready { next, bytes } = record;
        match put_whole(disk, self.gate, bytes) {
            Did::Done => {
                self.gate = next;
                self.events.push(event).unwrap();
                Ok(())
            }
            Did::Failed => {
                self.usable = false;
                Err(AppendFault::DiskFault)
            }
        }
    }
}

/// What is ready before an event is put on the disk.
#[derive(Drop)]
struct Ready {
    /// Where the next gate stands behind its record.
    next: u64,
    /// The bytes of its record, and that gate.
    bytes: Text,
}

/// The record of an event, and room for the event among the others. That the journal is full is told whether or not there is memory.
fn make_ready(
    alloc: Global,
    events: &mut Vec<NodeEvent>,
    gate: u64,
    limit: u64,
    event: &NodeEvent,
) -> Result<Ready, AppendFault>
    requires { EventInRange (event_of event.now) }
    ensures next { IfOk result (λ r. (r.next ≡ gate + length (payload_of (event_of event.now)) + 9) × (r.next < limit)) }
    ensures fits { IfOk result (λ r. r.next < 2 ^ 64) }
    ensures bytes { IfOk result (λ r. r.bytes ≡ record_of (event_of event.now) ++ 0 ∷ []) }
    ensures sized { OnOk result (EventSized (event_of event.now)) }
    ensures room { OnOk result (vec_len events.new < vec_capacity events.new) }
    ensures events { events.new.items ≡ events.old.items }
    ensures full { IfErr result (λ e. e ≡ AppendFault.Full → limit < gate + length (payload_of (event_of event.now)) + 10) }
    ensures full_always { IfErr result (λ e. limit < gate + length (payload_of (event_of event.now)) + 10 → e ≡ AppendFault.Full) }
    ensures no_fault { IfErr result (λ e. e ≡ AppendFault.DiskFault → ⊥) }
{
    let count = payload_len(event);
    let next = match next_gate(gate, count, limit) {
        Some(next) => next,
        None => return Err(AppendFault::Full),
    };
    let bytes = record_bytes(alloc, count, event)?;
    events.reserve(1)?;
    Ok(Ready { next, bytes })
}

/// Where the next gate stands behind a record of an event of this length, if it stands within the limit.
fn next_gate(gate: u64, len: u64, limit: u64) -> Option<u64>
    ensures { MatchOption result (limit < gate + len + 10) (λ next. (next ≡ gate + len + 9) × (next < limit)) }
{
    let next = gate.checked_add(RECORD_FRONT as u64)?.checked_add(len)?;
    if next < limit { Some(next) } else { None }
}

/// Starts a journal in a file without a head that begins with these two bytes or has fewer.
fn start<D: Disk>(
    alloc: Global,
    disk: &mut D,
    role: u16,
    text: &[u8],
    bytes: &[u8],
    limit: u64,
) -> Result<Journal, OpenFault>
    requires headless { has_head bytes.now ≡ false }
    requires read { IsTrue (D.tells disk.old) → bytes.now ≡ take 2 (D.seen disk.old) }
    requires durable { IsTrue (D.tells disk.old) → Only (D.seen disk.old) (D.may_leave disk.old) }
    ensures keeps { KeepsJournal ⟦<D as Disk>⟧ role text.now disk.old disk.new }
    ensures opens { Reopens ⟦<D as Disk>⟧ role text.now limit disk.old disk.new result }
{
    let Beginning { text: kept, head } = make_beginning(alloc, role, text, limit)?;
    match put_head(disk, bytes, head) {
        Did::Done => Ok(Journal::made(
            alloc,
            role,
            kept,
            Vec::new(alloc),
            HEAD_FRONT + text.len() as u64,
            limit,
        )),
        Did::Failed => Err(OpenFault::DiskFault),
    }
}

/// Whether this head stands in the file, with a gate behind it.
fn has_this_head<D: Disk>(
    alloc: Global,
    disk: &mut D,
    reader: &mut Reader,
    role: u16,
    text: &[u8],
) -> Result<bool, OpenFault>
    requires { HasRoom reader.old }
    ensures room { HasRoom reader.new }
    ensures reads { (file : List ℕ) → Reads ⟦<D as Disk>⟧ file disk.old reader.old → OnOk result (Reads ⟦<D as Disk>⟧ file disk.new reader.new) }
    ensures own { (file : List ℕ) → Reads ⟦<D as Disk>⟧ file disk.old reader.old → IfOk result (λ own. IsTrue own ↔ HasThisHead role text.now file) }
    ensures only { OnlyReads ⟦<D as Disk>⟧ result disk.old disk.new }
{
    let head = open_head(alloc, role, text)?;
    ask(disk, reader, 0, head.len() + 1)?;
    Ok(goes_on(&reader.asked, &head))
}

/// Whether the gate at a place is open.
fn is_open<D: Disk>(disk: &mut D, reader: &mut Reader, gate: u64) -> Result<bool, OpenFault>
    requires room { HasRoom reader.old }
    requires fits { gate + 1 < 2 ^ 64 }
    ensures reads { (file : List ℕ) → Reads ⟦<D as Disk>⟧ file disk.old reader.old → OnOk result (Reads ⟦<D as Disk>⟧ file disk.new reader.new) }
    ensures open { (file : List ℕ) → Reads ⟦<D as Disk>⟧ file disk.old reader.old → gate < length file → IfOk result (λ is_open. is_open ≡ (get_or file gate 0 == 1)) }
    ensures only { OnlyReads ⟦<D as Disk>⟧ result disk.old disk.new }
{
    ask(disk, reader, gate, 1)?;
    Ok(begins_open(&reader.asked))
}

/// The text of a journal, kept; the events that stand behind its head; and whether the gate behind them is open.
#[derive(Drop)]
struct Known {
    text: Text,
    found: Scanned,
    is_open: bool,
}

/// The events behind the head of this text, which stands in the file.
fn find_events<D: Disk>(
    alloc: Global,
    disk: &mut D,
    reader: &mut Reader,
    text: &[u8],
) -> Result<Known, OpenFault>
    requires { HasRoom reader.old }
    ensures text { IfOk result (λ k. k.text ≡ text.now) }
    ensures place { IfOk result (λ k. (role : ℕ) → k.found.gate ≡ length (front role text.now (events_seen k.found.events.items))) }
    ensures fits { IfOk result (λ k. k.found.gate + 1 < 2 ^ 64) }
    ensures all { IfOk result (λ k. AllEvents (events_seen k.found.events.items)) }
    ensures found { (file : List ℕ) → Reads ⟦<D as Disk>⟧ file disk.old reader.old → (role : ℕ) → HasThisHead role text.now file
        → IfOk result (λ k. Resumed role text.now file k.found.gate (events_seen k.found.events.items)) }
    ensures open { (file : List ℕ) → Reads ⟦<D as Disk>⟧ file disk.old reader.old → (role : ℕ) → HasThisHead role text.now file
        → IfOk result (λ k. k.is_open ≡ (get_or file k.found.gate 0 == 1)) }
    ensures only { OnlyReads ⟦<D as Disk>⟧ result disk.old disk.new }
{
    let text = Text::from_bytes(alloc, text)?;
    let found = scan(alloc, disk, reader, HEAD_FRONT + text.len() as u64)?;
    let is_open = is_open(disk, reader, found.gate)?;
    Ok(Known {
        text,
        found,
        is_open,
    })
}

/// Goes on with a journal whose head stands, and repairs its end.
fn resume<D: Disk>(
    alloc: Global,
    disk: &mut D,
    reader: &mut Reader,
    role: u16,
    text: &[u8],
    limit: u64,
) -> Result<Journal, OpenFault>
    requires room { HasRoom reader.old }
    requires reads { IsTrue (D.tells disk.old) → Reads ⟦<D as Disk>⟧ (D.seen disk.old) disk.old reader.old }
    requires headed { IsTrue (D.tells disk.old) → has_head (D.seen disk.old) ≡ true }
    requires durable { IsTrue (D.tells disk.old) → Only (D.seen disk.old) (D.may_leave disk.old) }
    ensures keeps { KeepsJournal ⟦<D as Disk>⟧ role text.now disk.old disk.new }
    ensures opens { Reopens ⟦<D as Disk>⟧ role text.now limit disk.old disk.new result }
{
    if !has_this_head(alloc, disk, reader, role, text)? {
        return Err(OpenFault::BadHead);
    }
    let Known {
        text: kept,
        found,
        is_open,
    } = find_events(alloc, disk, reader, text)?;
    match end_at(disk, found.gate, is_open) {
        Did::Done => Ok(Journal::made(alloc, role, kept, found.events, found.gate, limit)),
        Did::Failed => Err(OpenFault::DiskFault),
    }
}

/// Opens the journal of this role and text in a file of which a crash leaves nothing else.
fn open_file<D: Disk>(
    alloc: Global,
    disk: &mut D,
    reader: &mut Reader,
    role: u16,
    text: &[u8],
    limit: u64,
) -> Result<Journal, OpenFault>
    requires room { HasRoom reader.old }
    requires reads { IsTrue (D.tells disk.old) → Reads ⟦<D as Disk>⟧ (D.seen disk.old) disk.old reader.old }
    requires durable { IsTrue (D.tells disk.old) → Only (D.seen disk.old) (D.may_leave disk.old) }
    ensures keeps { KeepsJournal ⟦<D as Disk>⟧ role text.now disk.old disk.new }
    ensures opens { Reopens ⟦<D as Disk>⟧ role text.now limit disk.old disk.new result }
{
    ask(disk, reader, 0, 2)?;
    if stands(&reader.asked) {
        resume(alloc, disk, reader, role, text, limit)
    } else {
        start(alloc, disk, role, text, &reader.asked, limit)
    }
}

/// Syncs, and opens the journal of this role and text.
fn open_journal<D: Disk>(
    alloc: Global,
    disk: &mut D,
    role: u16,
    text: &[u8],
    limit: u64,
) -> Result<Journal, OpenFault>
    ensures keeps { KeepsFile ⟦<D as Disk>⟧ role text.now disk.old disk.new }
    ensures opens { Reopens ⟦<D as Disk>⟧ role text.now limit disk.old disk.new result }
{
    match settle(disk) {
        Did::Done => read_and_open(alloc, disk, role, text, limit),
        Did::Failed => Err(OpenFault::DiskFault),
    }
}

/// Reads a file of which a crash leaves nothing else, and opens the journal of this role and text in it.
fn read_and_open<D: Disk>(
    alloc: Global,
    disk: &mut D,
    role: u16,
    text: &[u8],
    limit: u64,
) -> Result<Journal, OpenFault>
    requires { IsTrue (D.tells disk.old) → Only (D.seen disk.old) (D.may_leave disk.old) }
    ensures keeps { KeepsJournal ⟦<D as Disk>⟧ role text.now disk.old disk.new }
    ensures opens { Reopens ⟦<D as Disk>⟧ role text.now limit disk.old disk.new result }
{
    let mut reader = begin(alloc, disk)?;
    open_file(alloc, disk, &mut reader, role, text, limit)
}
