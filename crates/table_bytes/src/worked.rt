//! The worked session: a journal is opened, two events are appended, and it is opened again.
ghost use Rattle.std.specs.Prelude.{IfOk, IsTrue, OnOk};
ghost use Rattle.aw_journal.specs.Journal.{IsSettled};
ghost use Rattle.aw_journal.specs.Events.{EventInRange};
ghost use Rattle.aw_journal.specs.EventView.{event_of};

use aw_choice::Choice;
use aw_disk::Disk;
use aw_journal::{AppendFault, Journal, NodeEvent, OpenFault};
use aw_msg::{Message, MsgKind};
use aw_name::{Node, Ref, Slot, Trail};
use std::alloc::{AllocError, Global};

/// The role of the head.
pub const ROLE: u16 = 2;

/// The most bytes of a file.
pub const LIMIT: u64 = 1000;

/// The text of the head.
pub fn head_text() -> &'static [u8] {
    b"ab"
}

/// Case 7 of the first sort is started.
fn start_event() -> NodeEvent
    ensures { EventInRange (event_of result) }
{
    NodeEvent::Took(Choice::Start { sort: 0, case: 7 })
}

/// The third role asks the second one for the first result of case 9 of the second sort.
fn ask_event(alloc: Global) -> Result<NodeEvent, AllocError>
    ensures { IfOk result (λ event. EventInRange (event_of event)) }
{
    let node = Node {
        start: 1,
        case: 9,
        steps: Trail::new(alloc),
    };
    let reference = Ref {
        node,
        slot: Slot::Result(1),
    };
    let kind = MsgKind::Ask { reference, from: 2 };
    Ok(NodeEvent::Got(Message::new(alloc, 1, kind)?))
}

/// Where a session ended.
#[derive(Clone, Copy)]
pub enum End {
    Whole,
    Opening(OpenFault),
    Appending(AppendFault),
}

/// How many events were acknowledged in a session, and where it ended.
#[derive(Clone, Copy)]
pub struct Came {
    pub acknowledged: usize,
    pub end: End,
}

fn end_at(acknowledged: usize, end: End) -> Came {
    Came { acknowledged, end }
}

/// Appends an event. It stands apart, since most of what `append` promises is asked for by nobody here.
fn append_one<D: Disk>(
    disk: &mut D,
    journal: &mut Journal,
    event: NodeEvent,
) -> Result<(), AppendFault>
    requires usable { IsTrue journal.old.usable }
    requires settled { IsTrue (D.tells disk.old) → IsSettled D.seen D.may_leave disk.old journal.old }
    requires event { EventInRange (event_of event) }
    ensures usable { OnOk result (IsTrue journal.new.usable) }
    ensures settled { OnOk result (IsTrue (D.tells disk.new) → IsSettled D.seen D.may_leave disk.new journal.new) }
{
    journal.append(disk, event)
}

/// Appends both events; where one is not acknowledged, how far it came.
fn append_all<D: Disk>(alloc: Global, disk: &mut D, journal: &mut Journal) -> Option<Came>
    requires usable { IsTrue journal.old.usable }
    requires settled { IsTrue (D.tells disk.old) → IsSettled D.seen D.may_leave disk.old journal.old }
{
    let question = match ask_event(alloc) {
        Ok(event) => event,
        Err(_) => return Some(end_at(0, End::Appending(AppendFault::NoMemory))),
    };
    match append_one(disk, journal, start_event()) {
        Ok(()) => match append_one(disk, journal, question) {
            Ok(()) => None,
            Err(fault) => Some(end_at(1, End::Appending(fault))),
        },
        Err(fault) => Some(end_at(0, End::Appending(fault))),
    }
}

/// Opens the file again, and counts its events.
fn reopened<D: Disk>(alloc: Global, disk: &mut D, limit: u64) -> Came {
    match Journal::reopen(alloc, disk, ROLE, head_text(), limit) {
        Ok(again) => end_at(again.events().len(), End::Whole),
        Err(fault) => end_at(2, End::Opening(fault)),
    }
}

/// Opens a file, and appends both events; where that did not come to its end, how far it came.
fn appended<D: Disk>(alloc: Global, disk: &mut D, limit: u64) -> Option<Came> {
    match Journal::reopen(alloc, disk, ROLE, head_text(), limit) {
        Ok(mut journal) => append_all(alloc, disk, &mut journal),
        Err(fault) => Some(end_at(0, End::Opening(fault))),
    }
}

/// Runs the session within a limit of bytes.
pub fn run_session<D: Disk>(alloc: Global, disk: &mut D, limit: u64) -> Came {
    match appended(alloc, disk, limit) {
        Some(came) => came,
        None => reopened(alloc, disk, limit),
    }
}
