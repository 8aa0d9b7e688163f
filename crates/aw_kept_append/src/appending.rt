//! Appending the event that a frame was.
ghost use Rattle.std.specs.Prelude.{◌≡◌, ⊤, IsTrue, IfOk, IfErr, OnOk, IsErrOf, MatchOption, option_map};
ghost use Rattle.aw_kept_append.specs.Appending.{Appends, Fails};
ghost use Rattle.aw_kept_append.specs.News as kept;
ghost use Rattle.aw_journal.specs.Events.{EventInRange};
ghost use Rattle.aw_journal.specs.EventView.{event_of};
ghost use Rattle.aw_journal.specs.Journal.{IsSettled};
ghost use Rattle.aw_msg.specs.Frames.{FrameInRange};
ghost use Rattle.aw_msg.specs.FrameView.{frame_of};
ghost use Rattle.aw_msg.specs.ResponseView.{response_of};
ghost use Rattle.aw_term.specs.Rules.{Grammar};

use aw_choice::{Answer, copy_choice};
use aw_disk::Disk;
use aw_journal::{AppendFault, Journal, NodeEvent};
use aw_msg::{Answered, Frame, copy_message};
use std::alloc::AllocError;

/// Whether a reply tells of an event: a message was new, or a choice was taken.
pub fn is_news(answered: &Answered) -> bool
    ensures { (g : Grammar) → result ≡ kept.is_news (response_of g answered.now) }
{
    matches!(answered, Answered::New | Answered::Answer(Answer::Taken))
}

/// The event that a frame was by its reply, if it was one.
fn news(frame: &Frame, answered: &Answered) -> Result<Option<NodeEvent>, AllocError>
    requires { FrameInRange (frame_of frame.now) }
    ensures event { IfOk result (λ event. (g : Grammar) → option_map event_of event ≡ kept.event_by (frame_of frame.now) (response_of g answered.now)) }
    ensures range { IfOk result (λ event. MatchOption event ⊤ (λ e. EventInRange (event_of e))) }
{
    if !is_news(answered) {
        return Ok(None);
    }
    match frame {
        Frame::Push(m) => Ok(Some(NodeEvent::Got(copy_message(m)?))),
        Frame::Choose(c) => Ok(Some(NodeEvent::Took(copy_choice(c)?))),
        Frame::Pull(_) | Frame::List(_) => Ok(None),
    }
}

/// Appends the event that a frame was by its reply, if it was one.
pub fn keep<D: Disk>(
    journal: &mut Journal,
    disk: &mut D,
    frame: &Frame,
    answered: &Answered,
) -> Result<(), AppendFault>
    requires usable { IsTrue journal.old.usable }
    requires settled { IsTrue (D.tells disk.old) → IsSettled D.seen D.may_leave disk.old journal.old }
    requires range { FrameInRange (frame_of frame.now) }
    ensures usable { OnOk result (IsTrue journal.new.usable) }
    ensures settled { OnOk result (IsTrue (D.tells disk.new) → IsSettled D.seen D.may_leave disk.new journal.new) }
    ensures ok { (g : Grammar) → OnOk result (Appends ⟦<D as Disk>⟧ (kept.event_by (frame_of frame.now) (response_of g answered.now)) journal.old journal.new disk.old disk.new) }
    ensures err { (g : Grammar) → IfErr result (Fails ⟦<D as Disk>⟧ (kept.event_by (frame_of frame.now) (response_of g answered.now)) journal.old disk.old disk.new) }
    ensures kept { (IsErrOf result AppendFault.DiskFault → ⊥) → D.faults disk.new ≡ D.faults disk.old }
{
    match news(frame, answered)? {
        Some(event) => journal.append(disk, event),
        None => Ok(()),
    }
}
