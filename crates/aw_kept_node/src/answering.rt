//! Answering a frame, whose event is appended first.
ghost use Rattle.std.specs.Prelude.{◌≡◌, IsTrue, IfOk, IfErr, OnOk, IsErrOf};
ghost use Rattle.aw_kept_append.specs.Appending.{Appends, Fails};
ghost use Rattle.aw_kept_append.specs.News.{event_by};
ghost use Rattle.aw_kept_node.specs.Answering.{AnswersAndKeepsBy, FailsAsSeen};
ghost use Rattle.aw_journal.specs.Journal.{IsSettled};
ghost use Rattle.aw_msg.specs.Frames.{FrameInRange};
ghost use Rattle.aw_msg.specs.FrameView.{frame_of};
ghost use Rattle.aw_msg.specs.Replies.{spelled_reply};
ghost use Rattle.aw_msg.specs.ReplyRanges.{ReplyInRange};
ghost use Rattle.aw_msg.specs.ResponseView.{response_of};
ghost use Rattle.aw_grammar.specs.GrammarOf.{grammar_of, words_of};
ghost use Rattle.aw_node.specs.TypedNodes.{rules_of};
ghost use Rattle.aw_term.specs.Rules.{Grammar};
ghost use Rattle.aw_typed.specs.Typing.{IsMadeFor};

use aw_accept::Accepted;
use aw_disk::Disk;
use aw_journal::{AppendFault, Journal};
use aw_kept_append::keep;
use aw_list::Text;
use aw_msg::{Answered, Frame, reply_bytes};
use aw_node::{NodeWorkspace, handle};
use aw_typed::Typed;
use std::alloc::Global;

/// Appends what a frame was by its reply, and makes the bytes of the reply.
fn keep_and_tell<D: Disk>(
    alloc: Global,
    accepted: &Accepted,
    journal: &mut Journal,
    disk: &mut D,
    frame: &Frame,
    answered: &Answered,
) -> Result<Text, AppendFault>
    requires usable { IsTrue journal.old.usable }
    requires settled { IsTrue (D.tells disk.old) → IsSettled D.seen D.may_leave disk.old journal.old }
    requires range { FrameInRange (frame_of frame.now) }
    requires reply { ReplyInRange answered.now }
    ensures usable { OnOk result (IsTrue journal.new.usable) }
    ensures settled { OnOk result (IsTrue (D.tells disk.new) → IsSettled D.seen D.may_leave disk.new journal.new) }
    ensures bytes { IfOk result (λ text. text ≡ spelled_reply (words_of accepted.now.grammar) (response_of (grammar_of accepted.now.grammar) answered.now)) }
    ensures ok { (g : Grammar) → OnOk result (Appends ⟦<D as Disk>⟧ (event_by (frame_of frame.now) (response_of g answered.now)) journal.old journal.new disk.old disk.new) }
    ensures err { (g : Grammar) → IfErr result (Fails ⟦<D as Disk>⟧ (event_by (frame_of frame.now) (response_of g answered.now)) journal.old disk.old disk.new) }
    ensures kept { (IsErrOf result AppendFault.DiskFault → ⊥) → D.faults disk.new ≡ D.faults disk.old }
{
    match keep(journal, disk, frame, answered) {
        Ok(()) => match reply_bytes(alloc, accepted.grammar(), answered) {
            Ok(reply) => Ok(reply),
            Err(_) => Err(AppendFault::NoMemory),
        },
        Err(fault) => Err(fault),
    }
}

/// Answers a frame: what it was is on the disk before its reply is handed out.
pub(crate) fn answer<P: NodeWorkspace, D: Disk>(
    alloc: Global,
    accepted: &Accepted,
    typed: &Typed,
    site: &mut P,
    journal: &mut Journal,
    disk: &mut D,
    frame: &Frame,
) -> Result<Text, AppendFault>
    requires grammar { accepted.now.grammar ≡ P.grammar site.old }
    requires types { IsMadeFor (grammar_of accepted.now.grammar) typed.now }
    requires usable { IsTrue journal.old.usable }
    requires settled { IsTrue (D.tells disk.old) → IsSettled D.seen D.may_leave disk.old journal.old }
    requires range { FrameInRange (frame_of frame.now) }
    ensures grammar { P.grammar site.new ≡ P.grammar site.old }
    ensures usable { OnOk result (IsTrue journal.new.usable) }
    ensures settled { OnOk result (IsTrue (D.tells disk.new) → IsSettled D.seen D.may_leave disk.new journal.new) }
    ensures ok { IfOk result (AnswersAndKeepsBy ⟦<D as Disk>⟧ accepted.now typed.now frame.now (P.shows site.old) (P.shows site.new) journal.old journal.new disk.old disk.new) }
    ensures err { IfErr result (FailsAsSeen ⟦<D as Disk>⟧ (rules_of accepted.now.grammar typed.now) (frame_of frame.now) (P.shows site.old) journal.old disk.old disk.new) }
    ensures kept { (IsErrOf result AppendFault.DiskFault → ⊥) → D.faults disk.new ≡ D.faults disk.old }
{
    let answered = handle(accepted, typed, site, frame)?;
    let reply = keep_and_tell(alloc, accepted, journal, disk, frame, &answered);
    drop(answered);
    reply
}
