//! A workspace with its journal: what each frame was is on the disk before the frame gets its reply.
ghost use Rattle.std.specs.Prelude.{◌≡◌};
ghost use Rattle.aw_grammar.specs.GrammarOf.{grammar_of};
ghost use Rattle.aw_typed.specs.Typing.{IsMadeFor};

use crate::answering::answer;
use aw_accept::Accepted;
use aw_disk::Disk;
use aw_journal::{AppendFault, Journal};
use aw_list::Text;
use aw_msg::Frame;
use aw_node::NodeWorkspace;
use aw_session::Handles;
use aw_typed::Typed;
use std::alloc::{AllocError, Global};

/// A frame got no reply; the node says why.
#[derive(Clone, Copy, Debug, PartialEq, Eq)]
pub struct Unanswered;

impl From<AllocError> for Unanswered {
    fn from(_: AllocError) -> Self {
        Unanswered
    }
}

/// A borrowed workspace of a role, with the grammar and the types that it was made for, its journal, and the disk that this stands on.
#[derive(Drop)]
pub struct KeptNode<'g, 'd, P, D> {
    alloc: Global,
    accepted: &'g Accepted,
    typed: &'g Typed,
    site: &'d mut P,
    journal: &'d mut Journal,
    disk: &'d mut D,
    /// Why a frame got no reply: out of memory, until the journal says otherwise.
    pub(crate) reason: AppendFault,
}

impl<'g, 'd, P, D> KeptNode<'g, 'd, P, D> {
    /// The node of a workspace and its journal. It takes no memory.
    pub(crate) fn new(
        alloc: Global,
        accepted: &'g Accepted,
        typed: &'g Typed,
        site: &'d mut P,
        journal: &'d mut Journal,
        disk: &'d mut D,
    ) -> KeptNode<'g, 'd, P, D>
        ensures accepted { result.accepted.now ≡ accepted.now }
        ensures typed { result.typed.now ≡ typed.now }
        ensures site { result.site.now ≡ site.old }
        ensures journal { result.journal.now ≡ journal.old }
        ensures disk { result.disk.now ≡ disk.old }
        ensures same_disk { result.disk.ghost_name ≡ disk.entry.ghost_name }
        ensures reason { result.reason ≡ AppendFault.NoMemory }
    {
        KeptNode {
            alloc,
            accepted,
            typed,
            site,
            journal,
            disk,
            reason: AppendFault::NoMemory,
        }
    }
}

impl<P: NodeWorkspace, D: Disk> Handles for KeptNode<'_, '_, P, D> {
    ghost use Rattle.std.specs.Prelude.{◌≢◌, IsTrue};
    ghost use Rattle.aw_kept_node.specs.Answering.{AnswersAndKeeps, FailsAsSeen};
    ghost use Rattle.aw_journal.specs.Journal.{IsSettled};
    ghost use Rattle.aw_journal.specs.declared.journal.AppendFault.TheVariants.{DiskFault, NoMemory};
    ghost use Rattle.aw_node.specs.TypedNodes.{rules_of};

    type Fault = Unanswered;

    ghost ready = { λ n. (P.grammar n.site.now ≡ n.accepted.now.grammar) × IsMadeFor (grammar_of n.accepted.now.grammar) n.typed.now
        × IsTrue n.journal.now.usable × (IsTrue (D.tells n.disk.now) → IsSettled D.seen D.may_leave n.disk.now n.journal.now) × (n.reason ≡ NoMemory) };

    ghost answers = { λ n f x m.
        AnswersAndKeeps ⟦<D as Disk>⟧ (rules_of n.accepted.now.grammar n.typed.now) f (P.shows n.site.now) (P.shows m.site.now) n.journal.now m.journal.now n.disk.now m.disk.now x
        × (m.accepted.now ≡ n.accepted.now) × (m.typed.now ≡ n.typed.now) × (m.disk.ghost_name ≡ n.disk.ghost_name) × (m.reason ≡ n.reason)
        × (D.faults m.disk.now ≡ D.faults n.disk.now) };

    ghost breaks = { λ n f e m. FailsAsSeen ⟦<D as Disk>⟧ (rules_of n.accepted.now.grammar n.typed.now) f (P.shows n.site.now) n.journal.now n.disk.now m.disk.now m.reason
        × (m.disk.ghost_name ≡ n.disk.ghost_name) × (m.reason ≢ DiskFault → D.faults m.disk.now ≡ D.faults n.disk.now) };

    fn reply_to(&mut self, frame: &Frame) -> Result<Text, Unanswered> {
        match answer(
            self.alloc,
            self.accepted,
            self.typed,
            self.site,
            self.journal,
            self.disk,
            frame,
        ) {
            Ok(reply) => Ok(reply),
            Err(reason) => {
                self.reason = reason;
                Err(Unanswered)
            }
        }
    }
}
