//! The workspace of a node, made again from the events of its journal.
ghost use Rattle.std.specs.Prelude.{◌≡◌, ℕ, List, [], IfOk, OnErr};
ghost use Rattle.aw_grammar.specs.GrammarOf.{grammar_of};
ghost use Rattle.aw_journal.specs.Events.{Event, EventInRange};
ghost use Rattle.aw_journal.specs.EventView.{event_of};
ghost use Rattle.aw_node.specs.TypedNodes.{rules_of};
ghost use Rattle.aw_typed.specs.Typing.{IsMadeFor};
ghost use Rattle.aw_book_join.specs.Handing.{CountsWrites};
ghost use Rattle.aw_book_join.specs.Writing.{WritesTasks};

use crate::fault::TasksFault;
use crate::tasks::write_tasks;
use crate::view::View;
use aw_accept::Accepted;
use aw_cells::CellFacts;
use aw_journal::NodeEvent;
use aw_kept_node::redo;
use aw_out::Sink;
use aw_site::Site;
use aw_typed::Typed;
use std::alloc::{AllocError, Global};

/// What the workspace of a node is behind the events of its journal that were done again so far, in their order, as the node itself does
/// them when it is started.
#[derive(Drop)]
pub struct Replica<'g> {
    pub(crate) accepted: &'g Accepted,
    pub(crate) typed: &'g Typed,
    pub(crate) site: Site<'g, CellFacts>,
}

impl<'g> Replica<'g> {
    ghost use Rattle.aw_book_join.specs.Replicas.{rules_in, site_of, IsUsable, IsReplica, Follows};

    /// No event was done again.
    pub fn new(alloc: Global, accepted: &'g Accepted, typed: &'g Typed, role: u16) -> Replica<'g>
        requires { IsMadeFor (grammar_of accepted.now.grammar) typed.now }
        ensures usable { IsUsable result }
        ensures rules { rules_in result ≡ rules_of accepted.now.grammar typed.now }
        ensures empty { IsReplica result role [] }
    {
        Replica {
            accepted,
            typed,
            site: Site::new(alloc, accepted, role, CellFacts::new(alloc), true),
        }
    }

    /// Does the next event again, and tells whether it was one: its choice was taken, or its message was new. What was none changes nothing.
    ///
    /// # Errors
    /// Where memory runs out; nothing has changed then.
    pub fn redo(&mut self, event: &NodeEvent) -> Result<bool, AllocError>
        requires usable { IsUsable self.old }
        requires range { EventInRange (event_of event.now) }
        ensures usable { IsUsable self.new }
        ensures rules { rules_in self.new ≡ rules_in self.old }
        ensures grammar { self.new.accepted.now ≡ self.old.accepted.now }
        ensures redone { (role : ℕ) (events : List Event) → IsReplica self.old role events → IfOk result (Follows self.new role events (event_of event.now)) }
        ensures err { (role : ℕ) (events : List Event) → IsReplica self.old role events → OnErr result (IsReplica self.new role events) }
    {
        redo(self.accepted, self.typed, &mut self.site, event)
    }

    /// Writes the tasks that are asked for, and how each rule stands at the open ones, as `write_tasks` does.
    ///
    /// # Errors
    /// As `write_tasks`.
    pub fn write_tasks<K: Sink>(
        &self,
        alloc: Global,
        view: &View,
        out: &mut K,
    ) -> Result<(), TasksFault>
        requires { IsUsable self.now }
        ensures writes { (role : ℕ) (events : List Event) → IsReplica self.now role events →
            WritesTasks self.now.accepted.now.grammar view.now (site_of (rules_in self.now) role events) (K.written out.old) (K.written out.new) result }
        ensures counts { CountsWrites (K.faults out.old) (K.faults out.new) result }
    {
        write_tasks(alloc, self.accepted, &self.site, view, out)
    }
}
