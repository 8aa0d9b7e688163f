//! The events of a journal that are about one case; and the journal of a role that has none.
ghost use Rattle.std.specs.Prelude.{◌≡◌, IfOk, MatchOption, ⊤};
ghost use Rattle.aw_journal.specs.Events.{IsEvent};
ghost use Rattle.aw_journal.specs.EventView.{event_of};
ghost use Rattle.aw_book_drive.specs.Selecting.{node_in, is_in_case, is_selected, GivesSelected, SelectedGives, faults_of};
ghost use Rattle.aw_book_drive.specs.SourceLaws.{selected_some};
ghost use Rattle.aw_book_drive.specs.Sources.{Gives, CountsReads};

use crate::source::{EventSource, SourceFault};
use aw_choice::Choice;
use aw_journal::NodeEvent;
use aw_msg::MsgKind;
use aw_name::Node;
use std::alloc::Global;

/// A case: its start sort, by number from 0, and the number of the case.
#[derive(Clone, Copy, Debug, PartialEq, Eq)]
pub struct OneCase {
    pub sort: u16,
    pub number: u64,
}

/// The events of a source that are about one case, or all where none is named. Where a role has no journal, there are none.
#[derive(Drop)]
pub struct Selected<S> {
    pub source: Option<S>,
    pub case: Option<OneCase>,
}

/// Whether a node is one of a case.
fn is_in_case(case: &OneCase, node: &Node) -> bool
    ensures { result ≡ is_in_case case.now node.now }
{
    case.sort == node.start && case.number == node.case
}

/// The node that a message is about.
fn node_in(kind: &MsgKind) -> &Node
    ensures { result.now ≡ node_in kind.now }
{
    match kind {
        MsgKind::Call { node, .. } => node,
        MsgKind::Ask { reference, .. } => &reference.node,
        MsgKind::Tell { equation, .. } => &equation.left.node,
    }
}

/// Whether an event is about a case, or any is asked for.
fn is_selected(case: &Option<OneCase>, event: &NodeEvent) -> bool
    ensures { result ≡ is_selected case.now (event_of event.now) }
{
    let Some(case) = case else {
        return true;
    };
    match event {
        NodeEvent::Took(Choice::Start { sort, case: number }) => {
            case.sort == *sort && case.number == *number
        }
        NodeEvent::Took(Choice::Develop { node, .. }) => is_in_case(case, node),
        NodeEvent::Got(message) => is_in_case(case, node_in(message.kind.get())),
    }
}

/// The next event of a source that is asked for.
fn next_selected<S: EventSource>(
    alloc: Global,
    source: &mut S,
    case: &Option<OneCase>,
) -> Result<Option<NodeEvent>, SourceFault>
    ensures given { IfOk result (Gives (GivesSelected S.gives case.now) source.old source.new) }
    ensures event { IfOk result (λ found. MatchOption found ⊤ (λ e. IsEvent (event_of e))) }
    ensures counts { CountsReads (S.faults source.old) (S.faults source.new) result }
{
    for number in 0..u64::MAX {
        let Some(event) = source.next(alloc)? else {
            return Ok(None);
        };
        if is_selected(case, &event) {
            return Ok(Some(event));
        }
    }
    // No journal has so many events.
    Err(SourceFault::NoMemory)
}

impl<S: EventSource> EventSource for Selected<S> {
    ghost gives = { λ x events. SelectedGives S.gives x events };

    ghost faults = { λ x. faults_of S.faults x.source };

    fn next(&mut self, alloc: Global) -> Result<Option<NodeEvent>, SourceFault> {
        match &mut self.source {
            Some(source) => next_selected(alloc, source, &self.case),
            None => Ok(None),
        }
    }

    ghost some = { λ x. selected_some S.gives S.some x };
}
