//! Which event of a journal sends a message.
ghost use Rattle.std.specs.Prelude.{◌≡◌};
ghost use Rattle.aw_grammar.specs.GrammarOf.{grammar_of};
ghost use Rattle.aw_journal.specs.Events.{EventInRange};
ghost use Rattle.aw_journal.specs.EventView.{event_of};
ghost use Rattle.aw_typed.specs.Typing.{IsMadeFor};

use crate::faults::BookStop;
use aw_cells::CellFacts;
use aw_disk::Pages;
use aw_front::Opened;
use aw_journal::{Begun, NodeEvent, ReadFault, Records};
use aw_kept_node::redo;
use aw_msg::Message;
use aw_site::Site;
use std::alloc::Global;

/// Whether a message stands among these from a place on.
fn has_from(messages: &[Message], from: usize, message: &Message) -> bool {
    for place in from..messages.len() {
        if messages[place] == *message {
            return true;
        }
    }
    false
}

/// Whether an event, done again, sends a message. Nothing where it is none.
fn sends(
    opened: &Opened,
    site: &mut Site<'_, CellFacts>,
    event: &NodeEvent,
    message: &Message,
) -> Result<Option<bool>, BookStop>
    requires grammar { opened.now.accepted.grammar ≡ site.old.space.accepted.now.grammar }
    requires types { IsMadeFor (grammar_of opened.now.accepted.grammar) opened.now.typed }
    requires range { EventInRange (event_of event.now) }
    ensures { site.new.space.accepted.now.grammar ≡ site.old.space.accepted.now.grammar }
{
    let before = site.outbox().len();
    if !redo(&opened.accepted, &opened.typed, site, event)? {
        return Ok(None);
    }
    Ok(Some(has_from(site.outbox(), before, message)))
}

/// The event, from 1, with which the workspace of a role sends a message as its journal is done again; nothing where it does not, or the
/// journal cannot be read.
pub fn find_sending<P: Pages>(
    alloc: Global,
    opened: &Opened,
    pages: &mut P,
    role: u16,
    message: &Message,
) -> Result<Option<u64>, BookStop>
    requires { IsMadeFor (grammar_of opened.now.accepted.grammar) opened.now.typed }
{
    let mut records = match Records::begin(alloc, pages) {
        Ok(Begun::Whole { records, .. }) => records,
        Ok(Begun::Headless { .. }) | Err(ReadFault::Failed) => return Ok(None),
        Err(ReadFault::NoMemory) => return Err(BookStop::NoMemory),
    };
    let mut site = Site::new(alloc, &opened.accepted, role, CellFacts::new(alloc), true);
    let mut number = 0u64;
    'events: loop {
        match records.next(alloc, pages) {
            Ok(Some(event)) => {
                number = number.saturating_add(1);
                match sends(opened, &mut site, &event, message)? {
                    Some(true) => return Ok(Some(number)),
                    Some(false) => {}
                    None => return Ok(None),
                }
            }
            Ok(None) | Err(ReadFault::Failed) => return Ok(None),
            Err(ReadFault::NoMemory) => return Err(BookStop::NoMemory),
        }
    }
}
