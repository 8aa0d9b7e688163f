//! Events of a node as bytes: exactly one choice, or one message.
ghost use Rattle.std.specs.Prelude.{◌≡◌, ◌++◌, ◌∷◌, [], length, option_map, ⊤, IfOk, OnOk, MatchOption};
ghost use Rattle.aw_journal.specs.Events as spec;
ghost use Rattle.aw_journal.specs.EventView.{event_of};
ghost use Rattle.aw_journal.specs.Format.{record_of};

use aw_choice::Choice;
use aw_codec::add_choice;
use aw_codec::writing::{add_byte, add_u64};
use aw_list::Text;
use aw_msg::Message;
use aw_msg::frame_reading::{whole_choice, whole_message};
use aw_msg::writing::add_message;
use std::alloc::{AllocError, Global};

/// What a node did: it took a choice, or got a message.
#[derive(Debug, Clone, PartialEq, Eq, Drop)]
pub enum NodeEvent {
    Took(Choice),
    Got(Message),
}

/// The event that a payload exactly is.
#[tactic(auto, unfolding(crate::specs::Events::event_in))]
fn event_in(alloc: Global, payload: &[u8]) -> Result<Option<NodeEvent>, AllocError>
    ensures { IfOk result (λ found. spec.event_in payload.now ≡ option_map event_of found) }
{
    match payload {
        [1, bytes @ ..] => match whole_choice(alloc, bytes)? {
            Some(choice) => Ok(Some(NodeEvent::Took(choice))),
            None => Ok(None),
        },
        [2, bytes @ ..] => match whole_message(alloc, bytes)? {
            Some(message) => Ok(Some(NodeEvent::Got(message))),
            None => Ok(None),
        },
        [] => Ok(None),
        [_, ..] => Ok(None),
    }
}

/// The same, with the event's spelling, sizes and ranges.
pub(crate) fn read_event(alloc: Global, payload: &[u8]) -> Result<Option<NodeEvent>, AllocError>
    ensures found { IfOk result (λ found. spec.event_in payload.now ≡ option_map event_of found) }
    ensures spelled { IfOk result (λ found. MatchOption found ⊤ (λ e. (payload.now ≡ spec.payload_of (event_of e)) × spec.IsEvent (event_of e))) }
{
    event_in(alloc, payload)
}

/// Adds the payload of an event.
fn add_payload(text: &mut Text, event: &NodeEvent) -> Result<(), AllocError>
    requires { spec.EventInRange (event_of event.now) }
    ensures ok { OnOk result (text.new ≡ text.old ++ spec.payload_of (event_of event.now)) }
    ensures sized { OnOk result (spec.EventSized (event_of event.now)) }
{
    match event {
        NodeEvent::Took(choice) => {
            add_byte(text, 1)?;
            add_choice(text, choice)
        }
        NodeEvent::Got(message) => {
            add_byte(text, 2)?;
            add_message(text, message)
        }
    }
}

/// The record of an event whose payload has this length, behind its gate, and a closed gate behind it.
#[tactic(auto, unfolding(crate::specs::Format::u64_bytes))]
pub(crate) fn record_bytes(alloc: Global, count: u64, event: &NodeEvent) -> Result<Text, AllocError>
    requires range { spec.EventInRange (event_of event.now) }
    requires count { count ≡ length (spec.payload_of (event_of event.now)) }
    ensures bytes { IfOk result (λ bytes. bytes ≡ record_of (event_of event.now) ++ 0 ∷ []) }
    ensures sized { OnOk result (spec.EventSized (event_of event.now)) }
{
    let mut bytes = Text::new(alloc);
    add_u64(&mut bytes, count)?;
    add_payload(&mut bytes, event)?;
    add_byte(&mut bytes, 0)?;
    Ok(bytes)
}
