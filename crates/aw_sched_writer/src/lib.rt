//! Schedules written. What is written for events is read as these events: `specs/EventTexts.antt` says how each is laid out.
#![tactic(auto)]

mod arguments;
mod events;
mod law;

pub use events::{push_asked, push_asked_line, push_deliver_line, push_event_line};
pub use law::{written_events_are_read, written_schedule_is_read};
