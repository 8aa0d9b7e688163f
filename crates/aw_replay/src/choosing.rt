//! The choices among events.
ghost use Rattle.std.specs.Prelude.{◌≡◌, IfOk};
ghost use Rattle.aw_replay.specs.Choosing.{is_choice, choices_among};

use aw_list::Items;
use aw_sched::{Event, Events};
use std::alloc::{AllocError, Global};

/// Whether an event is a choice.
fn is_choice(event: &Event) -> bool
    ensures { result ≡ is_choice event.now }
{
    matches!(event, Event::Choose(_))
}

/// A copy of an event, which shares the memory of a choice.
fn copy_event(event: &Event) -> Result<Event, AllocError>
    ensures { IfOk result (λ copy. copy ≡ event.now) }
{
    match event {
        Event::Choose(choice) => Ok(Event::Choose(choice.clone()?)),
        Event::Deliver(message) => Ok(Event::Deliver(*message)),
        Event::Settle => Ok(Event::Settle),
        Event::List(role) => Ok(Event::List(*role)),
    }
}

/// Copies of the events that are choices, in their order.
pub(crate) fn choices_among(alloc: Global, events: &[Event]) -> Result<Events, AllocError>
    ensures { IfOk result (λ choices. choices ≡ choices_among events.now) }
{
    let mut choices = Items::new(alloc);
    for event in events {
        if is_choice(event) {
            choices.push(copy_event(event)?)?;
        }
    }
    Ok(choices)
}
