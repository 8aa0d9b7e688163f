//! What a schedule asks for.
ghost use Rattle.std.specs.Prelude.{◌≡◌, IfOk};

use aw_base::{Choice, Items};
use aw_list::Counted;
use std::alloc::{AllocError, Global};

/// One event of a schedule.
#[derive(Debug, PartialEq, Eq, Drop)]
pub enum Event {
    /// A user makes a choice. It has memory of its own, so that an event is small and its copies are counts.
    Choose(Counted<Choice>),
    /// A message is delivered, by its number.
    Deliver(u64),
    /// Every message is delivered, until none is left.
    Settle,
    /// The worklist of a role is told.
    List(u16),
}

impl Event {
    ghost use Rattle.aw_sched.specs.declared.event.Event.TheVariants.{Choose};

    /// The event that a user makes this choice.
    pub fn of_choice(alloc: Global, choice: Choice) -> Result<Event, AllocError>
        ensures { IfOk result (λ event. event ≡ Choose choice) }
    {
        Ok(Event::Choose(Counted::new(alloc, choice)?))
    }
}

/// What a schedule asks for, in its order.
pub type Events = Items<Event>;
