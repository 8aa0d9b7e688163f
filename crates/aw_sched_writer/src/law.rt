//! What is written is read again.
ghost use Rattle.aw_sched_writer.specs.Laws.{WrittenEventsAreRead, WrittenScheduleIsRead};

/// The lines that are written for events are read as these events.
pub fn written_events_are_read()
    ensures { WrittenEventsAreRead }
{}

/// Behind the text of a specification and the line `schedule` or `schedule 2`, both are read again: the specification, and the events.
pub fn written_schedule_is_read()
    ensures { WrittenScheduleIsRead }
{}
