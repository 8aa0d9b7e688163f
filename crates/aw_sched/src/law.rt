//! Lines are read just as they are spelled.
ghost use Rattle.aw_sched.specs.Laws.{ReadsSpelledLines, SpelledIfReadLines};

/// The tokens that spell a line of a schedule give it, and what was read is spelled so.
pub fn reading_is_spelling()
    ensures reads { ReadsSpelledLines }
    ensures spelled { SpelledIfReadLines }
{}
