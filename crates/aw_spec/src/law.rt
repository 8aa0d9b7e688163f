//! Lines are read just as they are spelled.
ghost use Rattle.aw_spec.specs.Laws.{ReadsSpelledLines, SpelledIfReadLines, TypesFitIfRead};

/// The tokens that spell a line give it, and what was read is spelled so.
pub fn reading_is_spelling()
    ensures reads { ReadsSpelledLines }
    ensures spelled { SpelledIfReadLines }
{}

/// The types of a specification that was read fit what it declares, and so do its dependences.
pub fn types_fit_if_read()
    ensures { TypesFitIfRead }
{}
