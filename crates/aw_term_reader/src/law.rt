//! Terms are read just as they are spelled, and what tokens say is sound.
ghost use Rattle.aw_term_reader.specs.Laws.{ReadsSpelled, SpelledIfRead};
ghost use Rattle.aw_term_reader.specs.Sound.{TokensAreSound, TextsAreContents};

/// Reading a list of spelled terms gives the terms, and what was read is spelled so.
pub fn reading_is_spelling()
    ensures reads { ReadsSpelled }
    ensures spelled { SpelledIfRead }
{}

/// Names of tokens are names, and texts in terms are contents.
pub fn tokens_are_sound()
    ensures lexemes { TokensAreSound }
    ensures contents { TextsAreContents }
{}
