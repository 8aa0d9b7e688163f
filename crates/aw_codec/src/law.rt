//! Each choice has one spelling.
ghost use Rattle.aw_codec.specs.Choices.{choice, spelled_choice};
ghost use Rattle.aw_codec.specs.Ranges.{ChoiceSized, ChoiceInRange};
ghost use Rattle.aw_codec.specs.OneSpelling.{ReadsSpelled, SpelledIfRead, NoneBeginsAnother, CutIsShort};

/// Choices are read as they are spelled, no spelling begins another one, and one that is cut short needs more bytes.
pub fn choices_have_one_spelling()
    ensures again { ReadsSpelled choice spelled_choice ChoiceSized ChoiceInRange }
    ensures spelled { SpelledIfRead choice spelled_choice ChoiceSized ChoiceInRange }
    ensures apart { NoneBeginsAnother spelled_choice ChoiceSized ChoiceInRange }
    // What is cut short needs more bytes.
    ensures cut { CutIsShort choice spelled_choice ChoiceSized ChoiceInRange }
{}
