//! Small cases of rest that were worked by hand.
ghost use Rattle.aw_law_settling.specs.Worked.{InTurnSettles, StillAndNotQuiet, TooEarlyIsNotFair};

/// A world with loads that is still and not quiet: the answer to a question was overtaken by a call that brought it (`still`). And two
/// schedules of deliveries: one in which each number comes, but one of them only before its message was sent, so that it waits for ever
/// (`too_early`), and one in turn (`in_turn`).
pub fn worked_rest()
    ensures still { StillAndNotQuiet }
    ensures too_early { TooEarlyIsNotFair }
    ensures in_turn { InTurnSettles }
{}
