//! Small cases that were worked by hand, on the clinic and its laboratory.
ghost use Rattle.aw_law_cases.specs.Worked.{FirstVisitAlone, MixedMessagesTie, NewMixedOneTies, RefusedOneDoesNothing};

/// The events of one of two visits, with the numbers that its messages have by themselves (`alone`); and a forged message that names
/// both visits, which is refused where both are held and new where one is (`mixed`).
pub fn worked_visits()
    ensures alone { FirstVisitAlone }
    ensures mixed { MixedMessagesTie }
{}

/// That message once more. Where it is refused it does nothing, though it names both visits (`refused`); where it comes first it is new, and the visit that
/// it ties to the other one learns of a result there that its own messages never told (`new`).
pub fn worked_ties()
    ensures refused { RefusedOneDoesNothing }
    ensures new { NewMixedOneTies }
{}
