//! Small systems that were worked by hand.
ghost use Rattle.aw_law_system.specs.Worked.{CarriesThroughCrashes, LateChoicesAreNew, NobodyCalled, PulledStays, UnansweredMayGo};

/// A choice of whose answer no byte was written may be lost (`may_go`), until what it sent was pulled (`stays`): if it were lost then, another office
/// would work on a task that nobody called (`nobody`).
pub fn worked_crash()
    ensures may_go { UnansweredMayGo }
    ensures stays { PulledStays }
    ensures nobody { NobodyCalled }
{}

/// Two rounds of a courier that end quiet, with crashes and another courier in between, after which each message is a repeat (`quiet`); and
/// the same rounds with a choice that is taken in the last one, after which some are new (`late`).
pub fn worked_courier()
    ensures quiet { CarriesThroughCrashes }
    ensures late { LateChoicesAreNew }
{}
