//! A small case that was worked by hand, on a disk that keeps nothing.
ghost use Rattle.aw_law_kept_system.specs.Worked.{NothingIsAnswered, UnansweredMayGo};

/// A node on a disk that keeps nothing may take a choice and lose it by a crash, where no byte of the answer is written (`may_go`); and it can write none, as a
/// kept node writes an answer only when the choice is safe (`nothing`).
pub fn worked_disk()
    ensures may_go { UnansweredMayGo }
    ensures nothing { NothingIsAnswered }
{}
