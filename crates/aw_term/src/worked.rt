//! Cases that were worked by hand: the definitions compute just what stands in them.
ghost use Rattle.aw_term.specs.Worked.{Memo, MemoOdd, HoleFirst, OwnResult, Doubling};

/// The answers and the artifact text of five small cases, by the definitions alone.
pub fn worked_cases()
    ensures memo { Memo }
    ensures memo_odd { MemoOdd }
    ensures hole_first { HoleFirst }
    ensures own_result { OwnResult }
    ensures doubling { Doubling }
{}
