//! What the grammar with one role has in common with the one that it was made from, apart from any code.
ghost use Rattle.aw_term.specs.Artifacts.{Words};
ghost use Rattle.aw_term.specs.Rules as P;
ghost use Rattle.aw_replay.specs.UnitedLaws.{StaysWellFormed, TakesSameChoices, HasSameDependence, HasSameCircles, TellsTheSame};

/// With one role alone a grammar stays well formed (`formed`), the same choices may be asked of it (`choices`), the same results
/// depend on the same inherited values (`dependence`), so that it has a circle where it had one (`circles`), and the undivided run
/// tells the same of the same choices (`plain`).
pub fn united_laws()
    ensures formed { (w : Words) (g : P.Grammar) → StaysWellFormed w g }
    ensures choices { (g : P.Grammar) → TakesSameChoices g }
    ensures dependence { (g : P.Grammar) → HasSameDependence g }
    ensures circles { (g : P.Grammar) → HasSameCircles g }
    ensures plain { (w : Words) (g : P.Grammar) → TellsTheSame w g }
{}
