//! What holds of who waits for whom in every world, apart from any code.
ghost use Rattle.aw_term.specs.Artifacts.{Words};
ghost use Rattle.aw_term.specs.Rules as P;
ghost use Rattle.aw_law_sites.specs.Laws.{IsAccepted};
ghost use Rattle.aw_world_waits.specs.Laws.{PairsStand, NoCircleIsTold, SomeIsToldFree};

/// After every list of choices and deliveries, with loads and without, each pair stands in the undivided configuration of the choices
/// taken (`stand`). Where the grammar is free of waiting the pairs have no circle (`no_circle`), and where nodes are pending one of
/// them is told to wait for none (`some_free`).
pub fn pair_laws()
    ensures stand { (w : Words) (g : P.Grammar) → IsAccepted w g → PairsStand g }
    ensures no_circle { (w : Words) (g : P.Grammar) → IsAccepted w g → NoCircleIsTold g }
    ensures some_free { (w : Words) (g : P.Grammar) → IsAccepted w g → SomeIsToldFree g }
{}
