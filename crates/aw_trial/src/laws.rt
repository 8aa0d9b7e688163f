//! What holds of trials, apart from any code.
ghost use Rattle.aw_law_sites.specs.Laws.{IsAccepted};
ghost use Rattle.aw_term.specs.Artifacts.{Words};
ghost use Rattle.aw_term.specs.Rules as P;
ghost use Rattle.aw_trial.specs.Laws.{SettlesFresh, AreReplayed};

/// Settling brings no message again, so all deliveries that brought nothing new are those of turns (`fresh`). The events of a trial,
/// with its settling, are a schedule; its replay leads to the world that was counted and writes the artifacts that were counted
/// (`replayed`).
pub fn trial_laws()
    ensures fresh { (w : Words) (g : P.Grammar) → IsAccepted w g → SettlesFresh g }
    ensures replayed { (w : Words) (g : P.Grammar) → IsAccepted w g → AreReplayed w g }
{}
