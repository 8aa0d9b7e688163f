//! What holds of every list of choices, apart from any code.
ghost use Rattle.aw_term.specs.Rules as P;
ghost use Rattle.aw_plain.specs.InTurn.{RunsUndivided, TakesUndivided};

/// Where choices are answered one after the other, those that are taken make an undivided run, which leads to the same
/// rows; and the choices of an undivided run are all taken.
pub fn run_laws()
    ensures taken { (g : P.Grammar) → RunsUndivided g }
    ensures whole { (g : P.Grammar) → TakesUndivided g }
{}
