//! What holds of every run, on a grammar without circles or on any, apart from any code.
ghost use Rattle.aw_accept.specs.Acyclic.{KeepsAcyclic, AllAcyclic, LeavesNoHole, AcyclicOver, IsGivenGrammar};
ghost use Rattle.aw_accept.specs.Missing.{WaitsForMissing, TellsNoCircle};
ghost use Rattle.aw_accept.specs.Sorts.{KeepsSorts, RowsHaveTheirSorts};
ghost use Rattle.aw_term.specs.Artifacts.{Words};
ghost use Rattle.aw_term.specs.WellFormed.{IsWellFormed};
ghost use Rattle.aw_term.specs.Rules as P;

use aw_iograph::Related;

/// On a grammar in which no value depends on itself no hole ever needs itself: a taken choice keeps that, also where a
/// node is fed by its own result, and so it holds of each configuration of an undivided run. No hole of a developed node
/// is left.
pub fn acyclic_laws()
    ensures given { (w : Words) (g : P.Grammar) → IsWellFormed w g → IsGivenGrammar g }
    ensures keeps { (g : P.Grammar) → KeepsAcyclic g }
    ensures all { (g : P.Grammar) → AllAcyclic g }
    ensures leaves_no_hole { (g : P.Grammar) → LeavesNoHole g }
{}

/// The same over every relation that is closed under the rules and over which no occurrence reaches itself.
pub fn acyclic_over<R: Related>()
    ensures { (g : P.Grammar) → AcyclicOver g R.relates }
{}

/// In each undivided run the sort of a row is that of its node's name, where each start is at a start sort.
pub fn sort_laws()
    ensures keeps { (g : P.Grammar) → KeepsSorts g }
    ensures all { (g : P.Grammar) → RowsHaveTheirSorts g }
{}

/// What a choice waits for is a result of a pending row, and no choice is answered with a circle.
pub fn answer_laws()
    ensures waits { (g : P.Grammar) → WaitsForMissing g }
    ensures no_circle { (g : P.Grammar) → TellsNoCircle g }
{}
