//! What holds of dependence relations, apart from any code.
ghost use Rattle.std.specs.Prelude.{ℕ, ◌<◌, length};
ghost use Rattle.aw_term.specs.Rules as P;
ghost use Rattle.aw_grammar.specs.declared.grammar.Grammar.{Grammar as GrammarValue};
ghost use Rattle.aw_iograph.specs.declared.io.Io.{Io};
ghost use Rattle.aw_iograph.specs.Pairs.{HasSort, IsFor};
ghost use Rattle.aw_iograph.specs.Dependence.{IO, Follows, IsClosedUnder, IsHeldBy};

/// A relation of positions, sort by sort. What is proved for each type that has one holds of every relation.
pub trait Related {
    ghost relates: { ℕ → ℕ → ℕ → Type 0 };
}

/// The dependence relation of a grammar lies within each relation that is closed under its rules. What follows from a seed
/// holds the seed, is closed under the rules, and lies within each relation that holds the seed and is closed under them.
pub fn least_laws<S: Related, R: Related>()
    ensures least { (g : P.Grammar) → IsClosedUnder g R.relates → IsHeldBy (IO g) R.relates }
    ensures seed_held { (g : P.Grammar) → IsHeldBy S.relates (Follows g S.relates) }
    ensures seed_closed { (g : P.Grammar) → IsClosedUnder g (Follows g S.relates) }
    ensures seed_least { (g : P.Grammar) → IsHeldBy S.relates R.relates → IsClosedUnder g R.relates → IsHeldBy (Follows g S.relates) R.relates }
{}

/// The dependence relation of a grammar is closed under its rules; that it is the least such, `least_laws` says. Relations that
/// were made for a grammar have each of its sorts.
pub fn relation_laws()
    ensures closed { (g : P.Grammar) → IsClosedUnder g (IO g) }
    ensures sorts { (g : GrammarValue) (io : Io) (s : ℕ) → IsFor g io → s < length g.sorts → HasSort io s }
{}
