//! Small grammars on which definitions are tried: a relation that is a list of pairs is decided by computing, and this is what that
//! says.
ghost use Rattle.std.specs.Prelude.{◌≡◌, true, List};
ghost use Rattle.aw_term.specs.Rules as P;
ghost use Rattle.aw_iograph.specs.Dependence.{IsClosedUnder, HasNoCircle};
ghost use Rattle.aw_iograph.specs.Decided.{Pair, Holds, decides};

/// Where a list decides a grammar, the relation of the list is closed under the rules and no rule has a circle over it.
pub fn decided()
    ensures closed { (g : P.Grammar) (pairs : List Pair) → decides pairs g.rules ≡ true → IsClosedUnder g (Holds pairs) }
    ensures no_circle { (g : P.Grammar) (pairs : List Pair) → decides pairs g.rules ≡ true → HasNoCircle g (Holds pairs) }
{}
