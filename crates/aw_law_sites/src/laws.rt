//! What holds of every list of choices on a grammar without circles, apart from any code.
ghost use Rattle.aw_term.specs.Artifacts.{Words};
ghost use Rattle.aw_term.specs.Rules as P;
ghost use Rattle.aw_law_sites.specs.Laws.{IsAccepted, FlatIsSubstitution, StepsAgree, AnswersAgree, EquationsAreAcyclic, AnyOrder, IsSubmap, YesStays, DiffersStays, WaitsStays, WaitsMoves, CircleStays, HasOneValue, IsComputed, IsReached};
ghost use Rattle.aw_term.specs.Names.{Ref};
ghost use Rattle.aw_store.specs.Equations.{Map};

/// On a grammar in which no value depends on itself, equations between references say what substitution says: each list
/// of choices is taken over references exactly where it is taken over whole trees, and leads to the same nodes, whose
/// references unfold to the values of the trees (`flat`), also where a node is fed by its own result. So each further
/// choice has the same answer (`answers`) and the same effect (`steps`), and no reference ever leads back to itself
/// (`acyclic`). And two lists of the same choices lead to one configuration (`order`).
pub fn choice_laws()
    ensures flat { (w : Words) (g : P.Grammar) → IsAccepted w g → FlatIsSubstitution g }
    ensures steps { (w : Words) (g : P.Grammar) → IsAccepted w g → StepsAgree g }
    ensures answers { (w : Words) (g : P.Grammar) → IsAccepted w g → AnswersAgree g }
    ensures acyclic { (w : Words) (g : P.Grammar) → IsAccepted w g → EquationsAreAcyclic g }
    ensures order { (w : Words) (g : P.Grammar) → IsAccepted w g → AnyOrder g }
{}

/// A guard that is decided over some equations is so over more: nothing that is learnt later takes it back. One that waits
/// goes on waiting for the same reference until that has an equation (`waits`), and then for the one to which that leads, where
/// that has none (`moves`). One that meets a circle goes on meeting it.
pub fn guard_laws()
    ensures yes { (k l : Map) → IsSubmap k l → YesStays k l }
    ensures differs { (k l : Map) → IsSubmap k l → DiffersStays k l }
    ensures waits { (k l : Map) → IsSubmap k l → WaitsStays k l }
    ensures moves { (k l : Map) → IsSubmap k l → WaitsMoves k l }
    ensures circle { (k l : Map) → IsSubmap k l → CircleStays k l }
{}

/// Over any equations a reference has at most one value (`one`), and unfolding to a bounded depth gives it (`computed`)
/// where the bound is large enough (`reached`).
pub fn value_laws()
    ensures one { (k : Map) (r : Ref) → HasOneValue k r }
    ensures computed { (k : Map) (r : Ref) → IsComputed k r }
    ensures reached { (k : Map) (r : Ref) → IsReached k r }
{}
