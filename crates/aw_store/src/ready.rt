//! Adding equations for which memory was taken.
ghost use Rattle.std.specs.Prelude.{◌≡◌, ◌++◌, ◌∷◌, [], true, Contains, map as list_map};
ghost use Rattle.aw_store.specs.Adding.{AreNew};
ghost use Rattle.aw_store.specs.Equations.{Equation as PlainEquation};
ghost use Rattle.aw_store.specs.EquationView.{equation_of};
ghost use Rattle.aw_store.specs.NamedRefs.{Grows};
ghost use Rattle.aw_store.specs.StoreView.{all_few, has_few};

use crate::equation::Equation;
use crate::facts::{Added, Facts};

/// Adds an equation whose left side has none, and which is ready. Nothing can be refused.
pub fn add_ready<F: Facts>(f: &mut F, e: Equation)
    requires new { AreNew (F.map f.old) (equation_of e ∷ []) }
    requires few { has_few (equation_of e) ≡ true }
    requires ready { F.is_ready f.old (equation_of e) }
    ensures map { F.map f.new ≡ F.map f.old ++ equation_of e ∷ [] }
    ensures ready { (x : PlainEquation) → F.is_ready f.old x → F.is_ready f.new x }
    ensures names { Grows (F.names f.old) (F.names f.new) }
{
    match f.add(e) {
        Ok(Added::New) => {}
        _ => unreachable!(),
    }
}

/// Adds equations whose left sides have none, and which are ready. Nothing can be refused.
pub fn add_all_ready<F: Facts>(f: &mut F, es: Vec<Equation>)
    requires new { AreNew (F.map f.old) (list_map equation_of es.items) }
    requires few { all_few (list_map equation_of es.items) ≡ true }
    requires ready { (e : PlainEquation) → Contains (list_map equation_of es.items) e → F.is_ready f.old e }
    ensures map { F.map f.new ≡ F.map f.old ++ list_map equation_of es.items }
    ensures names { Grows (F.names f.old) (F.names f.new) }
{
    for e in es {
        add_ready(f, e);
    }
}
