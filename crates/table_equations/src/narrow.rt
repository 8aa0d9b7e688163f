//! Equations that a store takes.
ghost use Rattle.std.specs.Prelude.{◌≡◌, map};
ghost use Rattle.aw_store.specs.EquationView.{equation_of};
ghost use Rattle.aw_store.specs.StoreView.{all_few, has_few};

use aw_store::{Body, Equation};

/// Whether a body has at most 8 references.
pub fn is_narrow(e: &Equation) -> bool
    ensures { result ≡ has_few (equation_of e.now) }
{
    match &e.body {
        Body::Con(_, parts) => parts.len() <= 8,
        Body::Same(_) | Body::Num(_) | Body::Text(_) => true,
    }
}

/// Whether each body has at most 8 references.
pub fn are_narrow(es: &[Equation]) -> bool
    ensures { result ≡ all_few (map equation_of es.now) }
{
    for e in es {
        if !is_narrow(e) {
            return false;
        }
    }
    true
}
