//! Equations by the names of their left sides, in a store and behind it.
ghost use Rattle.std.specs.Prelude.{◌≡◌, ◌++◌, IfOk, is_some, map as list_map, option_map};
ghost use Rattle.aw_store.specs.Equations.{find};
ghost use Rattle.aw_store.specs.EquationView.{body_of, equation_of};

use aw_name::Ref;
use aw_site_repeat::has_equation;
use aw_store::bodies::find_body;
use aw_store::{Body, Equation, Facts, copy_body, equation_at};
use std::alloc::{AllocError, Global};

/// Whether a reference has an equation in a list.
pub fn is_behind(more: &[Equation], r: &Ref) -> bool
    ensures { result ≡ is_some (find (list_map equation_of more.now) r.now) }
{
    find_body(more, r).is_some()
}

/// Whether a reference has an equation in a store, or in a list behind it. It takes no memory.
pub fn has_equation_in_both<F: Facts>(facts: &F, more: &[Equation], r: &Ref) -> bool
    ensures { result ≡ is_some (find (F.map facts.now ++ list_map equation_of more.now) r.now) }
{
    has_equation(facts, r) || is_behind(more, r)
}

/// A copy of the body of a reference, where a store has its equation.
pub fn body_in<F: Facts>(alloc: Global, facts: &F, r: &Ref) -> Result<Option<Body>, AllocError>
    ensures { IfOk result (λ body. option_map body_of body ≡ find (F.map facts.now) r.now) }
{
    match facts.slot_of(r) {
        Some(slot) => equation_at(alloc, facts, slot),
        None => Ok(None),
    }
}

/// A copy of the body of a reference, where a list has its equation.
fn body_behind(more: &[Equation], r: &Ref) -> Result<Option<Body>, AllocError>
    ensures { IfOk result (λ body. option_map body_of body ≡ find (list_map equation_of more.now) r.now) }
{
    match find_body(more, r) {
        Some(body) => Ok(Some(copy_body(body)?)),
        None => Ok(None),
    }
}

/// A copy of the body of a reference, where a store, or a list behind it, has its equation.
pub fn body_in_both<F: Facts>(
    alloc: Global,
    facts: &F,
    more: &[Equation],
    r: &Ref,
) -> Result<Option<Body>, AllocError>
    ensures { IfOk result (λ body. option_map body_of body ≡ find (F.map facts.now ++ list_map equation_of more.now) r.now) }
{
    match body_in(alloc, facts, r)? {
        Some(body) => Ok(Some(body)),
        None => body_behind(more, r),
    }
}
