//! Lists of equations, which are scanned.
ghost use Rattle.std.specs.Prelude.{◌≡◌, ◌<◌, ◌↔◌, Some, true, IfOk, IsTrue, IsSome, map, option_map, nat_le, length, slice_get};
ghost use Rattle.std.specs.Option.{option_copied};
ghost use Rattle.aw_term.specs.Limits.{most_parts};
ghost use Rattle.aw_store.specs.Equations.{find, mentions};
ghost use Rattle.aw_store.specs.EquationView.{body_of, equation_of};
ghost use Rattle.aw_store.specs.NamedRefs.{all_named, con_parts, as_text};
ghost use Rattle.aw_store.specs.StoreView.{IsKindOf};

use crate::equation::{Body, Equation};
use crate::facts::Kind;
use crate::names::{is_ref, place_of};
use aw_list::Text;
use aw_name::Ref;
use std::alloc::{AllocError, Global};

/// The body of a reference, where it has an equation.
pub fn find_body<'e>(equations: &'e [Equation], r: &Ref) -> Option<&'e Body>
    ensures { option_map body_of (option_copied result) ≡ find (map equation_of equations.now) r.now }
{
    for equation in equations {
        if is_ref(r, &equation.left) {
            return Some(&equation.body);
        }
    }
    None
}

/// The kind of a body whose references are named.
pub fn kind_of(names: &[Ref], body: &Body) -> Kind
    requires named { all_named names.now (mentions (body_of body.now)) ≡ true }
    requires few { nat_le (length (mentions (body_of body.now))) most_parts ≡ true }
    ensures { IsKindOf names.now (Some (body_of body.now)) result }
{
    match body {
        Body::Same(r) => Kind::Same(place_of(names, r)),
        Body::Con(c, parts) => Kind::Con(*c, parts.len() as u8),
        Body::Num(n) => Kind::Num(*n),
        Body::Text(_) => Kind::Text,
    }
}

/// The slot of part k, from 0, of a constructor whose parts are named.
pub fn child_of(names: &[Ref], body: &Body, k: u8) -> usize
    requires named { all_named names.now (mentions (body_of body.now)) ≡ true }
    requires within { k < length (con_parts (Some (body_of body.now))) }
    ensures { slice_get names.now result ≡ slice_get (con_parts (Some (body_of body.now))) k }
{
    match body {
        Body::Con(_, parts) => place_of(names, &parts.as_slice()[usize::from(k)]),
        Body::Same(_) | Body::Num(_) | Body::Text(_) => unreachable!(),
    }
}

/// The bytes of a text.
pub fn text_of(body: &Body) -> &Text
    requires { IsSome (as_text (Some (body_of body.now))) }
    ensures { as_text (Some (body_of body.now)) ≡ Some result.now }
{
    match body {
        Body::Text(text) => text,
        Body::Same(_) | Body::Con(_, _) | Body::Num(_) => unreachable!(),
    }
}

/// Whether two bodies are one.
pub fn is_same_body(a: &Body, b: &Body) -> bool
    ensures { IsTrue result ↔ (a.now ≡ b.now) }
{
    a == b
}

/// A copy of a body.
pub fn copy_body(body: &Body) -> Result<Body, AllocError>
    ensures { IfOk result (λ b. b ≡ body.now) }
{
    body.clone()
}

/// A copy of an equation.
pub fn copy_equation(e: &Equation) -> Result<Equation, AllocError>
    ensures { IfOk result (λ f. f ≡ e.now) }
{
    e.clone()
}

/// Copies of equations.
pub fn copy_equations(alloc: Global, es: &[Equation]) -> Result<Vec<Equation>, AllocError>
    ensures { IfOk result (λ copies. copies.items ≡ es.now) }
{
    let mut copies = Vec::with_capacity(alloc, es.len())?;
    for e in es {
        copies.push(copy_equation(e)?)?;
    }
    Ok(copies)
}
