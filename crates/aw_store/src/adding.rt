//! Adding to the three lists of a store: its equations, its names, and the equations for which memory was taken.
ghost use Rattle.std.specs.Prelude.{◌≡◌, ◌≤◌, ◌+◌, ◌++◌, ◌∷◌, [], None, true, IfOk, OnOk, OnErr, IsOk, IsSome, Contains, map, is_none, vec_len, vec_capacity, if◌then◌else◌};
ghost use Rattle.aw_store.specs.Equations.{find, mentions};
ghost use Rattle.aw_store.specs.EquationView.{body_of, equation_of};
ghost use Rattle.aw_store.specs.NamedRefs.{all_named, has_names, has_names_of, refs_in, all_refs_in, IsNamedOnce, Grows, NamesOnly};
ghost use Rattle.aw_store.specs.StoreView.{Adds, IsAddable, Compares, has_few};
ghost use Rattle.aw_store.specs.ListStore.{IsSound, lacking};

use crate::bodies::{copy_body, copy_equations, find_body, is_same_body};
use crate::equation::{Body, Equation, Equations};
use crate::facts::Added;
use crate::names::{name_all, name_one};
use aw_name::Ref;
use std::alloc::AllocError;

/// Names each reference of a body.
fn name_body(names: &mut Vec<Ref>, body: &Body) -> Result<(), AllocError>
    requires { IsNamedOnce names.old.items }
    ensures once { IsNamedOnce names.new.items }
    ensures grows { Grows names.old.items names.new.items }
    ensures only { NamesOnly names.old.items names.new.items (mentions (body_of body.now)) }
    ensures ok { OnOk result (all_named names.new.items (mentions (body_of body.now)) ≡ true) }
    ensures named { all_named names.old.items (mentions (body_of body.now)) ≡ true → IsOk result }
{
    match body {
        Body::Same(r) => {
            name_one(names, r)?;
            Ok(())
        }
        Body::Con(_, parts) => name_all(names, parts.as_slice()),
        Body::Num(_) | Body::Text(_) => Ok(()),
    }
}

/// Names the left side of an equation, and each reference of its body.
fn name_equation(names: &mut Vec<Ref>, e: &Equation) -> Result<(), AllocError>
    requires { IsNamedOnce names.old.items }
    ensures once { IsNamedOnce names.new.items }
    ensures grows { Grows names.old.items names.new.items }
    ensures only { NamesOnly names.old.items names.new.items (refs_in (equation_of e.now)) }
    ensures ok { OnOk result (has_names_of names.new.items (equation_of e.now) ≡ true) }
    ensures named { has_names_of names.old.items (equation_of e.now) ≡ true → IsOk result }
{
    name_one(names, &e.left)?;
    name_body(names, &e.body)
}

/// Names each reference of some equations.
fn name_equations(names: &mut Vec<Ref>, es: &[Equation]) -> Result<(), AllocError>
    requires { IsNamedOnce names.old.items }
    ensures once { IsNamedOnce names.new.items }
    ensures grows { Grows names.old.items names.new.items }
    ensures only { NamesOnly names.old.items names.new.items (all_refs_in (map equation_of es.now)) }
    ensures ok { OnOk result (has_names names.new.items (map equation_of es.now) ≡ true) }
{
    for e in es {
        name_equation(names, e)?;
    }
    Ok(())
}

/// Takes the memory for adding some equations, and names their references. An error may have named some of them.
pub fn reserve_in(
    equations: &mut Vec<Equation>,
    names: &mut Vec<Ref>,
    ready: &mut Vec<Equation>,
    es: &Equations,
) -> Result<(), AllocError>
    requires sound { IsSound names.old.items (map equation_of equations.old.items) (map equation_of ready.old.items) }
    requires room { vec_len equations.old + lacking (map equation_of equations.old.items) (map equation_of ready.old.items) ≤ vec_capacity equations.old }
    ensures items { equations.new.items ≡ equations.old.items }
    ensures sound { IsSound names.new.items (map equation_of equations.new.items) (map equation_of ready.new.items) }
    ensures room { vec_len equations.new + lacking (map equation_of equations.new.items) (map equation_of ready.new.items) ≤ vec_capacity equations.new }
    ensures grows { Grows names.old.items names.new.items }
    ensures only { NamesOnly names.old.items names.new.items (all_refs_in (map equation_of es.now)) }
    ensures named { OnOk result (has_names names.new.items (map equation_of es.now) ≡ true) }
    ensures ready { OnOk result (ready.new.items ≡ es.now) }
{
    let copies = copy_equations(es.allocator(), es.as_slice())?;
    name_equations(names, es.as_slice())?;
    equations.reserve(copies.len())?;
    *ready = copies;
    Ok(())
}

/// What adding a body comes to, where the left side has one. An error is out of memory for copying that one.
fn compare(kept: &Body, came: Body) -> Result<Added, AllocError>
    ensures added { IfOk result (Compares kept.now came) }
    ensures same { kept.now ≡ came → IsOk result }
{
    if is_same_body(kept, &came) {
        return Ok(Added::Same);
    }
    Ok(Added::Conflict {
        kept: copy_body(kept)?,
        came,
    })
}

/// Lets all ready equations go, where none of them has this left side.
fn keep_ready(ready: &mut Vec<Equation>, left: &Ref)
    ensures { ready.new.items ≡ (if is_none (find (map equation_of ready.old.items) left.now) then [] else ready.old.items) }
{
    if find_body(ready.as_slice(), left).is_none() {
        ready.clear();
    }
}

/// Adds an equation whose left side has none. An error may have named references, and let the ready equations go.
fn add_new(
    equations: &mut Vec<Equation>,
    names: &mut Vec<Ref>,
    ready: &mut Vec<Equation>,
    e: Equation,
) -> Result<(), AllocError>
    requires sound { IsSound names.old.items (map equation_of equations.old.items) (map equation_of ready.old.items) }
    requires room { vec_len equations.old + lacking (map equation_of equations.old.items) (map equation_of ready.old.items) ≤ vec_capacity equations.old }
    requires few { has_few (equation_of e) ≡ true }
    requires lacks { find (map equation_of equations.old.items) e.left ≡ None }
    ensures sound { IsSound names.new.items (map equation_of equations.new.items) (map equation_of ready.new.items) }
    ensures room { vec_len equations.new + lacking (map equation_of equations.new.items) (map equation_of ready.new.items) ≤ vec_capacity equations.new }
    ensures grows { Grows names.old.items names.new.items }
    ensures only { NamesOnly names.old.items names.new.items (refs_in (equation_of e)) }
    ensures ok { OnOk result (equations.new.items ≡ equations.old.items ++ e ∷ []) }
    ensures err { OnErr result (equations.new.items ≡ equations.old.items) }
    ensures ready { Contains (map equation_of ready.old.items) (equation_of e) → ready.new.items ≡ ready.old.items }
    ensures sure { Contains (map equation_of ready.old.items) (equation_of e) → IsOk result }
{
    keep_ready(ready, &e.left);
    name_equation(names, &e)?;
    equations.push(e)?;
    Ok(())
}

/// Adds an equation where its left side has none; where it has one, nothing changes, also on an error. Else an error may
/// have named references, and let the ready equations go.
pub fn add_to(
    equations: &mut Vec<Equation>,
    names: &mut Vec<Ref>,
    ready: &mut Vec<Equation>,
    e: Equation,
) -> Result<Added, AllocError>
    requires sound { IsSound names.old.items (map equation_of equations.old.items) (map equation_of ready.old.items) }
    requires room { vec_len equations.old + lacking (map equation_of equations.old.items) (map equation_of ready.old.items) ≤ vec_capacity equations.old }
    requires few { has_few (equation_of e) ≡ true }
    ensures sound { IsSound names.new.items (map equation_of equations.new.items) (map equation_of ready.new.items) }
    ensures room { vec_len equations.new + lacking (map equation_of equations.new.items) (map equation_of ready.new.items) ≤ vec_capacity equations.new }
    ensures grows { Grows names.old.items names.new.items }
    ensures only { NamesOnly names.old.items names.new.items (refs_in (equation_of e)) }
    ensures added { IfOk result (λ added. Adds (map equation_of equations.old.items) e added (map equation_of equations.new.items)) }
    ensures err { OnErr result (equations.new.items ≡ equations.old.items) }
    ensures kept_names { IsSome (find (map equation_of equations.old.items) e.left) → names.new.items ≡ names.old.items }
    ensures kept_ready { IsSome (find (map equation_of equations.old.items) e.left) → ready.new.items ≡ ready.old.items }
    ensures ready { Contains (map equation_of ready.old.items) (equation_of e) → ready.new.items ≡ ready.old.items }
    ensures sure { Contains (map equation_of ready.old.items) (equation_of e) → IsAddable (map equation_of equations.old.items) (equation_of e) → IsOk result }
{
    if let Some(kept) = find_body(equations.as_slice(), &e.left) {
        return compare(kept, e.body);
    }
    add_new(equations, names, ready, e)?;
    Ok(Added::New)
}
