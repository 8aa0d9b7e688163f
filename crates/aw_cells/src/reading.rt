//! Bodies by slots, read.
ghost use Rattle.std.specs.Prelude.{◌≡◌, ◌<◌, Some, true, IfOk, IsSome, length, slice_get};
ghost use Rattle.aw_store.specs.EquationView.{body_of};
ghost use Rattle.aw_cells.specs.StoredBodies.{body_from, refs_of, fits, all_below, is_written, slots_of, text_from, kind_from, is_body, is_at, are_at};

use crate::stored::Stored;
use aw_list::Text;
use aw_name::{Ref, Refs, copy_ref};
use aw_store::names::is_ref;
use aw_store::{Body, Kind};
use std::alloc::{AllocError, Global};

/// The kind of a body.
pub fn kind_of(stored: &Stored) -> Kind
    ensures { result ≡ kind_from stored.now }
{
    match stored {
        Stored::Missing => Kind::Missing,
        Stored::Same(slot) => Kind::Same(*slot as usize),
        Stored::Con(c, parts) => Kind::Con(*c, parts.len() as u8),
        Stored::Num(n) => Kind::Num(*n),
        Stored::Text(_) => Kind::Text,
    }
}

/// Whether a body was written.
pub fn is_full(stored: &Stored) -> bool
    ensures { result ≡ is_written stored.now }
{
    match stored {
        Stored::Missing => false,
        Stored::Same(_) | Stored::Con(_, _) | Stored::Num(_) | Stored::Text(_) => true,
    }
}

/// The slot of part k, from 0, of a constructor.
pub fn child_of(stored: &Stored, k: u8) -> usize
    requires { k < length (slots_of stored.now) }
    ensures { slice_get (slots_of stored.now) k ≡ Some result }
{
    match stored {
        Stored::Con(_, parts) => parts.as_slice()[usize::from(k)] as usize,
        Stored::Missing | Stored::Same(_) | Stored::Num(_) | Stored::Text(_) => unreachable!(),
    }
}

/// The text of a body that is one.
pub fn text_of(stored: &Stored) -> &Text
    requires { IsSome (text_from stored.now) }
    ensures { text_from stored.now ≡ Some result.now }
{
    match stored {
        Stored::Text(text) => text,
        Stored::Missing | Stored::Same(_) | Stored::Con(_, _) | Stored::Num(_) => unreachable!(),
    }
}

/// Whether a slot has this reference.
fn is_ref_at(names: &[Ref], slot: usize, r: &Ref) -> bool
    requires { slot < length names.now }
    ensures { result ≡ is_at (slice_get names.now slot) r.now }
{
    is_ref(&names[slot], r)
}

/// Whether these slots have these references.
fn are_refs(names: &[Ref], slots: &[u32], refs: &[Ref]) -> bool
    requires { all_below (length names.now) slots.now ≡ true }
    ensures { result ≡ are_at names.now slots.now refs.now }
{
    if slots.len() != refs.len() {
        return false;
    }
    for i in 0..slots.len() {
        if !is_ref_at(names, slots[i] as usize, &refs[i]) {
            return false;
        }
    }
    true
}

/// Whether a body by slots is this one. It takes no memory.
pub fn is_stored(names: &[Ref], stored: &Stored, body: &Body) -> bool
    requires { fits (length names.now) stored.now ≡ true }
    ensures { result ≡ is_body names.now stored.now body.now }
{
    match (stored, body) {
        (Stored::Same(slot), Body::Same(r)) => is_ref_at(names, *slot as usize, r),
        (Stored::Con(c, slots), Body::Con(d, refs)) => {
            *c == *d && are_refs(names, slots.as_slice(), refs.as_slice())
        }
        (Stored::Num(n), Body::Num(m)) => *n == *m,
        (Stored::Text(t), Body::Text(u)) => *t == *u,
        _ => false,
    }
}

/// A copy of the reference of a slot.
fn ref_at(names: &[Ref], slot: usize) -> Result<Ref, AllocError>
    requires { slot < length names.now }
    ensures { IfOk result (λ r. slice_get names.now slot ≡ Some r) }
{
    copy_ref(&names[slot])
}

/// Copies of the references of these slots.
fn refs_at(alloc: Global, names: &[Ref], slots: &[u32]) -> Result<Refs, AllocError>
    requires { all_below (length names.now) slots.now ≡ true }
    ensures { IfOk result (λ refs. refs ≡ refs_of names.now slots.now) }
{
    let mut refs = Vec::with_capacity(alloc, slots.len())?;
    for slot in slots {
        refs.push(ref_at(names, *slot as usize)?)?;
    }
    Refs::from_vec(refs)
}

/// A body by its references.
pub fn body_at(alloc: Global, names: &[Ref], stored: &Stored) -> Result<Body, AllocError>
    requires fits { fits (length names.now) stored.now ≡ true }
    requires written { is_written stored.now ≡ true }
    ensures { IfOk result (λ b. body_from names.now stored.now ≡ Some (body_of b)) }
{
    match stored {
        Stored::Missing => unreachable!(),
        Stored::Same(slot) => Ok(Body::Same(ref_at(names, *slot as usize)?)),
        Stored::Con(c, slots) => Ok(Body::Con(*c, refs_at(alloc, names, slots.as_slice())?)),
        Stored::Num(n) => Ok(Body::Num(*n)),
        Stored::Text(t) => Ok(Body::Text(t.clone()?)),
    }
}
