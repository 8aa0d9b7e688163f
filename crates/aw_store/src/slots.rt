//! What stands at the slots of any store, and slots for references and back.
ghost use Rattle.std.specs.Prelude.{◌≡◌, ◌<◌, Some, true, All, IfOk, OnOk, length, option_map, slice_get};
ghost use Rattle.aw_store.specs.EquationView.{body_of};
ghost use Rattle.aw_store.specs.NamedRefs.{all_named, AreNamed, Grows, body_at, parts_at};

use crate::equation::Body;
use crate::facts::{Facts, Kind};
use aw_list::Text;
use aw_name::{Ref, Refs, copy_ref};
use std::alloc::{AllocError, Global};

/// A copy of the reference of a slot.
pub fn ref_at<F: Facts>(f: &F, slot: usize) -> Result<Ref, AllocError>
    requires { slot < length (F.names f.now) }
    ensures { IfOk result (λ r. slice_get (F.names f.now) slot ≡ Some r) }
{
    copy_ref(f.name(slot))
}

/// Copies of the references of slots, with room for so many more behind them.
pub fn refs_at<F: Facts>(
    alloc: Global,
    f: &F,
    slots: &[usize],
    more: usize,
) -> Result<Vec<Ref>, AllocError>
    requires { All (λ slot. slot < length (F.names f.now)) slots.now }
    ensures { IfOk result (λ refs. AreNamed (F.names f.now) slots.now refs.items) }
{
    let mut refs = Vec::with_capacity(alloc, slots.len().saturating_add(more))?;
    for slot in slots {
        refs.push(ref_at(f, *slot)?)?;
    }
    Ok(refs)
}

/// A copy of part k, from 0, of the constructor at a slot.
fn part_at<F: Facts>(f: &F, slot: usize, k: u8) -> Result<Ref, AllocError>
    requires { k < length (parts_at (F.map f.now) (F.names f.now) slot) }
    ensures { IfOk result (λ r. slice_get (parts_at (F.map f.now) (F.names f.now) slot) k ≡ Some r) }
{
    ref_at(f, f.child(slot, k))
}

/// Copies of the parts of the constructor at a slot.
fn parts_of<F: Facts>(alloc: Global, f: &F, slot: usize, count: u8) -> Result<Refs, AllocError>
    requires { count ≡ length (parts_at (F.map f.now) (F.names f.now) slot) }
    ensures { IfOk result (λ refs. refs ≡ parts_at (F.map f.now) (F.names f.now) slot) }
{
    let mut refs = Vec::with_capacity(alloc, usize::from(count))?;
    for k in 0..count {
        refs.push(part_at(f, slot, k)?)?;
    }
    Refs::from_vec(refs)
}

/// A copy of the body at a slot, where its reference has an equation.
pub fn equation_at<F: Facts>(alloc: Global, f: &F, slot: usize) -> Result<Option<Body>, AllocError>
    requires { slot < length (F.names f.now) }
    ensures { IfOk result (λ body. option_map body_of body ≡ body_at (F.map f.now) (F.names f.now) slot) }
{
    match f.kind(slot) {
        Kind::Missing => Ok(None),
        Kind::Same(to) => Ok(Some(Body::Same(ref_at(f, to)?))),
        Kind::Con(con, count) => Ok(Some(Body::Con(con, parts_of(alloc, f, slot, count)?))),
        Kind::Num(number) => Ok(Some(Body::Num(number))),
        Kind::Text => {
            let text = Text::from_bytes(alloc, f.text(slot).as_slice())?;
            Ok(Some(Body::Text(text)))
        }
    }
}

/// Names each of the references, and gives their slots. An error may have named some.
pub fn intern_all<F: Facts>(
    alloc: Global,
    f: &mut F,
    refs: &[Ref],
) -> Result<Vec<usize>, AllocError>
    ensures map { F.map f.new ≡ F.map f.old }
    ensures names { Grows (F.names f.old) (F.names f.new) }
    ensures slots { IfOk result (λ slots. AreNamed (F.names f.new) slots.items refs.now) }
    ensures named { OnOk result (all_named (F.names f.new) refs.now ≡ true) }
{
    let mut slots = Vec::with_capacity(alloc, refs.len())?;
    for r in refs {
        slots.push(f.intern(r)?)?;
    }
    Ok(slots)
}
