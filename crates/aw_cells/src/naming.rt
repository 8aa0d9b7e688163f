//! Naming references: each new one gets the next slot.
ghost use Rattle.std.specs.Prelude.{◌≡◌, ◌≤◌, ◌+◌, ◌^◌, ◌<◌, ◌++◌, ◌∷◌, [], Some, true, false, IfOk, IfSome, OnOk, OnErr, IsOk, MatchOption, length, slice_get, vec_capacity};
ghost use Rattle.aw_term.specs.Limits.{most_parts};
ghost use Rattle.aw_store.specs.NamedRefs.{is_named, all_named, with_name, Grows, NamesOnly};
ghost use Rattle.aw_cells.specs.StoredBodies.{refs_of, all_below};
ghost use Rattle.slab.specs.Slab.{HasRoomFor};
ghost use Rattle.aw_cells.specs.Rows.{IsOnlyRoom};
ghost use Rattle.aw_cells.specs.TableView.{names_of, map_of, IsTable};

use crate::hints::Hints;
use crate::stored::{MOST, Slots, Stored};
use crate::table::Table;
use aw_name::{Ref, copy_ref, is_same_ref};
use indexmap::IndexSet;
use slab::Slab;
use std::alloc::AllocError;

/// The slot of a reference by its hash, where it is named.
fn slot_by_hash(names: &IndexSet<Ref>, r: &Ref) -> Option<usize>
    ensures { MatchOption result (is_named names.now.keys r.now ≡ false) (λ slot. slice_get names.now.keys slot ≡ Some r.now) }
{
    names.get_index_of(r)
}

/// The slot of the next hint, where this reference is named there.
fn slot_by_hint(names: &[Ref], hints: &Hints, r: &Ref) -> Option<usize>
    ensures { IfSome result (λ slot. slice_get names.now slot ≡ Some r.now) }
{
    let slot = hints.next()? as usize;
    if is_same_ref(names.get(slot)?, r) {
        Some(slot)
    } else {
        None
    }
}

/// The slot of a reference, where it is named. It is looked up by its hash only where the next hint is not the one.
pub fn slot_in(t: &Table, r: &Ref) -> Option<usize>
    ensures { MatchOption result (is_named (names_of t.now) r.now ≡ false) (λ slot. slice_get (names_of t.now) slot ≡ Some r.now) }
{
    match slot_by_hint(t.names.as_slice(), &t.hints, r) {
        Some(slot) => Some(slot),
        None => slot_by_hash(&t.names, r),
    }
}

/// Makes room for one more body, and for the slot of each. An error changes nothing else. It is an error where this slot has no
/// number, and also where the slab would not give it out next: that does not come while nothing is taken out of it, but its
/// contract does not say so.
fn make_room(cells: &mut Slab<Stored>, order: &mut Vec<u32>, slot: usize) -> Result<(), AllocError>
    requires behind { length order.old.items ≤ slot }
    requires small { slot < 2 ^ 63 }
    ensures cells { IsOnlyRoom cells.old cells.new }
    ensures order { order.new.items ≡ order.old.items }
    ensures kept { vec_capacity order.old ≤ vec_capacity order.new }
    ensures next { OnOk result (cells.new.vacant_key ≡ slot) }
    ensures numbered { OnOk result (slot < 2 ^ 32) }
    ensures room { OnOk result (HasRoomFor cells.new 1) }
    ensures order_room { OnOk result (slot + 1 ≤ vec_capacity order.new) }
{
    if slot >= MOST || cells.vacant_key() != slot {
        return Err(AllocError);
    }
    cells.reserve(1)?;
    order.reserve(slot + 1 - order.len())
}

/// Adds a name that is not there yet.
fn push_name(names: &mut IndexSet<Ref>, r: &Ref) -> Result<(), AllocError>
    requires { is_named names.old.keys r.now ≡ false }
    ensures ok { OnOk result (names.new.keys ≡ names.old.keys ++ r.now ∷ []) }
    ensures err { OnErr result (names.new.keys ≡ names.old.keys) }
{
    names.insert(copy_ref(r)?)?;
    Ok(())
}

/// Names a reference that is not named, at the end. An error changes no name and no body.
fn name_new(t: &mut Table, r: &Ref) -> Result<usize, AllocError>
    requires table { IsTable t.old }
    requires fresh { is_named (names_of t.old) r.now ≡ false }
    ensures table { IsTable t.new }
    ensures map { map_of t.new ≡ map_of t.old }
    ensures ok { OnOk result (names_of t.new ≡ names_of t.old ++ r.now ∷ []) }
    ensures slot { IfOk result (λ slot. slice_get (names_of t.new) slot ≡ Some r.now) }
    ensures numbered { IfOk result (λ slot. slot < 2 ^ 32) }
    ensures err { OnErr result (names_of t.new ≡ names_of t.old) }
{
    let slot = t.names.len();
    make_room(&mut t.cells, &mut t.order, slot)?;
    push_name(&mut t.names, r)?;
    t.cells.insert_reserved(Stored::Missing);
    Ok(slot)
}

/// Names a reference at the end, where it is not named. One that is named gets no error, and an error changes no name and
/// no body.
pub fn name_one(t: &mut Table, r: &Ref) -> Result<usize, AllocError>
    requires { IsTable t.old }
    ensures table { IsTable t.new }
    ensures grows { Grows (names_of t.old) (names_of t.new) }
    ensures map { map_of t.new ≡ map_of t.old }
    ensures ok { OnOk result (names_of t.new ≡ with_name (names_of t.old) r.now) }
    ensures slot { IfOk result (λ slot. slice_get (names_of t.new) slot ≡ Some r.now) }
    ensures numbered { IfOk result (λ slot. slot < 2 ^ 32) }
    ensures err { OnErr result (names_of t.new ≡ names_of t.old) }
    ensures named { is_named (names_of t.old) r.now ≡ true → IsOk result }
{
    match slot_in(t, r) {
        Some(slot) => {
            t.hints.pass(slot as u32);
            Ok(slot)
        }
        None => name_new(t, r),
    }
}

/// Names each of few references, and gives their slots. An error may have named some.
pub fn name_parts(t: &mut Table, refs: &[Ref]) -> Result<Slots, AllocError>
    requires table { IsTable t.old }
    requires few { length refs.now ≤ most_parts }
    ensures table { IsTable t.new }
    ensures grows { Grows (names_of t.old) (names_of t.new) }
    ensures only { NamesOnly (names_of t.old) (names_of t.new) refs.now }
    ensures map { map_of t.new ≡ map_of t.old }
    ensures slots { IfOk result (λ slots. refs_of (names_of t.new) slots.items ≡ refs.now) }
    ensures below { IfOk result (λ slots. all_below (length (names_of t.new)) slots.items ≡ true) }
    ensures len { IfOk result (λ slots. length slots.items ≤ most_parts) }
    ensures named { all_named (names_of t.old) refs.now ≡ true → IsOk result }
{
    let mut slots = Slots::new();
    for r in refs {
        slots.push(name_one(t, r)? as u32);
    }
    Ok(slots)
}
