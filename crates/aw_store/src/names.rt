//! Lists of named references, which are scanned.
ghost use Rattle.std.specs.Prelude.{◌≡◌, ◌++◌, ◌∷◌, [], Some, true, false, IfOk, OnOk, OnErr, IsOk, MatchOption, slice_get};
ghost use Rattle.aw_store.specs.Refs.{ref_eq};
ghost use Rattle.aw_store.specs.NamedRefs.{is_named, all_named, with_name, IsNamedOnce, Grows, NamesOnly};

use aw_name::{Ref, copy_ref, is_same_ref};
use std::alloc::AllocError;

/// Whether two references are one.
pub fn is_ref(a: &Ref, b: &Ref) -> bool
    ensures { result ≡ ref_eq a.now b.now }
{
    is_same_ref(a, b)
}

/// The place of a reference, where it is named.
pub fn slot_in(names: &[Ref], r: &Ref) -> Option<usize>
    ensures { MatchOption result (is_named names.now r.now ≡ false) (λ slot. slice_get names.now slot ≡ Some r.now) }
{
    for i in 0..names.len() {
        if is_ref(r, &names[i]) {
            return Some(i);
        }
    }
    None
}

/// The place of a reference that is named.
pub fn place_of(names: &[Ref], r: &Ref) -> usize
    requires { is_named names.now r.now ≡ true }
    ensures { slice_get names.now result ≡ Some r.now }
{
    match slot_in(names, r) {
        Some(slot) => slot,
        None => unreachable!(),
    }
}

/// Names a reference that is not named, at the end. An error changes nothing.
fn name_new(names: &mut Vec<Ref>, r: &Ref) -> Result<usize, AllocError>
    requires once { IsNamedOnce names.old.items }
    requires fresh { is_named names.old.items r.now ≡ false }
    ensures once { IsNamedOnce names.new.items }
    ensures grows { Grows names.old.items names.new.items }
    ensures ok { OnOk result (names.new.items ≡ names.old.items ++ r.now ∷ []) }
    ensures slot { IfOk result (λ slot. slice_get names.new.items slot ≡ Some r.now) }
    ensures err { OnErr result (names.new.items ≡ names.old.items) }
{
    let slot = names.len();
    names.push(copy_ref(r)?)?;
    Ok(slot)
}

/// Names a reference at the end, where it is not named. One that is named gets no error, and an error changes nothing.
pub fn name_one(names: &mut Vec<Ref>, r: &Ref) -> Result<usize, AllocError>
    requires { IsNamedOnce names.old.items }
    ensures once { IsNamedOnce names.new.items }
    ensures grows { Grows names.old.items names.new.items }
    ensures ok { OnOk result (names.new.items ≡ with_name names.old.items r.now) }
    ensures slot { IfOk result (λ slot. slice_get names.new.items slot ≡ Some r.now) }
    ensures err { OnErr result (names.new.items ≡ names.old.items) }
    ensures named { is_named names.old.items r.now ≡ true → IsOk result }
{
    match slot_in(names.as_slice(), r) {
        Some(slot) => Ok(slot),
        None => name_new(names, r),
    }
}

/// Names each of the references. An error may have named some.
pub fn name_all(names: &mut Vec<Ref>, refs: &[Ref]) -> Result<(), AllocError>
    requires { IsNamedOnce names.old.items }
    ensures once { IsNamedOnce names.new.items }
    ensures grows { Grows names.old.items names.new.items }
    ensures only { NamesOnly names.old.items names.new.items refs.now }
    ensures ok { OnOk result (all_named names.new.items refs.now ≡ true) }
    ensures named { all_named names.old.items refs.now ≡ true → IsOk result }
{
    for r in refs {
        name_one(names, r)?;
    }
    Ok(())
}
