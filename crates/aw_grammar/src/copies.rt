//! Copies of declarations, and the index of their names.
ghost use Rattle.std.specs.Prelude.{◌≡◌, map, false, IfOk};
ghost use Rattle.aw_name_index.specs.Places.{has_double};

use crate::children::push_names;
use crate::named::Named;
use crate::rule::{Con, Cons, Names, Rule, Sort, Sorts};
use aw_list::Items;
use aw_name_index::NameIndex;
use std::alloc::{AllocError, Global};

/// A copy of names.
pub(crate) fn copy_names(names: &Names) -> Result<Names, AllocError>
    ensures { IfOk result (λ copy. copy ≡ names.now) }
{
    let mut copies = Items::from_vec(Vec::with_capacity(names.allocator(), names.len())?);
    push_names(&mut copies, names.as_slice())?;
    Ok(copies)
}

fn copy_con(con: &Con) -> Result<Con, AllocError>
    ensures { IfOk result (λ copy. copy ≡ con.now) }
{
    con.clone()
}

/// A copy of constructors.
pub(crate) fn copy_cons(cons: &Cons) -> Result<Cons, AllocError>
    ensures { IfOk result (λ copy. copy ≡ cons.now) }
{
    let mut copies = Items::from_vec(Vec::with_capacity(cons.allocator(), cons.len())?);
    for con in cons.as_slice() {
        copies.push(copy_con(con)?)?;
    }
    Ok(copies)
}

fn copy_sort(sort: &Sort) -> Result<Sort, AllocError>
    ensures { IfOk result (λ copy. copy ≡ sort.now) }
{
    sort.clone()
}

/// A copy of sorts.
pub(crate) fn copy_sorts(sorts: &Sorts) -> Result<Sorts, AllocError>
    ensures { IfOk result (λ copy. copy ≡ sorts.now) }
{
    let mut copies = Items::from_vec(Vec::with_capacity(sorts.allocator(), sorts.len())?);
    for sort in sorts.as_slice() {
        copies.push(copy_sort(sort)?)?;
    }
    Ok(copies)
}

/// A copy of a rule.
pub(crate) fn copy_rule(rule: &Rule) -> Result<Rule, AllocError>
    ensures { IfOk result (λ copy. copy ≡ rule.now) }
{
    rule.clone()
}

/// The index of the names of declarations, which differ.
pub(crate) fn index_of<T: Named>(alloc: Global, items: &[T]) -> Result<NameIndex, AllocError>
    requires { has_double (map T.called items.now) ≡ false }
    ensures { IfOk result (λ index. index ≡ map T.called items.now) }
{
    let mut index = NameIndex::with_capacity(alloc, items.len())?;
    for item in items {
        index.push(item.name())?;
    }
    Ok(index)
}
