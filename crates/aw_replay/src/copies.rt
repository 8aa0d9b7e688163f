//! Copies of declarations, the sorts all at one role.
ghost use Rattle.std.specs.Prelude.{◌≡◌, ◌∷◌, [], IfOk};
ghost use Rattle.aw_replay.specs.Seated.{seated, all_seated};
ghost use Rattle.aw_replay.specs.United.{everyone};

use aw_grammar::{Con, Cons, Names, Rule, Rules, Sort, Sorts};
use aw_list::{Items, Text};
use std::alloc::{AllocError, Global};

/// The name of the one role.
pub(crate) fn only_role(alloc: Global) -> Result<Names, AllocError>
    ensures { IfOk result (λ names. names ≡ everyone ∷ []) }
{
    let mut names = Items::new(alloc);
    let name = Text::from_bytes(alloc, b"everyone")?;
    names.push(name)?;
    Ok(names)
}

/// A copy of a constructor.
fn copy_con(con: &Con) -> Result<Con, AllocError>
    ensures { IfOk result (λ copy. copy ≡ con.now) }
{
    con.clone()
}

/// A copy of constructors.
pub(crate) fn copy_cons(cons: &Cons) -> Result<Cons, AllocError>
    ensures { IfOk result (λ copy. copy ≡ cons.now) }
{
    let mut copies = Items::new(cons.allocator());
    for con in cons.as_slice() {
        copies.push(copy_con(con)?)?;
    }
    Ok(copies)
}

/// A copy of a sort, at role 0.
fn seated(sort: &Sort) -> Result<Sort, AllocError>
    ensures { IfOk result (λ copy. copy ≡ seated sort.now) }
{
    Ok(Sort {
        name: sort.name.clone()?,
        role: 0,
        takes: sort.takes,
        gives: sort.gives,
        start: sort.start,
    })
}

/// Copies of sorts, each at role 0.
pub(crate) fn all_seated(sorts: &Sorts) -> Result<Sorts, AllocError>
    ensures { IfOk result (λ copies. copies ≡ all_seated sorts.now) }
{
    let mut copies = Items::new(sorts.allocator());
    for sort in sorts.as_slice() {
        copies.push(seated(sort)?)?;
    }
    Ok(copies)
}

/// A copy of a rule.
fn copy_rule(rule: &Rule) -> Result<Rule, AllocError>
    ensures { IfOk result (λ copy. copy ≡ rule.now) }
{
    rule.clone()
}

/// A copy of rules.
pub(crate) fn copy_rules(rules: &Rules) -> Result<Rules, AllocError>
    ensures { IfOk result (λ copy. copy ≡ rules.now) }
{
    let mut copies = Items::new(rules.allocator());
    for rule in rules.as_slice() {
        copies.push(copy_rule(rule)?)?;
    }
    Ok(copies)
}
