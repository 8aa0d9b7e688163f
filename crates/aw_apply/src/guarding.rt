//! One pattern against the equations of a store: the first place in depth-first order that does not match decides.
ghost use Rattle.std.specs.Prelude.{◌≡◌, ◌≤◌, ◌+◌, ◌<◌, ℕ, List, Some, map, length, slice_get};
ghost use Rattle.aw_term.specs.Names.{Ref};
ghost use Rattle.aw_term.specs.Trees.{Con, Made, join};
ghost use Rattle.aw_term.specs.WellFormed.{leaves, all_leaves, nesting, all_nesting};
ghost use Rattle.aw_term.specs.Views.{head_of, pattern_of};
ghost use Rattle.aw_term.specs.Limits.{most_variables, most_parts, most_levels};
ghost use Rattle.aw_store.specs.Chase.{chase as plain_chase};
ghost use Rattle.aw_store.specs.ChaseView.{IsChasedTo};
ghost use Rattle.aw_store.specs.NamedRefs.{body_at, parts_at};
ghost use Rattle.aw_apply.specs.Guard.{guard as plain_guard, guard_parts as plain_parts};
ghost use Rattle.aw_apply.specs.Named.{is_head};
ghost use Rattle.aw_apply.specs.GuardView.{GoesOn, GoesOnAt, GoesOnUnder};

use crate::binding::Binding;
use aw_base::{Lit, Path, Pattern};
use aw_list::is_same_text;
use aw_store::{Chase, Facts, Kind, chase};

/// What matching one pattern gives; the variables have taken their slots.
#[derive(Clone, Copy, Debug, PartialEq, Eq)]
pub enum Step {
    Yes,
    Waits(usize),
    Differs(Path),
    Circle(usize),
}

/// Whether a number or a text stands at a slot.
fn is_lit<F: Facts>(f: &F, lit: &Lit, slot: usize) -> bool
    requires { slot < length (F.names f.now) }
    ensures { result ≡ is_head (head_of lit.now) 0 (body_at (F.map f.now) (F.names f.now) slot) }
{
    match f.kind(slot) {
        Kind::Num(n) => match lit {
            Lit::Num(m) => *m == n,
            Lit::Text(_) => false,
        },
        Kind::Text => match lit {
            Lit::Num(_) => false,
            Lit::Text(t) => is_same_text(t, f.text(slot)),
        },
        Kind::Con(_, _) | Kind::Same(_) | Kind::Missing => false,
    }
}

/// Whether a constructor with so many parts stands at a slot.
fn is_con<F: Facts>(f: &F, con: u16, parts: usize, slot: usize) -> bool
    requires { slot < length (F.names f.now) }
    ensures { result ≡ is_head (Con con) parts (body_at (F.map f.now) (F.names f.now) slot) }
{
    match f.kind(slot) {
        Kind::Con(c, n) => c == con && usize::from(n) == parts,
        Kind::Num(_) | Kind::Text | Kind::Same(_) | Kind::Missing => false,
    }
}

/// Where a chase from a slot ends. Most slots stand for no other one, so that one look is enough.
fn end_of<F: Facts>(f: &F, slot: usize) -> Chase
    requires { slot < length (F.names f.now) }
    ensures { (r : Ref) → slice_get (F.names f.now) slot ≡ Some r → IsChasedTo (F.map f.now) (F.names f.now) slot (plain_chase (F.map f.now) r) result }
{
    match f.kind(slot) {
        Kind::Missing => Chase::Missing(slot),
        Kind::Same(_) => chase(f, slot),
        _ => Chase::Found(slot),
    }
}

/// A number or a text against a slot.
fn guard_lit<F: Facts>(f: &F, lit: &Lit, slot: usize, at: &Path) -> Step
    requires { slot < length (F.names f.now) }
    ensures { (bound : List ℕ) → GoesOnAt (F.names f.now) slot bound bound at.now result (plain_guard (F.map f.now) (pattern_of (Pattern.Lit lit.now))) }
{
    match end_of(f, slot) {
        Chase::Missing(end) => Step::Waits(end),
        Chase::Circle(start) => Step::Circle(start),
        Chase::Found(end) => {
            if is_lit(f, lit, end) {
                Step::Yes
            } else {
                Step::Differs(*at)
            }
        }
    }
}

/// The part with this number of a constructor at this path, against its slot. A variable needs no path.
#[cycle(guarding)]
fn guard_part<F: Facts>(
    f: &F,
    part: &Pattern,
    number: u8,
    slot: usize,
    at: &Path,
    bound: &mut Binding,
) -> Step
    requires live { slot < length (F.names f.now) }
    requires shallow { at.now.len + nesting (pattern_of part.now) ≤ 31 }
    requires room { length bound.old + length (leaves (pattern_of part.now)) ≤ most_variables }
    ensures step { GoesOnUnder (F.names f.now) slot bound.old bound.new at.now number result (plain_guard (F.map f.now) (pattern_of part.now)) }
    ensures room { length bound.new ≤ length bound.old + length (leaves (pattern_of part.now)) }
{
    match part {
        Pattern::Var(_) => {
            bound.push(slot);
            Step::Yes
        }
        Pattern::Lit(_) | Pattern::Con(_, _) => {
            let mut here = *at;
            here.push(number);
            guard_at(f, part, slot, &here, bound)
        }
    }
}

/// The parts of one constructor from left to right.
#[cycle(guarding)]
fn guard_parts<F: Facts>(
    f: &F,
    parts: &[Pattern],
    slot: usize,
    at: &Path,
    bound: &mut Binding,
) -> Step
    requires same { length parts.now ≡ length (parts_at (F.map f.now) (F.names f.now) slot) }
    requires few { length parts.now ≤ most_parts }
    requires shallow { at.now.len + all_nesting (join (map pattern_of parts.now)) ≤ 31 }
    requires room { length bound.old + length (all_leaves (join (map pattern_of parts.now))) ≤ most_variables }
    ensures step { GoesOn (F.names f.now) bound.old bound.new at.now result (plain_parts (F.map f.now) 1 (join (map pattern_of parts.now)) (parts_at (F.map f.now) (F.names f.now) slot)) }
    ensures room { length bound.new ≤ length bound.old + length (all_leaves (join (map pattern_of parts.now))) }
{
    for i in 0..parts.len() {
        let child = f.child(slot, i as u8);
        match guard_part(f, &parts[i], i as u8 + 1, child, at, bound) {
            Step::Yes => {}
            other => return other,
        }
    }
    Step::Yes
}

/// A constructor against a slot.
#[cycle(guarding)]
fn guard_con<F: Facts>(
    f: &F,
    con: u16,
    parts: &[Pattern],
    slot: usize,
    at: &Path,
    bound: &mut Binding,
) -> Step
    requires live { slot < length (F.names f.now) }
    requires shallow { at.now.len + all_nesting (join (map pattern_of parts.now)) ≤ 31 }
    requires room { length bound.old + length (all_leaves (join (map pattern_of parts.now))) ≤ most_variables }
    ensures step { GoesOnAt (F.names f.now) slot bound.old bound.new at.now result (plain_guard (F.map f.now) (Made (Con con) (join (map pattern_of parts.now)))) }
    ensures room { length bound.new ≤ length bound.old + length (all_leaves (join (map pattern_of parts.now))) }
{
    match end_of(f, slot) {
        Chase::Missing(open) => Step::Waits(open),
        Chase::Circle(start) => Step::Circle(start),
        Chase::Found(end) => {
            if is_con(f, con, parts.len(), end) {
                guard_parts(f, parts, end, at, bound)
            } else {
                Step::Differs(*at)
            }
        }
    }
}

/// A pattern against the slot that stands at this path.
#[cycle(guarding)]
pub fn guard_at<F: Facts>(
    f: &F,
    pattern: &Pattern,
    slot: usize,
    at: &Path,
    bound: &mut Binding,
) -> Step
    requires live { slot < length (F.names f.now) }
    requires shallow { at.now.len + nesting (pattern_of pattern.now) ≤ most_levels }
    requires room { length bound.old + length (leaves (pattern_of pattern.now)) ≤ most_variables }
    ensures step { GoesOnAt (F.names f.now) slot bound.old bound.new at.now result (plain_guard (F.map f.now) (pattern_of pattern.now)) }
    ensures room { length bound.new ≤ length bound.old + length (leaves (pattern_of pattern.now)) }
{
    match pattern {
        Pattern::Var(_) => {
            bound.push(slot);
            Step::Yes
        }
        Pattern::Lit(lit) => guard_lit(f, lit, slot, at),
        Pattern::Con(con, parts) => guard_con(f, *con, parts.as_slice(), slot, at, bound),
    }
}
