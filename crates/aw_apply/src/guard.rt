//! The guard of a rule: its patterns against the inherited references of a node.
ghost use Rattle.std.specs.Prelude.{◌≡◌, ◌≤◌, ◌+◌, ◌<◌, All, map, length};
ghost use Rattle.aw_term.specs.Trees.{join};
ghost use Rattle.aw_term.specs.WellFormed.{all_leaves, all_nesting};
ghost use Rattle.aw_term.specs.Views.{pattern_of};
ghost use Rattle.aw_term.specs.Limits.{most_inherited, most_levels, most_variables};
ghost use Rattle.aw_apply.specs.GuardView.{IsTestable, IsGuardOf, guard_with};

use crate::binding::Binding;
use crate::guarding::{Step, guard_at};
use crate::steps::Steps;
use aw_base::{Path, Pattern, Place, Rule};
use aw_store::Facts;
use std::marker::Brand;
use std::sync::ledger::{Blank, Ledger};

/// What a guard gives: the slots that the variables of the patterns take; or the slot of a missing reference; or the
/// place that differs; or the slot at a pattern's place from which a chase goes round.
#[derive(Debug, Drop)]
pub enum Guard {
    Yes(Binding),
    Waits(usize),
    Differs(Place),
    Circle(usize),
}

/// How patterns meet slots, where what their variables take stands elsewhere: they match; or the rest is as in a guard.
#[derive(Clone, Copy, Debug)]
pub enum Met {
    Yes,
    Waits(usize),
    Differs(Place),
    Circle(usize),
}

/// Patterns against slots, from the first attribute on. What was bound before is dropped.
fn guard_all<F: Facts>(f: &F, patterns: &[Pattern], inherited: &[usize], bound: &mut Binding) -> Met
    requires { IsTestable (F.names f.now) patterns.now inherited.now }
    ensures { IsGuardOf (F.map f.now) (F.names f.now) patterns.now inherited.now (guard_with bound.new result) }
{
    bound.clear();
    for i in 0..patterns.len() {
        match guard_at(f, &patterns[i], inherited[i], &Path::new(), bound) {
            Step::Yes => {}
            Step::Waits(slot) => return Met::Waits(slot),
            Step::Circle(slot) => return Met::Circle(slot),
            Step::Differs(path) => {
                return Met::Differs(Place {
                    attribute: i as u8 + 1,
                    path,
                });
            }
        }
    }
    Met::Yes
}

/// As `test_guard`, with a binding that is borrowed: where the patterns match it has what their variables take.
pub fn test_into<F: Facts, L: Ledger>(
    f: &F,
    rule: &Rule,
    inherited: &[usize],
    bound: &mut Binding,
    steps: &mut Steps<L>,
) -> Met
    requires live { All (λ slot. slot < length (F.names f.now)) inherited.now }
    requires same { length rule.now.patterns ≡ length inherited.now }
    requires few { length rule.now.patterns ≤ most_inherited }
    requires shallow { all_nesting (join (map pattern_of rule.now.patterns)) ≤ most_levels }
    requires room { length (all_leaves (join (map pattern_of rule.now.patterns))) ≤ most_variables }
    ensures guard { IsGuardOf (F.map f.now) (F.names f.now) rule.now.patterns inherited.now (guard_with bound.new result) }
    ensures step { steps.new ≡ steps.old + 1 }
{
    steps.tick();
    guard_all(f, rule.patterns.as_slice(), inherited, bound)
}

/// Matches the patterns of a rule with the inherited references of a node, each given by its slot. One call is one
/// step. It takes no memory, and ends on every store.
pub fn test_guard<F: Facts, L: Ledger>(
    f: &F,
    rule: &Rule,
    inherited: &[usize],
    steps: &mut Steps<L>,
) -> Guard
    requires live { All (λ slot. slot < length (F.names f.now)) inherited.now }
    requires same { length rule.now.patterns ≡ length inherited.now }
    requires few { length rule.now.patterns ≤ most_inherited }
    requires shallow { all_nesting (join (map pattern_of rule.now.patterns)) ≤ most_levels }
    requires room { length (all_leaves (join (map pattern_of rule.now.patterns))) ≤ most_variables }
    ensures guard { IsGuardOf (F.map f.now) (F.names f.now) rule.now.patterns inherited.now result }
    ensures step { steps.new ≡ steps.old + 1 }
{
    let mut bound = Binding::new();
    match test_into(f, rule, inherited, &mut bound, steps) {
        Met::Yes => Guard::Yes(bound),
        Met::Waits(slot) => Guard::Waits(slot),
        Met::Differs(place) => Guard::Differs(place),
        Met::Circle(slot) => Guard::Circle(slot),
    }
}

/// Tests a guard in a ledger of its own.
fn guard_in_ledger<F: Facts, L: Ledger>(
    f: &F,
    rule: &Rule,
    inherited: &[usize],
    blank: Blank,
) -> Guard
    requires name { blank.name ≡ L.name }
    requires parts { blank.parts ≡ L.parts }
    requires some { 0 < L.parts }
    requires testable { IsTestable (F.names f.now) rule.now.patterns inherited.now }
    ensures { IsGuardOf (F.map f.now) (F.names f.now) rule.now.patterns inherited.now result }
{
    let mut steps = Steps::<L>::new(blank);
    test_guard(f, rule, inherited, &mut steps)
}

/// Tests a guard where nobody counts the tests: as `test_guard`, with a count of its own.
pub fn guard_uncounted<F: Facts>(f: &F, rule: &Rule, inherited: &[usize]) -> Guard
    requires live { All (λ slot. slot < length (F.names f.now)) inherited.now }
    requires same { length rule.now.patterns ≡ length inherited.now }
    requires few { length rule.now.patterns ≤ most_inherited }
    requires shallow { all_nesting (join (map pattern_of rule.now.patterns)) ≤ most_levels }
    requires room { length (all_leaves (join (map pattern_of rule.now.patterns))) ≤ most_variables }
    ensures { IsGuardOf (F.map f.now) (F.names f.now) rule.now.patterns inherited.now result }
{
    guard_in_ledger::<F, Brand>(f, rule, inherited, Blank::new(1))
}
