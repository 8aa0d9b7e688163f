//! What a guard says by references: of a rule at a node, and to a choice of it.
ghost use Rattle.std.specs.Prelude.{◌≡◌, ◌≤◌, ◌+◌, ◌<◌, List, All, IfOk, length, map};
ghost use Rattle.aw_term.specs.Trees.{join};
ghost use Rattle.aw_term.specs.Choices.{after_guard};
ghost use Rattle.aw_term.specs.Views.{pattern_of};
ghost use Rattle.aw_term.specs.WellFormed.{all_leaves, all_nesting};
ghost use Rattle.aw_grammar.specs.declared.rule.Sort.{Sort as SortValue};
ghost use Rattle.aw_grammar.specs.GrammarView.{rule_of};
ghost use Rattle.aw_term.specs.Names.{Ref as RefName};
ghost use Rattle.aw_term.specs.Limits.{most_inherited, most_levels, most_variables};
ghost use Rattle.aw_store.specs.NamedRefs.{AreNamed};
ghost use Rattle.aw_apply.specs.Guard.{guard_all as plain_guard};
ghost use Rattle.aw_apply.specs.GuardView.{guard_of};
ghost use Rattle.aw_apply.specs.Named.{as_named};
ghost use Rattle.aw_apply.specs.Telling.{IsLive, matched_of, weighed_of, HasRoom};

use crate::guard::{Guard, test_guard};
use crate::steps::Steps;
use aw_base::{Answer, Place, Rule};
use aw_name::{Node, Ref, Trail};
use aw_store::{Facts, ref_at, refs_at};
use std::alloc::{AllocError, Global};
use std::sync::ledger::Ledger;

/// What a guard gives, by references: those that the variables of the patterns take; or the missing one; or the place
/// that differs; or the one at a pattern's place from which a chase goes round.
#[derive(Debug, Drop)]
pub enum Tested {
    Yes(Vec<Ref>),
    Waits(Ref),
    Differs(Place),
    Circle(Ref),
}

/// A refusal, or the references that the patterns of a rule bind.
#[derive(Debug, Drop)]
pub enum Weighed {
    Refused(Answer),
    Takes(Vec<Ref>),
}

/// Most rules have no more variables besides those of their patterns.
const MORE: usize = 8;

/// What a guard gives, by copies of the references that its slots name.
pub fn tell_guard<F: Facts>(alloc: Global, f: &F, guard: &Guard) -> Result<Tested, AllocError>
    requires { IsLive (F.names f.now) guard.now }
    ensures { IfOk result (λ t. as_named (matched_of t) ≡ guard_of (F.names f.now) guard.now) }
{
    match guard {
        Guard::Yes(bound) => Ok(Tested::Yes(refs_at(alloc, f, bound.as_slice(), MORE)?)),
        Guard::Waits(slot) => Ok(Tested::Waits(ref_at(f, *slot)?)),
        Guard::Differs(place) => Ok(Tested::Differs(*place)),
        Guard::Circle(slot) => Ok(Tested::Circle(ref_at(f, *slot)?)),
    }
}

/// The guard of a rule on references, each given by its slot. One call is one step.
pub fn test_rule<F: Facts, L: Ledger>(
    alloc: Global,
    f: &F,
    rule: &Rule,
    slots: &[usize],
    steps: &mut Steps<L>,
) -> Result<Tested, AllocError>
    requires live { All (λ slot. slot < length (F.names f.now)) slots.now }
    requires same { length rule.now.patterns ≡ length slots.now }
    requires few { length rule.now.patterns ≤ most_inherited }
    requires shallow { all_nesting (join (map pattern_of rule.now.patterns)) ≤ most_levels }
    requires room { length (all_leaves (join (map pattern_of rule.now.patterns))) ≤ most_variables }
    ensures guard { IfOk result (λ t. (rs : List RefName) → AreNamed (F.names f.now) slots.now rs → matched_of t ≡ plain_guard (F.map f.now) 1 (map pattern_of rule.now.patterns) rs) }
    ensures step { steps.new ≡ steps.old + 1 }
{
    let guard = test_guard(f, rule, slots, steps);
    tell_guard(alloc, f, &guard)
}

/// A rule of the node's sort, with the right number of arguments, whose guard gives this.
pub fn weigh_guard(node: &Node, rule: &Rule, tested: Tested) -> Weighed
    ensures room { HasRoom (length rule.now.children) node.now result }
    ensures value { (sorts : List SortValue) → weighed_of (rule_of sorts rule.now) result ≡ after_guard node.now (rule_of sorts rule.now) (matched_of tested) }
{
    match tested {
        Tested::Yes(bound) => {
            if node.steps.len() == Trail::MOST && !rule.children.is_empty() {
                Weighed::Refused(Answer::TooDeep)
            } else {
                Weighed::Takes(bound)
            }
        }
        Tested::Waits(on) => Weighed::Refused(Answer::Waits(on)),
        Tested::Differs(place) => Weighed::Refused(Answer::Differs(place)),
        Tested::Circle(at) => Weighed::Refused(Answer::Circle(at)),
    }
}
