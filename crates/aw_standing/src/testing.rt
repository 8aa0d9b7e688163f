//! Tests of rules at a held node, by what is kept of it.
ghost use Rattle.std.specs.Prelude.{◌≡◌, ◌<◌, ◌≤◌, ◌+◌, ◌&&◌, ℕ, List, Some, true, All, length, map as list_map, nat_eq, nat_lt, slice_get, vec_len};
ghost use Rattle.aw_term.specs.Names.{Node as NodeValue, Ref as RefName};
ghost use Rattle.aw_term.specs.Trees.{join};
ghost use Rattle.aw_term.specs.Views.{pattern_of};
ghost use Rattle.aw_term.specs.WellFormed.{all_leaves, all_nesting};
ghost use Rattle.aw_name.specs.Limits.{most_steps};
ghost use Rattle.aw_grammar.specs.declared.rule.Sort.{Sort as SortValue};
ghost use Rattle.aw_grammar.specs.GrammarView.{rule_of};
ghost use Rattle.aw_grammar.specs.GrammarOf.{grammar_of};
ghost use Rattle.aw_node_list.specs.declared.held.Held.{Held as HeldValue};
ghost use Rattle.aw_store.specs.Chase.{Missing, chase as plain_chase};
ghost use Rattle.aw_store.specs.NamedRefs.{AreNamed};
ghost use Rattle.aw_apply.specs.GuardView.{guard_with};
ghost use Rattle.aw_standing.specs.declared.record.Mark.{Mark as MarkValue};
ghost use Rattle.aw_standing.specs.Standings.{guard_stands, kept_refusal, told_refusal};
ghost use Rattle.aw_standing.specs.Due.{waiting_mark};
ghost use Rattle.aw_standing.specs.Records.{IsFit, IsOf, IsTold, WaitsAtEnd, with_stands, has_live};
ghost use Rattle.aw_standing.specs.Tested.{IsSet, IsTested, IsFresh, AreTested, LacksBody};

use crate::record::{Record, Stands, wait_for};
use aw_apply::{Binding, Met, Steps, test_into};
use aw_base::{Grammar, Rule};
use aw_store::{Chase, Facts, chase};
use aw_work::Work;
use std::sync::ledger::Ledger;

/// How a rule stands whose patterns meet their slots so.
fn stands_by(deep: bool, rule: &Rule, met: Met) -> Stands
    ensures { (bound : List ℕ) → result ≡ guard_stands (deep && nat_lt 0 (length rule.now.children)) (guard_with bound met) }
{
    match met {
        Met::Yes => {
            if deep && !rule.children.is_empty() {
                Stands::TooDeep
            } else {
                Stands::Ready
            }
        }
        Met::Waits(slot) => Stands::Waits(slot),
        Met::Differs(place) => Stands::Differs(place),
        Met::Circle(slot) => Stands::Circle(slot),
    }
}

/// How a rule stands at a node that inherits what these slots name. The binding is borrowed for the test. One call is one step.
fn test_stands<F: Facts, L: Ledger>(
    facts: &F,
    rule: &Rule,
    slots: &[usize],
    deep: bool,
    bound: &mut Binding,
    steps: &mut Steps<L>,
) -> Stands
    requires live { All (λ slot. slot < length (F.names facts.now)) slots.now }
    requires same { length rule.now.patterns ≡ length slots.now }
    requires few { length rule.now.patterns ≤ 8 }
    requires shallow { all_nesting (join (list_map pattern_of rule.now.patterns)) ≤ 32 }
    requires room { length (all_leaves (join (list_map pattern_of rule.now.patterns))) ≤ 64 }
    ensures stands { (sorts : List SortValue) (n : NodeValue) (rs : List RefName) → deep ≡ nat_eq (length n.steps) most_steps →
        AreNamed (F.names facts.now) slots.now rs →
        kept_refusal (F.names facts.now) result ≡ told_refusal (F.map facts.now) n rs (rule_of sorts rule.now) }
    ensures lacks { LacksBody (F.map facts.now) (F.names facts.now) result }
    ensures live { has_live (length (F.names facts.now)) result ≡ true }
    ensures step { steps.new ≡ steps.old + 1 }
{
    let met = test_into(facts, rule, slots, bound, steps);
    stands_by(deep, rule, met)
}

/// How the rule of a mark stands at the node of the record.
fn test_at<F: Facts, L: Ledger>(
    entry: &Record,
    at: usize,
    grammar: &Grammar,
    facts: &F,
    bound: &mut Binding,
    steps: &mut Steps<L>,
) -> Stands
    requires within { at < length entry.now.marks.items }
    requires fit { IsFit (grammar_of grammar.now) (F.names facts.now) entry.now }
    ensures told { (h : HeldValue) (m : MarkValue) → IsOf (grammar_of grammar.now) (F.names facts.now) h entry.now →
        slice_get entry.now.marks.items at ≡ Some m →
        IsTold (grammar_of grammar.now) (F.map facts.now) (F.names facts.now) h (with_stands m result) }
    ensures lacks { LacksBody (F.map facts.now) (F.names facts.now) result }
    ensures live { has_live (length (F.names facts.now)) result ≡ true }
    ensures step { steps.new ≡ steps.old + 1 }
{
    let mark = entry.marks[at];
    let Some(rule) = grammar.rule(mark.rule) else {
        unreachable!();
    };
    test_stands(
        facts,
        rule,
        entry.slots.as_slice(),
        entry.deep,
        bound,
        steps,
    )
}

/// How the rule of a mark stands that waits for a slot whose reference just got an equation. Where that leads to another
/// reference, which has none, the rule waits for that one, and no guard is tested.
pub fn look_again<F: Facts, L: Ledger>(
    entry: &Record,
    at: usize,
    slot: usize,
    grammar: &Grammar,
    facts: &F,
    steps: &mut Steps<L>,
) -> Stands
    requires within { at < length entry.now.marks.items }
    requires fit { IsFit (grammar_of grammar.now) (F.names facts.now) entry.now }
    requires live { slot < length (F.names facts.now) }
    ensures told { (h : HeldValue) (rule : ℕ) → slice_get entry.now.marks.items at ≡ Some (waiting_mark rule slot) →
        IsOf (grammar_of grammar.now) (F.names facts.now) h entry.now →
        WaitsAtEnd (grammar_of grammar.now) (F.map facts.now) (F.names facts.now) h (waiting_mark rule slot) →
        IsTold (grammar_of grammar.now) (F.map facts.now) (F.names facts.now) h (with_stands (waiting_mark rule slot) result) }
    ensures lacks { LacksBody (F.map facts.now) (F.names facts.now) result }
    ensures live { has_live (length (F.names facts.now)) result ≡ true }
    ensures step { steps.new ≤ steps.old + 1 }
    ensures leads_on { (r end : RefName) → slice_get (F.names facts.now) slot ≡ Some r → plain_chase (F.map facts.now) r ≡ Missing end → steps.new ≡ steps.old }
{
    match chase(facts, slot) {
        Chase::Missing(end) => Stands::Waits(end),
        _ => {
            let mut bound = Binding::new();
            test_at(entry, at, grammar, facts, &mut bound, steps)
        }
    }
}

/// From now on the mark at a place stands so, and its rule waits where it stands so, at the node with this number. There is room
/// for it to wait.
pub fn set_mark(entry: &mut Record, at: usize, number: usize, stands: Stands, work: &mut Work)
    requires within { at < length entry.old.marks.items }
    requires room { 0 < work.old.spare }
    ensures set { (m : MarkValue) → slice_get entry.old.marks.items at ≡ Some m →
        IsSet number at m stands entry.old entry.new work.old.waiting work.new.waiting }
    ensures spare { work.old.spare ≤ work.new.spare + 1 }
{
    let mark = &mut entry.marks[at];
    mark.stands = stands;
    wait_for(work, number, mark.rule, stands);
}

/// Tests the rule of a mark at the node of the record, which has this number: the mark says how it stands from now on, and it
/// waits where it stands so. There is room for it to wait.
fn test_mark<F: Facts, L: Ledger>(
    entry: &mut Record,
    at: usize,
    number: usize,
    grammar: &Grammar,
    facts: &F,
    work: &mut Work,
    bound: &mut Binding,
    steps: &mut Steps<L>,
)
    requires within { at < length entry.old.marks.items }
    requires fit { IsFit (grammar_of grammar.now) (F.names facts.now) entry.old }
    requires room { 0 < work.old.spare }
    ensures tested { (m : MarkValue) → slice_get entry.old.marks.items at ≡ Some m →
        IsTested (grammar_of grammar.now) (F.map facts.now) (F.names facts.now) number at m entry.old entry.new work.old.waiting work.new.waiting }
    ensures spare { work.old.spare ≤ work.new.spare + 1 }
    ensures step { steps.new ≡ steps.old + 1 }
{
    let stands = test_at(entry, at, grammar, facts, bound, steps);
    set_mark(entry, at, number, stands, work);
}

/// Tests the rule of each mark of a record, none of which waits yet. There is room for all to wait.
pub fn test_all<F: Facts, L: Ledger>(
    entry: &mut Record,
    number: usize,
    grammar: &Grammar,
    facts: &F,
    work: &mut Work,
    steps: &mut Steps<L>,
)
    requires fit { IsFit (grammar_of grammar.now) (F.names facts.now) entry.old }
    requires fresh { IsFresh entry.old }
    requires room { vec_len entry.old.marks ≤ work.old.spare }
    ensures tested { AreTested (grammar_of grammar.now) (F.map facts.now) (F.names facts.now) number entry.old entry.new work.old.waiting work.new.waiting }
    ensures fit { IsFit (grammar_of grammar.now) (F.names facts.now) entry.new }
    ensures spare { work.old.spare ≤ work.new.spare + vec_len entry.old.marks }
    ensures steps { steps.new ≡ steps.old + vec_len entry.old.marks }
{
    let mut bound = Binding::new();
    for at in 0..entry.marks.len() {
        test_mark(entry, at, number, grammar, facts, work, &mut bound, steps);
    }
}
