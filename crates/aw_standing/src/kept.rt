//! What is kept for the held nodes of a role.
ghost use Rattle.std.specs.Prelude.{◌≡◌, ◌<◌, ◌≤◌, ◌+◌, ◌++◌, ◌∷◌, [], ℕ, List, Some, true, OnOk, is_some, length, slice_get, vec_len, vec_capacity};
ghost use Rattle.aw_term.specs.Names.{Ref as RefName};
ghost use Rattle.aw_term.specs.Rules.{Grammar as PlainGrammar};
ghost use Rattle.aw_choice.specs.declared.choice.Choice.{Choice as ChoiceValue};
ghost use Rattle.aw_grammar.specs.GrammarOf.{grammar_of};
ghost use Rattle.aw_node_list.specs.Row.{Row};
ghost use Rattle.aw_node_list.specs.declared.held.Held.{Held as HeldValue};
ghost use Rattle.aw_store.specs.Equations.{Map};
ghost use Rattle.aw_store.specs.Chase.{Missing, chase};
ghost use Rattle.aw_store.specs.NamedRefs.{body_at};
ghost use Rattle.aw_work.specs.Triples.{triple, waiting_at};
ghost use Rattle.aw_standing.specs.Records.{IsFit, IsOf};
ghost use Rattle.aw_standing.specs.Tested.{IsFresh};
ghost use Rattle.aw_standing.specs.KeptStates.{AreFit, AreKept, IsFitKept, IsKeptBut, IsKeptDone, IsKeptWith, HasRoom};

use crate::record::{Record, place_of};
use crate::testing::{look_again, set_mark, test_all};
use aw_apply::Steps;
use aw_base::Grammar;
use aw_store::Facts;
use aw_work::{Pair, Work};
use std::alloc::{AllocError, Global};
use std::sync::ledger::Ledger;

/// How each rule of its sort stands at each open node, and which of them wait for what. A node's record is found by the number
/// that the list of nodes gave it, and never moves.
#[derive(Drop)]
pub struct Kept {
    pub(crate) records: Vec<Record>,
    pub(crate) work: Work,
}

impl Kept {
    /// Nothing is held. It takes no memory yet.
    pub fn new(alloc: Global) -> Kept
        ensures { (g : PlainGrammar) (k : Map) (names : List RefName) → AreKept g [] k names [] [] result.records.items result.work.waiting }
    {
        Kept {
            records: Vec::new(alloc),
            work: Work::new(alloc),
        }
    }

    /// Makes room for so many more nodes, and for so many more rules to wait. What is kept stays, also on an error.
    pub fn reserve(&mut self, nodes: usize, waits: usize) -> Result<(), AllocError>
        ensures kept { (g : PlainGrammar) (row : Row) (k : Map) (names late : List RefName) →
            IsKeptBut g row k names late self.old → IsKeptBut g row k names late self.new }
        ensures room { OnOk result (HasRoom self.new nodes waits) }
        ensures more { (n w : ℕ) → HasRoom self.old n w → HasRoom self.new n w }
    {
        self.records.reserve(nodes)?;
        self.work.reserve(waits)
    }

    /// Keeps how the rules stand at an open node that is put among the held ones and has the next number. Each rule of its sort is
    /// tested once. There is room for it.
    pub fn open<F: Facts, L: Ledger>(
        &mut self,
        entry: Record,
        grammar: &Grammar,
        facts: &F,
        steps: &mut Steps<L>,
    )
        requires fits { IsFitKept (grammar_of grammar.now) (F.names facts.now) self.old }
        requires fit { IsFit (grammar_of grammar.now) (F.names facts.now) entry }
        requires fresh { IsFresh entry }
        requires room { HasRoom self.old 1 (vec_len entry.marks) }
        ensures kept { (row : Row) (at : ℕ) (h : HeldValue) (late : List RefName) → at ≤ length row.numbers →
            IsOf (grammar_of grammar.now) (F.names facts.now) h entry →
            IsKeptBut (grammar_of grammar.now) row (F.map facts.now) (F.names facts.now) late self.old →
            IsKeptWith (grammar_of grammar.now) row at h (F.map facts.now) (F.names facts.now) late self.new }
        ensures fits { IsFitKept (grammar_of grammar.now) (F.names facts.now) self.new }
        ensures room { (n w : ℕ) → HasRoom self.old (n + 1) (w + vec_len entry.marks) → HasRoom self.new n w }
        ensures steps { steps.new ≡ steps.old + vec_len entry.marks }
    {
        let number = self.records.len();
        let mut entry = entry;
        test_all(&mut entry, number, grammar, facts, &mut self.work, steps);
        put_last(&mut self.records, entry);
    }

    /// Lets go what is kept of the node with this number, which was developed, with its memory: none of its rules waits any more.
    pub fn close(&mut self, number: u32)
        ensures kept { (g : PlainGrammar) (row : Row) (at : ℕ) (c : ChoiceValue) (k : Map) (names late : List RefName) →
            slice_get row.numbers at ≡ Some number →
            IsKeptBut g row k names late self.old → IsKeptDone g row at c k names late self.new }
        ensures room { (n w : ℕ) → HasRoom self.old n w → HasRoom self.new n w }
        ensures fewer { (q : ℕ) → waiting_at q self.new.work.waiting ≤ waiting_at q self.old.work.waiting }
    {
        self.work.drop_node(number as usize);
        if let Some(entry) = self.records.get_mut(number as usize) {
            entry.marks.clear();
            entry.marks.shrink_to_fit();
        }
    }

    /// Looks again at the rules that wait for a slot whose reference just got an equation. Where that leads to another reference,
    /// which has none, they wait for that one, and none is tested (`leads_on`). Elsewhere each is tested once. It takes no memory.
    /// None of them waits again for a reference that has an equation (`fewer`), so that several calls in turn test no pair twice.
    pub fn learn<F: Facts, L: Ledger>(
        &mut self,
        slot: usize,
        grammar: &Grammar,
        facts: &F,
        steps: &mut Steps<L>,
    )
        requires fits { IsFitKept (grammar_of grammar.now) (F.names facts.now) self.old }
        requires learnt { is_some (body_at (F.map facts.now) (F.names facts.now) slot) ≡ true }
        ensures kept { (row : Row) (r : RefName) (late : List RefName) → slice_get (F.names facts.now) slot ≡ Some r →
            IsKeptBut (grammar_of grammar.now) row (F.map facts.now) (F.names facts.now) (r ∷ late) self.old →
            IsKeptBut (grammar_of grammar.now) row (F.map facts.now) (F.names facts.now) late self.new }
        ensures fits { IsFitKept (grammar_of grammar.now) (F.names facts.now) self.new }
        ensures room { (n w : ℕ) → HasRoom self.old n w → HasRoom self.new n w }
        ensures steps { steps.new ≤ steps.old + waiting_at slot self.old.work.waiting }
        ensures leads_on { (r end : RefName) → slice_get (F.names facts.now) slot ≡ Some r → chase (F.map facts.now) r ≡ Missing end → steps.new ≡ steps.old }
        ensures fewer { (q : ℕ) → is_some (body_at (F.map facts.now) (F.names facts.now) q) ≡ true →
            waiting_at q self.new.work.waiting ≤ waiting_at q self.old.work.waiting }
    {
        while let Some(pair) = self.work.take(slot) {
            self.test_pair(slot, pair, grammar, facts, steps);
        }
    }

    /// Looks again at a pair that was taken out of what waits for the slot, and tests it where it does not wait for another one.
    fn test_pair<F: Facts, L: Ledger>(
        &mut self,
        slot: usize,
        pair: Pair,
        grammar: &Grammar,
        facts: &F,
        steps: &mut Steps<L>,
    )
        requires fits { (ns : List ℕ) × AreFit (grammar_of grammar.now) (F.names facts.now) ns self.old.records.items
            (triple slot pair.node pair.rule ∷ self.old.work.waiting) }
        requires learnt { is_some (body_at (F.map facts.now) (F.names facts.now) slot) ≡ true }
        requires room { 0 < self.old.work.spare }
        ensures kept { (row : Row) (late : List RefName) →
            AreKept (grammar_of grammar.now) row.items (F.map facts.now) (F.names facts.now) late row.numbers self.old.records.items
            (triple slot pair.node pair.rule ∷ self.old.work.waiting) →
            IsKeptBut (grammar_of grammar.now) row (F.map facts.now) (F.names facts.now) late self.new }
        ensures fits { IsFitKept (grammar_of grammar.now) (F.names facts.now) self.new }
        ensures waiting { (q : ℕ) → is_some (body_at (F.map facts.now) (F.names facts.now) q) ≡ true →
            waiting_at q self.new.work.waiting ≡ waiting_at q self.old.work.waiting }
        ensures room { (n w : ℕ) → HasRoom self.old n (w + 1) → HasRoom self.new n w }
        ensures step { steps.new ≤ steps.old + 1 }
        ensures leads_on { (r end : RefName) → slice_get (F.names facts.now) slot ≡ Some r → chase (F.map facts.now) r ≡ Missing end → steps.new ≡ steps.old }
    {
        let entry = &mut self.records[pair.node];
        let Some(at) = place_of(entry.marks.as_slice(), pair.rule, slot) else {
            unreachable!();
        };
        let stands = look_again(entry, at, slot, grammar, facts, steps);
        set_mark(entry, at, pair.node, stands, &mut self.work);
    }
}

/// Puts a record after the others, where there is room.
fn put_last(records: &mut Vec<Record>, entry: Record)
    requires room { vec_len records.old < vec_capacity records.old }
    ensures items { records.new.items ≡ records.old.items ++ entry ∷ [] }
    ensures room { vec_capacity records.old ≤ vec_capacity records.new }
{
    match records.push(entry) {
        Ok(()) => {}
        Err(_) => unreachable!(),
    }
}
