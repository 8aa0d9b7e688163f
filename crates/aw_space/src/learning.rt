//! Equations that are learnt, and the rules that waited for them.
ghost use Rattle.std.specs.Prelude.{◌≡◌, ◌≤◌, ◌+◌, ◌∷◌, ℕ, List, All, Some, None, true, IfOk, IsOk, OnErr, Contains, is_some, map as list_map, slice_get, sum_by};
ghost use Rattle.aw_term.specs.Names.{Ref as RefName};
ghost use Rattle.aw_grammar.specs.GrammarOf.{grammar_of};
ghost use Rattle.aw_node_list.specs.Row.{Row};
ghost use Rattle.aw_node_list.specs.HeldView.{all_of};
ghost use Rattle.aw_store.specs.Equations.{Equation as PlainEquation, find};
ghost use Rattle.aw_store.specs.EquationView.{equation_of};
ghost use Rattle.aw_store.specs.NamedRefs.{Grows, is_named, all_named};
ghost use Rattle.aw_store.specs.StoreView.{Adds, IsAddable, has_few, all_few};
ghost use Rattle.aw_law_sites.specs.Receiving.{add_on, add_all, first_clash};
ghost use Rattle.aw_law_sites.specs.Worklists.{site_worklist};
ghost use Rattle.aw_standing.specs.Items.{waiting_on};
ghost use Rattle.aw_standing.specs.KeptStates.{HasRoom, IsFitKept, IsKept, IsKeptBut};
ghost use Rattle.aw_space.specs.Waking.{IsBound, IsKnown, left_of, lefts_of, turns_cost};

use aw_apply::Steps;
use aw_grammar::Grammar;
use aw_name::{Ref, copy_ref};
use aw_standing::Kept;
use aw_store::{Added, Equation, Facts};
use std::alloc::{AllocError, Global};
use std::sync::ledger::Ledger;

/// Adds an equation where its left side, which has this slot, has none, and tests each rule that waited for that. An error
/// and a conflict change nothing but the names of the store.
fn tell<F: Facts, L: Ledger>(
    grammar: &Grammar,
    facts: &mut F,
    kept: &mut Kept,
    slot: usize,
    e: Equation,
    steps: &mut Steps<L>,
) -> Result<Added, AllocError>
    requires few { has_few (equation_of e) ≡ true }
    requires fits { IsFitKept (grammar_of grammar.now) (F.names facts.old) kept.old }
    requires slot { slice_get (F.names facts.old) slot ≡ Some e.left }
    ensures added { IfOk result (λ added. Adds (F.map facts.old) e added (F.map facts.new)) }
    ensures names { Grows (F.names facts.old) (F.names facts.new) }
    ensures err { OnErr result (F.map facts.new ≡ F.map facts.old) }
    ensures ready { F.is_ready facts.old (equation_of e) → (x : PlainEquation) → F.is_ready facts.old x → F.is_ready facts.new x }
    ensures sure { F.is_ready facts.old (equation_of e) → IsAddable (F.map facts.old) (equation_of e) → IsOk result }
    ensures fits { IsFitKept (grammar_of grammar.now) (F.names facts.new) kept.new }
    ensures kept { (row : Row) → IsKept (grammar_of grammar.now) row (F.map facts.old) (F.names facts.old) kept.old →
        IsKept (grammar_of grammar.now) row (F.map facts.new) (F.names facts.new) kept.new }
    ensures steps { (row : Row) → IsKept (grammar_of grammar.now) row (F.map facts.old) (F.names facts.old) kept.old →
        steps.new ≤ steps.old + waiting_on e.left (site_worklist (grammar_of grammar.now) (F.map facts.old) (all_of (grammar_of grammar.now) row.items)) }
{
    match facts.add(e)? {
        Added::New => {
            kept.learn(slot, grammar, &*facts, steps);
            Ok(Added::New)
        }
        told => Ok(told),
    }
}

/// Adds an equation where its left side has none, and tests each rule that waited for that. An error and a conflict change
/// nothing but the names of the store.
pub fn learn<F: Facts, L: Ledger>(
    grammar: &Grammar,
    facts: &mut F,
    kept: &mut Kept,
    e: Equation,
    steps: &mut Steps<L>,
) -> Result<Added, AllocError>
    requires few { has_few (equation_of e) ≡ true }
    requires fits { IsFitKept (grammar_of grammar.now) (F.names facts.old) kept.old }
    ensures added { IfOk result (λ added. Adds (F.map facts.old) e added (F.map facts.new)) }
    ensures names { Grows (F.names facts.old) (F.names facts.new) }
    ensures err { OnErr result (F.map facts.new ≡ F.map facts.old) }
    ensures kept { (row : Row) → IsKept (grammar_of grammar.now) row (F.map facts.old) (F.names facts.old) kept.old →
        IsKept (grammar_of grammar.now) row (F.map facts.new) (F.names facts.new) kept.new }
    ensures steps { (row : Row) → IsKept (grammar_of grammar.now) row (F.map facts.old) (F.names facts.old) kept.old →
        steps.new ≤ steps.old + waiting_on e.left (site_worklist (grammar_of grammar.now) (F.map facts.old) (all_of (grammar_of grammar.now) row.items)) }
{
    match facts.intern(&e.left) {
        Ok(slot) => tell(grammar, facts, kept, slot, e, steps),
        Err(error) => {
            drop(e);
            Err(error)
        }
    }
}

/// Adds an equation that is ready and contradicts none, and tests each rule that waited for its left side, which is named.
/// Nothing can be refused.
fn learn_sure<F: Facts, L: Ledger>(
    grammar: &Grammar,
    facts: &mut F,
    kept: &mut Kept,
    e: Equation,
    steps: &mut Steps<L>,
)
    requires few { has_few (equation_of e) ≡ true }
    requires free { IsAddable (F.map facts.old) (equation_of e) }
    requires ready { F.is_ready facts.old (equation_of e) }
    requires named { is_named (F.names facts.old) e.left ≡ true }
    requires fits { IsFitKept (grammar_of grammar.now) (F.names facts.old) kept.old }
    ensures map { F.map facts.new ≡ add_on (find (F.map facts.old) e.left) (F.map facts.old) (equation_of e) }
    ensures ready { (x : PlainEquation) → F.is_ready facts.old x → F.is_ready facts.new x }
    ensures names { Grows (F.names facts.old) (F.names facts.new) }
    ensures fits { IsFitKept (grammar_of grammar.now) (F.names facts.new) kept.new }
    ensures kept { (row : Row) → IsKept (grammar_of grammar.now) row (F.map facts.old) (F.names facts.old) kept.old →
        IsKept (grammar_of grammar.now) row (F.map facts.new) (F.names facts.new) kept.new }
    ensures steps { (row : Row) → IsKept (grammar_of grammar.now) row (F.map facts.old) (F.names facts.old) kept.old →
        steps.new ≤ steps.old + waiting_on e.left (site_worklist (grammar_of grammar.now) (F.map facts.old) (all_of (grammar_of grammar.now) row.items)) }
{
    match facts.slot_of(&e.left) {
        Some(slot) => match tell(grammar, facts, kept, slot, e, steps) {
            Ok(told) => drop(told),
            Err(_) => unreachable!(),
        },
        None => unreachable!(),
    }
}

/// Adds each of the equations whose left side has none when its turn comes, and tests each rule that waited for it then. They
/// are ready, their left sides are named, and none contradicts what is there then. Nothing can be refused.
pub fn learn_in_turn<F: Facts, L: Ledger>(
    grammar: &Grammar,
    facts: &mut F,
    kept: &mut Kept,
    es: Vec<Equation>,
    steps: &mut Steps<L>,
)
    requires few { all_few (list_map equation_of es.items) ≡ true }
    requires free { first_clash (F.map facts.old) (list_map equation_of es.items) ≡ None }
    requires ready { (e : PlainEquation) → Contains (list_map equation_of es.items) e → F.is_ready facts.old e }
    requires named { all_named (F.names facts.old) (lefts_of (list_map equation_of es.items)) ≡ true }
    requires fits { IsFitKept (grammar_of grammar.now) (F.names facts.old) kept.old }
    ensures map { F.map facts.new ≡ add_all (F.map facts.old) (list_map equation_of es.items) }
    ensures names { Grows (F.names facts.old) (F.names facts.new) }
    ensures kept { (row : Row) → IsKept (grammar_of grammar.now) row (F.map facts.old) (F.names facts.old) kept.old →
        IsKept (grammar_of grammar.now) row (F.map facts.new) (F.names facts.new) kept.new }
    ensures steps { (row : Row) → IsKept (grammar_of grammar.now) row (F.map facts.old) (F.names facts.old) kept.old →
        steps.new ≤ steps.old + turns_cost (grammar_of grammar.now) (all_of (grammar_of grammar.now) row.items) (F.map facts.old) (list_map equation_of es.items) }
{
    for e in es {
        learn_sure(grammar, facts, kept, e, steps);
    }
}

/// Tests each rule that waited for a reference that has an equation now.
fn wake<F: Facts, L: Ledger>(
    grammar: &Grammar,
    facts: &F,
    kept: &mut Kept,
    left: &Ref,
    steps: &mut Steps<L>,
)
    requires fits { IsFitKept (grammar_of grammar.now) (F.names facts.now) kept.old }
    requires known { is_some (find (F.map facts.now) left.now) ≡ true }
    ensures fits { IsFitKept (grammar_of grammar.now) (F.names facts.now) kept.new }
    ensures kept { (row : Row) (late : List RefName) →
        IsKeptBut (grammar_of grammar.now) row (F.map facts.now) (F.names facts.now) (left.now ∷ late) kept.old →
        IsKeptBut (grammar_of grammar.now) row (F.map facts.now) (F.names facts.now) late kept.new }
    ensures room { (n w : ℕ) → HasRoom kept.old n w → HasRoom kept.new n w }
    ensures steps { (most : RefName → ℕ) → IsBound (F.map facts.now) (F.names facts.now) kept.old most → steps.new ≤ steps.old + most left.now }
    ensures fewer { (most : RefName → ℕ) → IsBound (F.map facts.now) (F.names facts.now) kept.old most →
        IsBound (F.map facts.now) (F.names facts.now) kept.new most }
{
    match facts.slot_of(left) {
        Some(slot) => kept.learn(slot, grammar, facts, steps),
        None => unreachable!(),
    }
}

/// Copies of the left sides of equations.
pub fn copy_lefts(alloc: Global, es: &[Equation]) -> Result<Vec<Ref>, AllocError>
    ensures { IfOk result (λ lefts. lefts.items ≡ list_map left_of es.now) }
{
    let mut lefts = Vec::with_capacity(alloc, es.len())?;
    for e in es {
        lefts.push(copy_ref(&e.left)?)?;
    }
    Ok(lefts)
}

/// Tests each rule that waited for one of these references, which have equations now, once for each of them that it waited for.
pub fn wake_all<F: Facts, L: Ledger>(
    grammar: &Grammar,
    facts: &F,
    kept: &mut Kept,
    lefts: &[Ref],
    steps: &mut Steps<L>,
)
    requires fits { IsFitKept (grammar_of grammar.now) (F.names facts.now) kept.old }
    requires known { All (IsKnown (F.map facts.now)) lefts.now }
    ensures kept { (row : Row) → IsKeptBut (grammar_of grammar.now) row (F.map facts.now) (F.names facts.now) lefts.now kept.old →
        IsKept (grammar_of grammar.now) row (F.map facts.now) (F.names facts.now) kept.new }
    ensures room { (n w : ℕ) → HasRoom kept.old n w → HasRoom kept.new n w }
    ensures steps { (most : RefName → ℕ) → IsBound (F.map facts.now) (F.names facts.now) kept.old most → steps.new ≤ steps.old + sum_by most lefts.now }
{
    for left in lefts {
        wake(grammar, facts, kept, left, steps);
    }
}
