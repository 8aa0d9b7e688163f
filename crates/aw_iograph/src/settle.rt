//! The least relations that are closed under the rules of a grammar.
ghost use Rattle.std.specs.Prelude.{◌≡◌, ◌↔◌, ◌⊎◌, ◌-◌, ◌<◌, ℕ, false, length, slice_get, Some, IfOk, OnOk};
ghost use Rattle.aw_grammar.specs.GrammarView.{rule_of};
ghost use Rattle.aw_grammar.specs.GrammarOf.{grammar_of};
ghost use Rattle.aw_iograph.specs.Graphs.{Plus};
ghost use Rattle.aw_iograph.specs.Growth.{Grown};
ghost use Rattle.aw_iograph.specs.Rows.{HasBit, IsIn};
ghost use Rattle.aw_iograph.specs.Occurrences.{inherited, given, place_of};
ghost use Rattle.aw_iograph.specs.Dependence.{Edge, IO, Follows, Walk, IsKept, IsClosedUnder, IsHeldBy, IsLeastFrom};
ghost use Rattle.aw_iograph.specs.Visiting.{AreVisited};
ghost use Rattle.aw_iograph.specs.Widening.{IsWidened};
ghost use Rattle.aw_iograph.specs.Pairs.{Has, HasSort, IsFor, IsNumber};

use crate::io::Io;
use crate::joins::rule_rows;
use crate::rows::has_bit;
use crate::rules::small_rule;
use crate::visits::Visits;
use aw_grammar::{Grammar, Rule};
use std::alloc::{AllocError, Global};

/// Inherited values and results have the numbers from 1 up to this one, which is none of theirs.
const AFTER_LAST: u8 = 9;

/// The place before that of the left side's first result.
const BEFORE_RESULTS: usize = 7;

/// Adds a pair where its inherited value is in the row of its result, and says whether it was not there before.
fn add_reached(io: &mut Io, sort: u16, i: u8, j: u8, row: u128) -> bool
    requires sort { HasSort io.old sort }
    requires inherited { IsNumber i }
    requires result { IsNumber j }
    ensures grown { Grown io.old.marks.items io.new.marks.items result }
    ensures there { HasBit row (i - 1) → Has io.new sort i j }
    ensures only { (s k l : ℕ) → Has io.new s k l → Has io.old s k l ⊎ ((s ≡ sort) × (l ≡ j) × HasBit row (k - 1)) }
{
    if has_bit(row, i - 1) {
        io.insert(sort, i, j)
    } else {
        false
    }
}

/// Adds the pairs of a result and each inherited value in its row.
fn add_row(io: &mut Io, sort: u16, j: u8, row: u128) -> bool
    requires sort { HasSort io.old sort }
    requires result { IsNumber j }
    ensures grown { Grown io.old.marks.items io.new.marks.items result }
    ensures there { (i : ℕ) → IsNumber i → HasBit row (i - 1) → Has io.new sort i j }
    ensures only { (s k l : ℕ) → Has io.new s k l → Has io.old s k l ⊎ ((s ≡ sort) × (l ≡ j) × HasBit row (k - 1)) }
{
    let mut added = false;
    for i in 1..AFTER_LAST {
        if add_reached(io, sort, i, j, row) {
            added = true;
        }
    }
    added
}

/// Adds the pairs of each result and each inherited value in its row.
fn add_rows(io: &mut Io, sort: u16, rows: &[u128]) -> bool
    requires sort { HasSort io.old sort }
    requires size { length rows.now ≡ 144 }
    ensures grown { Grown io.old.marks.items io.new.marks.items result }
    ensures there { (i j : ℕ) → IsNumber i → IsNumber j → IsIn rows.now (place_of (given 0 j)) (place_of (inherited 0 i)) → Has io.new sort i j }
    ensures only { (s k l : ℕ) → Has io.new s k l →
        Has io.old s k l ⊎ ((s ≡ sort) × IsIn rows.now (place_of (given 0 l)) (place_of (inherited 0 k))) }
{
    let mut added = false;
    for j in 1..AFTER_LAST {
        if add_row(io, sort, j, rows[BEFORE_RESULTS + usize::from(j)]) {
            added = true;
        }
    }
    added
}

/// Adds the pairs of a rule: those with a walk over its text and over the relations at its children.
fn visit(alloc: Global, g: &Grammar, rule: usize, io: &mut Io) -> Result<bool, AllocError>
    requires rule { rule < length g.now.rules }
    requires made { IsFor g.now io.old }
    ensures grown { IfOk result (λ added. Grown io.old.marks.items io.new.marks.items added) }
    ensures kept { OnOk result ((r : Rule) → slice_get g.now.rules rule ≡ Some r → (i j : ℕ) →
        Plus (Edge (rule_of g.now.sorts r) (Has io.old)) (inherited 0 i) (given 0 j) → Has io.new r.sort i j) }
    ensures only { OnOk result ((s i j : ℕ) → Has io.new s i j → Has io.old s i j ⊎ Walk (grammar_of g.now) (Has io.old) s i j) }
    ensures others { OnOk result ((r : Rule) → slice_get g.now.rules rule ≡ Some r → (s i j : ℕ) → Has io.new s i j → Has io.old s i j ⊎ (s ≡ r.sort)) }
{
    let rule = small_rule(g, rule);
    let rows = rule_rows(alloc, g, io, rule)?;
    let added = add_rows(io, rule.sort, rows.as_slice());
    Ok(added)
}

/// Adds the pairs of a rule, unless it was visited and no child's relation grew since. If none was added, none is left to add.
fn revisit(
    alloc: Global,
    g: &Grammar,
    rule: usize,
    visits: &mut Visits,
    io: &mut Io,
) -> Result<bool, AllocError>
    requires rule { rule < length g.now.rules }
    requires made { IsFor g.now io.old }
    requires visited { AreVisited g.now io.old visits.old }
    ensures grown { IfOk result (λ added. Grown io.old.marks.items io.new.marks.items added) }
    ensures kept { IfOk result (λ added. added ≡ false → (r : Rule) → slice_get g.now.rules rule ≡ Some r → IsKept (Has io.new) (rule_of g.now.sorts r)) }
    ensures only { OnOk result ((s i j : ℕ) → Has io.new s i j → Has io.old s i j ⊎ Walk (grammar_of g.now) (Has io.old) s i j) }
    ensures visited { OnOk result (AreVisited g.now io.new visits.new) }
{
    let found = small_rule(g, rule);
    if visits.is_calm(rule, &found.children) {
        return Ok(false);
    }
    let added = visit(alloc, g, rule, io)?;
    visits.note(rule, found.sort, added);
    Ok(added)
}

/// Adds the pairs of each rule that is due, and says whether one was added. If none was, the relations are closed.
///
/// The last rule comes first, since a sort is mostly declared after those that have it as a child.
fn sweep(alloc: Global, g: &Grammar, visits: &mut Visits, io: &mut Io) -> Result<bool, AllocError>
    requires made { IsFor g.now io.old }
    requires visited { AreVisited g.now io.old visits.old }
    ensures grown { IfOk result (λ added. Grown io.old.marks.items io.new.marks.items added) }
    ensures follows { OnOk result ((s i j : ℕ) → Has io.new s i j → Follows (grammar_of g.now) (Has io.old) s i j) }
    ensures closed { IfOk result (λ added. added ≡ false → IsClosedUnder (grammar_of g.now) (Has io.new)) }
    ensures visited { OnOk result (AreVisited g.now io.new visits.new) }
{
    let rules = g.rules.len();
    let mut added = false;
    for done in 0..rules {
        if revisit(alloc, g, rules - 1 - done, visits, io)? {
            added = true;
        }
    }
    Ok(added)
}

/// Adds pairs until the relations are closed under the rules.
fn settle(alloc: Global, g: &Grammar, io: &mut Io) -> Result<(), AllocError>
    requires { IsFor g.now io.old }
    ensures widened { OnOk result (IsWidened g.now io.old io.new) }
    ensures closed { OnOk result (IsClosedUnder (grammar_of g.now) (Has io.new)) }
{
    let mut visits = Visits::new(alloc, g)?;
    while sweep(alloc, g, &mut visits, io)? {}
    Ok(())
}

/// The dependence relations of a grammar's sorts: the least that are closed under its rules.
pub fn io_of(alloc: Global, g: &Grammar) -> Result<Io, AllocError>
    ensures made { IfOk result (λ io. IsFor g.now io) }
    ensures exact { IfOk result (λ io. (s i j : ℕ) → Has io s i j ↔ IO (grammar_of g.now) s i j) }
{
    let mut io = Io::new(alloc, g)?;
    settle(alloc, g, &mut io)?;
    Ok(io)
}

/// The least relations that hold a seed, which was made for this grammar, and are closed under its rules.
pub fn io_from(alloc: Global, g: &Grammar, seed: &Io) -> Result<Io, AllocError>
    requires { IsFor g.now seed.now }
    ensures made { IfOk result (λ io. IsFor g.now io) }
    ensures exact { IfOk result (λ io. (s i j : ℕ) → Has io s i j ↔ Follows (grammar_of g.now) (Has seed.now) s i j) }
    ensures held { IfOk result (λ io. IsHeldBy (Has seed.now) (Has io)) }
    ensures closed { IfOk result (λ io. IsClosedUnder (grammar_of g.now) (Has io)) }
    ensures least { IfOk result (λ io. IsLeastFrom (Has seed.now) (grammar_of g.now) (Has io)) }
{
    let mut io = seed.copy(alloc)?;
    settle(alloc, g, &mut io)?;
    Ok(io)
}
