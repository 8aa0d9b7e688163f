//! The relations of a grammar's sorts: which results depend on which inherited values.
ghost use Rattle.std.specs.Prelude.{◌≡◌, ℕ, ◌+◌, ◌*◌, ◌<◌, ◌≤◌, ◌↔◌, ◌⊎◌, true, length, slice_get, slice_set, IfOk, IsTrue};
ghost use Rattle.aw_grammar.specs.declared.grammar.Grammar.{Grammar as GrammarValue};
ghost use Rattle.aw_iograph.specs.Pairs.{Has, HasSort, IsFor, IsNumber};
ghost use Rattle.aw_iograph.specs.Growth.{Grown};

use aw_grammar::Grammar;
use std::alloc::{AllocError, Global};

/// The results of a sort are so many at most, and so are its inherited values.
pub(crate) const RESULTS: usize = 8;

/// The pairs of a sort: each of 8 inherited values with each of 8 results.
pub(crate) const PAIRS: usize = 64;

/// Sets a mark, and says whether it was not set before.
fn mark(marks: &mut Vec<bool>, at: usize) -> bool
    requires { at < length marks.old.items }
    ensures marked { marks.new.items ≡ slice_set marks.old.items at true }
    ensures grown { Grown marks.old.items marks.new.items result }
{
    if marks[at] {
        return false;
    }
    marks[at] = true;
    true
}

/// A set of pairs for each sort: of an inherited value and a result that depends on it, both numbered from 1.
#[derive(Debug, Drop)]
pub struct Io {
    pub(crate) marks: Vec<bool>,
}

impl Io {
    /// The relations without a pair, for the sorts of a grammar.
    pub fn new(alloc: Global, g: &Grammar) -> Result<Io, AllocError>
        ensures made { IfOk result (λ io. IsFor g.now io) }
        ensures empty { IfOk result (λ io. (s i j : ℕ) → Has io s i j → ⊥) }
    {
        Ok(Io {
            marks: vec![in alloc; false; g.sorts.len() * PAIRS]?,
        })
    }

    /// Adds a pair of a sort that the relations were made for.
    pub fn add(&mut self, sort: u16, i: u8, j: u8)
        requires sort { HasSort self.old sort }
        requires inherited { IsNumber i }
        requires result { IsNumber j }
        ensures made { (g : GrammarValue) → IsFor g self.old → IsFor g self.new }
        ensures sorts { (s : ℕ) → HasSort self.old s → HasSort self.new s }
        ensures there { Has self.new sort i j }
        ensures kept { (s k l : ℕ) → Has self.old s k l → Has self.new s k l }
        ensures only { (s k l : ℕ) → Has self.new s k l → Has self.old s k l ⊎ ((s ≡ sort) × (k ≡ i) × (l ≡ j)) }
    {
        let _ = self.insert(sort, i, j);
    }

    /// Adds a pair, and says whether it was not there before.
    pub(crate) fn insert(&mut self, sort: u16, i: u8, j: u8) -> bool
        requires sort { HasSort self.old sort }
        requires inherited { IsNumber i }
        requires result { IsNumber j }
        ensures grown { Grown self.old.marks.items self.new.marks.items result }
        ensures there { Has self.new sort i j }
        ensures only { (s k l : ℕ) → Has self.new s k l → Has self.old s k l ⊎ ((s ≡ sort) × (k ≡ i) × (l ≡ j)) }
    {
        mark(
            &mut self.marks,
            usize::from(sort) * PAIRS + (usize::from(i) - 1) * RESULTS + (usize::from(j) - 1),
        )
    }

    /// The same relations once more.
    pub(crate) fn copy(&self, alloc: Global) -> Result<Io, AllocError>
        ensures { IfOk result (λ io. io.marks.items ≡ self.now.marks.items) }
    {
        Ok(Io {
            marks: self.marks.as_slice().to_vec(alloc)?,
        })
    }

    /// Whether a pair is in the relation of a sort.
    pub fn has(&self, sort: u16, i: u8, j: u8) -> bool
        ensures { IsTrue result ↔ Has self.now sort i j }
    {
        if i == 0 || i > 8 || j == 0 || j > 8 {
            return false;
        }
        let at = usize::from(sort) * PAIRS + (usize::from(i) - 1) * RESULTS + (usize::from(j) - 1);
        matches!(self.marks.get(at), Some(true))
    }

    /// The marks of a sort's pairs, by inherited value and then by result. Those that the relations do not reach are left out.
    pub(crate) fn pairs(&self, sort: u16) -> &[bool]
        ensures few { length result.now ≤ 64 }
        ensures marks { (n : ℕ) → n < 64 → slice_get result.now n ≡ slice_get self.now.marks.items (sort * 64 + n) }
    {
        let marks = self.marks.as_slice();
        let first = usize::from(sort) * PAIRS;
        let start = if first < marks.len() {
            first
        } else {
            marks.len()
        };
        let left = marks.len() - start;
        let end = if left < PAIRS {
            marks.len()
        } else {
            start + PAIRS
        };
        &marks[start..end]
    }
}
