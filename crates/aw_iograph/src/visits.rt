//! When rules were last visited, and when the relations of sorts last grew.
ghost use Rattle.std.specs.Prelude.{◌≡◌, ◌<◌, ◌≤◌, true, false, length, slice_set, slice_index, IfOk};
ghost use Rattle.aw_iograph.specs.declared.io.Io.{Io};
ghost use Rattle.aw_iograph.specs.Visiting.{AreStill, IsCalm, AreVisited};

use aw_grammar::{Children, Grammar};
use std::alloc::{AllocError, Global};

/// Whether the relation of a sort grew in a visit or since.
fn has_grown(sort: u16, visit: u64, sorts: &[u64]) -> bool
    ensures { result ≡ false → slice_index sorts.now sort < visit }
{
    match sorts.get(usize::from(sort)) {
        Some(last) => *last >= visit,
        None => true,
    }
}

/// Whether the relation of a child's sort grew in a visit or since.
fn has_grown_child(children: &Children, visit: u64, sorts: &[u64]) -> bool
    ensures { result ≡ false → AreStill children.now sorts.now visit }
{
    for child in children.as_slice() {
        if has_grown(child.sort, visit, sorts) {
            return true;
        }
    }
    false
}

/// Visits are counted from 1. For each rule the number of its last visit is kept, and for each sort that of the last visit in
/// which its relation grew, or else 0.
#[derive(Debug, Drop)]
pub struct Visits {
    pub(crate) count: u64,
    pub(crate) rules: Vec<u64>,
    pub(crate) sorts: Vec<u64>,
}

impl Visits {
    /// No visit yet to a rule of a grammar.
    pub(crate) fn new(alloc: Global, g: &Grammar) -> Result<Visits, AllocError>
        ensures { IfOk result (λ visits. (io : Io) → AreVisited g.now io visits) }
    {
        Ok(Visits {
            count: 1,
            rules: vec![in alloc; 0u64; g.rules.len()]?,
            sorts: vec![in alloc; 0u64; g.sorts.len()]?,
        })
    }

    /// Whether a rule was visited, and the relations of its children have not grown since.
    pub(crate) fn is_calm(&self, rule: usize, children: &Children) -> bool
        requires { rule < length self.now.rules.items }
        ensures { result ≡ true → IsCalm self.now rule children.now }
    {
        let last = self.rules[rule];
        last > 0 && !has_grown_child(children, last, self.sorts.as_slice())
    }

    /// Notes a visit to a rule, and whether the relation of its sort grew in it.
    pub(crate) fn note(&mut self, rule: usize, sort: u16, grew: bool)
        requires rule { rule < length self.old.rules.items }
        requires sort { sort < length self.old.sorts.items }
        ensures rules { self.new.rules.items ≡ slice_set self.old.rules.items rule self.old.count }
        ensures grown { grew ≡ true → self.new.sorts.items ≡ slice_set self.old.sorts.items sort self.old.count }
        ensures same { grew ≡ false → self.new.sorts.items ≡ self.old.sorts.items }
        ensures count { self.old.count ≤ self.new.count }
    {
        self.rules[rule] = self.count;
        if grew {
            self.sorts[usize::from(sort)] = self.count;
        }
        self.count = self.count.saturating_add(1);
    }
}
