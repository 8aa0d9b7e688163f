//! Two stores that get the same calls.

use crate::call::{Call, Told, answer};
use aw_cells::CellFacts;
use aw_list::Text;
use aw_spelling::push_number;
use aw_store::{Added, Chase, ListFacts};
use std::alloc::{AllocError, Global};

/// How many calls there were, to how many the answers differed, and how many came to some of the answers.
#[derive(Clone, Copy)]
struct Tally {
    calls: u64,
    differing: u64,
    new: u64,
    same: u64,
    conflicts: u64,
    circles: u64,
}

/// A store that scans a list, and one that finds names by their hashes.
#[derive(Drop)]
pub struct Both {
    list: ListFacts,
    cells: CellFacts,
    tally: Tally,
}

/// Adds a word and a number.
fn push_count(told: &mut Text, word: &[u8], count: u64) -> Result<(), AllocError> {
    told.push_bytes(word)?;
    push_number(told, count)
}

impl Tally {
    /// Counts a call, what it came to, and whether the answers differed.
    fn count(&mut self, told: &Told, other: &Told) {
        self.calls = self.calls.wrapping_add(1);
        self.differing = self.differing.wrapping_add(u64::from(told != other));
        match told {
            Told::Added(Added::New) => self.new = self.new.wrapping_add(1),
            Told::Added(Added::Same) => self.same = self.same.wrapping_add(1),
            Told::Added(Added::Conflict { .. }) => {
                self.conflicts = self.conflicts.wrapping_add(1);
            }
            Told::End(Chase::Circle(_)) => self.circles = self.circles.wrapping_add(1),
            _ => {}
        }
    }

    /// Adds whether the answers were alike.
    fn push_alike(&self, told: &mut Text) -> Result<(), AllocError> {
        if self.differing == 0 {
            return told.push_bytes(b", answers alike");
        }
        push_count(told, b", answers that differ ", self.differing)
    }
}

impl Both {
    /// Two stores without equations and names.
    pub fn new(alloc: Global) -> Both {
        Both {
            list: ListFacts::new(alloc),
            cells: CellFacts::new(alloc),
            tally: Tally {
                calls: 0,
                differing: 0,
                new: 0,
                same: 0,
                conflicts: 0,
                circles: 0,
            },
        }
    }

    /// Makes a call on the store over hashes, and compares what it answers with what the list did.
    fn compare(&mut self, alloc: Global, call: &Call, by_list: &Told) -> Result<(), AllocError> {
        let by_cells = answer(alloc, &mut self.cells, call)?;
        self.tally.count(by_list, &by_cells);
        drop(by_cells);
        Ok(())
    }

    /// Makes a call on both stores, and compares what they answer.
    pub fn call(&mut self, alloc: Global, call: &Call) -> Result<(), AllocError> {
        let by_list = answer(alloc, &mut self.list, call)?;
        let compared = self.compare(alloc, call, &by_list);
        drop(by_list);
        compared
    }

    /// Adds what the calls came to.
    pub fn push_told(&self, told: &mut Text) -> Result<(), AllocError> {
        push_count(told, b"calls ", self.tally.calls)?;
        self.tally.push_alike(told)?;
        push_count(told, b"; new ", self.tally.new)?;
        push_count(told, b", same ", self.tally.same)?;
        push_count(told, b", conflicts ", self.tally.conflicts)?;
        push_count(told, b", circles ", self.tally.circles)?;
        told.push_bytes(b"\n")
    }
}
