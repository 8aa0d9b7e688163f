//! Which calls of an object in memory fail, and how much each moves.
ghost use Rattle.std.specs.Prelude.{◌≡◌, ◌≤◌, Some, None, IfOk, IfSome, if◌then◌else◌};
ghost use Rattle.aw_out.specs.Causes.{one_more};
ghost use Rattle.aw_out.specs.Memory.{AreSizes, piece_at, is_named};

use std::alloc::{AllocError, Global};
use std::marker::Model;

/// The most bytes that each read or write moves, by its number. Past the end of the list the last
/// one holds.
#[derive(Drop)]
pub struct Sizes {
    sizes: Vec<usize>,
}

impl Model for Sizes {
    ghost use Rattle.std.specs.Prelude.{List, ℕ};
    ghost use Rattle.aw_out.specs.Memory.{AreSizes};

    ghost Value = { List ℕ };

    ghost view = { λ s. s.sizes.items };

    ghost invariant = { λ s. AreSizes s.sizes.items };
}

impl Sizes {
    /// These sizes, of which there is at least one. None is 0.
    pub fn from_slice(alloc: Global, sizes: &[usize]) -> Result<Sizes, AllocError>
        requires { AreSizes sizes.now }
        ensures { IfOk result (λ made. made ≡ sizes.now) }
    {
        Ok(Sizes {
            sizes: sizes.to_vec(alloc)?,
        })
    }

    fn at(&self, number: usize) -> usize
        ensures size { result ≡ piece_at self.now number }
        ensures some { 1 ≤ result }
    {
        self.sizes[number.min(self.sizes.len() - 1)]
    }
}

/// The numbers of some calls of one object, counted from 0.
#[derive(Drop)]
pub struct Calls {
    numbers: Vec<usize>,
}

impl Model for Calls {
    ghost use Rattle.std.specs.Prelude.{List, ℕ};

    ghost Value = { List ℕ };

    ghost view = { λ c. c.numbers.items };
}

impl Calls {
    /// The calls of these numbers, in any order.
    pub fn from_slice(alloc: Global, numbers: &[usize]) -> Result<Calls, AllocError>
        ensures { IfOk result (λ made. made ≡ numbers.now) }
    {
        Ok(Calls {
            numbers: numbers.to_vec(alloc)?,
        })
    }

    fn has(&self, number: usize) -> bool
        ensures { result ≡ is_named self.now number }
    {
        self.numbers.contains(&number)
    }
}

/// The pieces, the calls that fail, and how many calls were made so far, reads and writes among them, and how many faults there were.
#[derive(Drop)]
pub(crate) struct Script {
    pub(crate) pieces: Sizes,
    pub(crate) fails: Calls,
    pub(crate) calls: usize,
    pub(crate) moves: usize,
    pub(crate) faults: u64,
}

impl Script {
    /// No call was made yet.
    pub(crate) fn new(pieces: Sizes, fails: Calls) -> Script
        ensures { result ≡ record { pieces = pieces; fails = fails; calls = 0; moves = 0; faults = 0 } }
    {
        Script {
            pieces,
            fails,
            calls: 0,
            moves: 0,
            faults: 0,
        }
    }

    /// Counts a read or a write. The most bytes that it moves, or none where it is to fail.
    pub(crate) fn begin(&mut self) -> Option<usize>
        ensures most { result ≡ (if is_named self.old.fails self.old.calls then None else Some (piece_at self.old.pieces self.old.moves)) }
        ensures some { IfSome result (λ most. 1 ≤ most) }
        ensures counted { self.new ≡ record self.old { calls = one_more self.old.calls; moves = one_more self.old.moves } }
    {
        let (call, number) = (self.calls, self.moves);
        self.calls = call.saturating_add(1);
        self.moves = number.saturating_add(1);
        if self.fails.has(call) {
            return None;
        }
        Some(self.pieces.at(number))
    }

    /// Counts a fault.
    pub(crate) fn fail(&mut self)
        ensures counted { self.new ≡ record self.old { faults = one_more self.old.faults } }
        ensures never_falls { self.old.faults ≤ self.new.faults }
    {
        self.faults = self.faults.saturating_add(1);
    }
}
