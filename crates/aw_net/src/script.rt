//! Which calls of a wire in memory fail, and how much each moves.
ghost use Rattle.std.specs.Prelude.{◌≡◌, ◌≤◌};
ghost use Rattle.aw_out.specs.Memory.{AreSizes};
ghost use Rattle.aw_net.specs.MemWires.{is_failing, next_piece, called, moved, failed, failed_opening};

use crate::mem_wire::Numbers;
use std::marker::Model;

/// The most bytes that each read or write moves, the numbers of the calls that fail, and what was counted so far.
#[derive(Drop)]
pub(crate) struct Script {
    pieces: Numbers,
    fails: Numbers,
    calls: usize,
    moves: usize,
    pub(crate) faults: u64,
    pub(crate) openings: u64,
}

impl Model for Script {
    ghost use Rattle.aw_out.specs.Memory.{AreSizes};
    ghost use Rattle.aw_net.specs.MemWires as plain;

    ghost Value = { plain.Script };

    ghost view = { λ s. record { pieces = s.pieces; fails = s.fails; calls = s.calls; moves = s.moves; faults = s.faults; openings = s.openings } };

    ghost invariant = { λ s. AreSizes s.pieces };
}

impl Script {
    /// No call was made yet.
    pub(crate) fn new(pieces: Numbers, fails: Numbers) -> Script
        requires { AreSizes pieces }
        ensures { result ≡ record { pieces = pieces; fails = fails; calls = 0; moves = 0; faults = 0; openings = 0 } }
    {
        Script {
            pieces,
            fails,
            calls: 0,
            moves: 0,
            faults: 0,
            openings: 0,
        }
    }

    /// Whether the next call is to fail.
    pub(crate) fn is_failing(&self) -> bool
        ensures { result ≡ is_failing self.now }
    {
        self.fails.as_slice().contains(&self.calls)
    }

    /// The most bytes that the next read or write moves.
    pub(crate) fn next_piece(&self) -> usize
        ensures piece { result ≡ next_piece self.now }
        ensures some { 1 ≤ result }
    {
        let pieces = self.pieces.as_slice();
        pieces[self.moves.min(pieces.len() - 1)]
    }

    /// Counts a call that opens.
    pub(crate) fn count_opening(&mut self)
        ensures { self.new ≡ called self.old }
    {
        self.calls = self.calls.saturating_add(1);
    }

    /// Counts a read or a write.
    pub(crate) fn count_move(&mut self)
        ensures { self.new ≡ moved self.old }
    {
        self.calls = self.calls.saturating_add(1);
        self.moves = self.moves.saturating_add(1);
    }

    /// Counts a read or a write that failed.
    pub(crate) fn fail(&mut self)
        ensures counted { self.new ≡ failed self.old }
        ensures never_falls { self.old.faults ≤ self.new.faults }
    {
        self.faults = self.faults.saturating_add(1);
    }

    /// Counts an opening that failed.
    pub(crate) fn fail_opening(&mut self)
        ensures counted { self.new ≡ failed_opening self.old }
        ensures never_falls { self.old.faults ≤ self.new.faults }
        ensures openings { self.old.openings ≤ self.new.openings }
    {
        self.faults = self.faults.saturating_add(1);
        self.openings = self.openings.saturating_add(1);
    }
}
