//! A file that is read at any place, and never written.
ghost use Rattle.std.specs.Prelude.{◌≡◌, ◌≢◌, ◌≤◌, ◌<◌, ℕ, List, Some, length, refl};
ghost use Rattle.std.specs.declared.option.Option.{Option};
ghost use Rattle.std.proofs.Common.{◌∙◌};
ghost use Rattle.aw_out.specs.Causes.{Rose};
ghost use Rattle.aw_out.specs.Edge.{FitsBuffer};
ghost use Rattle.aw_disk.specs.Disk.{ReadsAt};
ghost use Rattle.aw_disk.specs.Pages.{IsFile, told_bytes};
ghost use Rattle.aw_disk.specs.PagesLaws.{told_is};
ghost use Rattle.aw_disk.specs.Quiet.{Quiet, quiet_none, quiet_more, quiet_then};

use crate::edge::Disk;
use aw_out::Got;

/// A file that is read at any place. No call writes.
pub trait Pages {
    /// Its bytes, where they are told. They stay as they are.
    ghost bytes: { Self → Option (List ℕ) };

    /// How often a call has failed.
    ghost faults: { Self → ℕ };

    /// The second is the first once it was read, any number of times.
    ghost was_read: { Self → Self → Type 0 };

    /// Some of the bytes from a place on.
    fn read_at(&mut self, at: u64, buf: &mut [u8]) -> Got
        requires { 0 < length buf.old }
        ensures count { FitsBuffer result buf.new }
        ensures bytes { (b : List ℕ) → bytes self.old ≡ Some b → ReadsAt at b result buf.new }
        ensures same { bytes self.new ≡ bytes self.old }
        ensures read { was_read self.old self.new }
        ensures never_falls { faults self.old ≤ faults self.new }
        ensures cause { result ≡ Got.Failed → Rose (faults self.old) (faults self.new) }
        ensures kept { result ≢ Got.Failed → faults self.new ≡ faults self.old };

    /// What is told is what a file can have.
    ghost is_file: { (p : Self) (b : List ℕ) → bytes p ≡ Some b → IsFile b };

    /// It need not be read.
    ghost unread: { (p : Self) → was_read p p };

    /// It is read on.
    ghost read_on: { (p q r : Self) → was_read p q → was_read q r → was_read p r };
}

/// A disk that is borrowed to be read.
#[derive(Drop)]
pub struct DiskPages<'d, D> {
    pub disk: &'d mut D,
}

impl<'d, D> DiskPages<'d, D> {
    pub fn new(disk: &'d mut D) -> DiskPages<'d, D>
        ensures disk { result.disk.now ≡ disk.old }
        ensures same_disk { result.disk.ghost_name ≡ disk.entry.ghost_name }
    {
        DiskPages { disk }
    }
}

impl<D: Disk> Pages for DiskPages<'_, D> {
    ghost bytes = { λ p. told_bytes (D.tells p.disk.now) (D.seen p.disk.now) };

    ghost faults = { λ p. D.faults p.disk.now };

    ghost was_read = { λ p q. (q.disk.ghost_name ≡ p.disk.ghost_name) × Quiet D.tells D.seen D.may_leave D.moment D.left_since p.disk.now q.disk.now };

    ghost is_file = { λ p b is. (told_is (D.tells p.disk.now) (D.seen p.disk.now) b is).2 };

    ghost unread = { λ p. (refl, quiet_none D.tells D.seen D.may_leave D.moment D.left_since D.counts_now D.only_now p.disk.now) };

    ghost read_on = { λ p q r first next. (
      next.0 ∙ first.0,
      quiet_then D.tells D.seen D.may_leave D.moment D.left_since D.counts_now D.only_now p.disk.now q.disk.now r.disk.now first.1 next.1,
    ) };

    fn read_at(&mut self, at: u64, buf: &mut [u8]) -> Got {
        self.disk.read_at(at, buf)
    }
}
