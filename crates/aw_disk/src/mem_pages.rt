//! A file in memory that is read and never written, for tests: it tells its bytes, gives them in pieces, and fails where it is told to.
ghost use Rattle.std.specs.Prelude.{◌≡◌, ◌≢◌, ◌≤◌, ◌<◌, ◌↔◌, ℕ, List, Some, true, length, min, max, drop, Contains, refl};
ghost use Rattle.std.proofs.Common.{◌∙◌};
ghost use Rattle.aw_out.specs.Causes.{Rose, one_more};
ghost use Rattle.aw_out.specs.Edge.{FitsBuffer};
ghost use Rattle.aw_disk.specs.Disk.{ReadsAt};
ghost use Rattle.aw_disk.specs.Pages.{IsFile, told_bytes};
ghost use Rattle.aw_disk.specs.PagesLaws.{told_is};

use crate::memory::{DiskCalls, copy_from};
use crate::pages::Pages;
use aw_list::Text;
use aw_out::Got;

/// What is held in memory is what a file can have.
fn told(bytes: &[u8])
    ensures { IsFile bytes.now }
{
    let _count = bytes.len();
}

/// A file in memory.
#[derive(Drop)]
pub struct MemPages {
    bytes: Text,
    piece: usize,
    fails: DiskCalls,
    calls: usize,
    faults: u64,
}

impl MemPages {
    /// A file of these bytes. A read gives at most `piece` of them, and one byte where that is 0; the reads of these numbers fail.
    pub fn new(bytes: Text, piece: usize, fails: DiskCalls) -> MemPages
        ensures made { result ≡ record { bytes = bytes; piece = piece; fails = fails; calls = 0; faults = 0 } }
        ensures tells { ⟦<MemPages as Pages>⟧.bytes result ≡ Some bytes }
    {
        told(bytes.as_slice());
        MemPages {
            bytes,
            piece,
            fails,
            calls: 0,
            faults: 0,
        }
    }
}

impl Pages for MemPages {
    ghost bytes = { λ p. told_bytes true p.bytes };

    ghost faults = { λ p. p.faults };

    ghost was_read = { λ p q. q.bytes ≡ p.bytes };

    ghost is_file = { λ p b is. (told_is true p.bytes b is).2 };

    ghost unread = { λ p. refl };

    ghost read_on = { λ p q r first next. next ∙ first };

    fn read_at(&mut self, at: u64, buf: &mut [u8]) -> Got
        requires { 0 < length buf.old }
        ensures count { FitsBuffer result buf.new }
        ensures bytes { (b : List ℕ) → told_bytes true self.old.bytes ≡ Some b → ReadsAt at b result buf.new }
        ensures same { told_bytes true self.new.bytes ≡ told_bytes true self.old.bytes }
        ensures read { self.new.bytes ≡ self.old.bytes }
        ensures never_falls { self.old.faults ≤ self.new.faults }
        ensures cause { result ≡ Got.Failed → Rose self.old.faults self.new.faults }
        ensures kept { result ≢ Got.Failed → self.new.faults ≡ self.old.faults }
        // It fails exactly where it was told to.
        ensures exactly { (result ≡ Got.Failed) ↔ Contains self.old.fails self.old.calls }
        // It gives as many as it was told to, where there are so many and they have room.
        ensures piece { (n : ℕ) → result ≡ Got.Read n → n ≡ min (length (drop at self.old.bytes)) (min (max self.old.piece 1) (length buf.old)) }
        ensures noted { self.new ≡ record self.old { calls = one_more self.old.calls; faults = self.new.faults } }
    {
        let number = self.calls;
        self.calls = number.saturating_add(1);
        if self.fails.has(number) {
            self.faults = self.faults.saturating_add(1);
            return Got::Failed;
        }
        let bytes = self.bytes.as_slice();
        if at >= bytes.len() as u64 {
            return Got::End;
        }
        let most = self.piece.max(1).min(buf.len());
        Got::Read(copy_from(bytes, at as usize, buf, most))
    }
}
