//! A file as the journal sees it: what a read gives, and what a crash may leave.
ghost use Rattle.std.specs.Prelude.{◌≡◌, ◌≤◌, ◌<◌, ◌+◌, ◌^◌, ℕ, List, Bool, IsTrue, length, take, ◌≢◌};
ghost use Rattle.aw_out.specs.Causes.{Rose};
ghost use Rattle.aw_out.specs.Edge.{FitsBuffer};
ghost use Rattle.aw_disk.specs.Pages.{IsFile};
ghost use Rattle.aw_disk.specs.Disk.{Torn, Cut, Follows, Only, Elapses, ReadsAt, written};

use aw_out::Got;

/// Whether a call was done.
#[derive(Clone, Copy, Debug, PartialEq, Eq)]
pub enum Did {
    Done,
    Failed,
}

/// What the size answers.
#[derive(Clone, Copy, Debug, PartialEq, Eq)]
pub enum Size {
    Bytes(u64),
    Failed,
}

/// One file. Until a sync, a crash may leave any part of what was done since the sync before.
pub trait Disk {
    /// Whether the disk tells its bytes.
    ghost tells: { Self → Bool };

    /// The bytes that a read gives, where they are told.
    ghost seen: { Self → List ℕ };

    /// What a crash at this moment may leave.
    ghost may_leave: { Self → List ℕ → Type 0 };

    /// The moment, as a number that doesn't fall.
    ghost moment: { Self → ℕ };

    /// What a crash at some moment from that one on might have left, during a call or between two.
    ghost left_since: { Self → ℕ → List ℕ → Type 0 };

    /// How often a call has failed.
    ghost faults: { Self → ℕ };

    /// How many bytes there are.
    fn size(&mut self) -> Size
        ensures size { (n : ℕ) → result ≡ Size.Bytes n → IsTrue (tells self.old) → n ≡ length (seen self.old) }
        ensures file { (n : ℕ) → result ≡ Size.Bytes n → IsTrue (tells self.old) → IsFile (seen self.old) }
        ensures tells { tells self.new ≡ tells self.old }
        ensures seen { seen self.new ≡ seen self.old }
        ensures crash { (c : List ℕ) → may_leave self.new c → may_leave self.old c }
        ensures time { Elapses (moment self.old) (moment self.new) (left_since self.old) (left_since self.new) (may_leave self.new) }
        ensures never_falls { faults self.old ≤ faults self.new }
        ensures cause { result ≡ Size.Failed → Rose (faults self.old) (faults self.new) }
        ensures kept { result ≢ Size.Failed → faults self.new ≡ faults self.old };

    /// Some of the bytes from a place on.
    fn read_at(&mut self, at: u64, buf: &mut [u8]) -> Got
        requires { 0 < length buf.old }
        ensures count { FitsBuffer result buf.new }
        ensures bytes { IsTrue (tells self.old) → ReadsAt at (seen self.old) result buf.new }
        ensures tells { tells self.new ≡ tells self.old }
        ensures seen { seen self.new ≡ seen self.old }
        ensures crash { (c : List ℕ) → may_leave self.new c → may_leave self.old c }
        ensures time { Elapses (moment self.old) (moment self.new) (left_since self.old) (left_since self.new) (may_leave self.new) }
        ensures never_falls { faults self.old ≤ faults self.new }
        ensures cause { result ≡ Got.Failed → Rose (faults self.old) (faults self.new) }
        ensures kept { result ≢ Got.Failed → faults self.new ≡ faults self.old };

    /// Writes over what is there, and past the end. Until a sync, a crash may leave any bytes in the range.
    /// One that fails may have done any part of its work.
    fn write_at(&mut self, at: u64, b: &[u8]) -> Did
        requires some { 0 < length b.now }
        requires fits { at + length b.now < 2 ^ 64 }
        requires within { IsTrue (tells self.old) → at ≤ length (seen self.old) }
        ensures done { result ≡ Did.Done → IsTrue (tells self.old) → seen self.new ≡ written at b.now (seen self.old) }
        ensures partly { IsTrue (tells self.old) → Torn at (length b.now) (seen self.old) (seen self.new) }
        ensures tells { tells self.new ≡ tells self.old }
        ensures crash { Follows (Torn at (length b.now)) (may_leave self.old) (may_leave self.new) }
        ensures time { Elapses (moment self.old) (moment self.new) (left_since self.old) (left_since self.new) (may_leave self.new) }
        ensures never_falls { faults self.old ≤ faults self.new }
        ensures cause { result ≡ Did.Failed → Rose (faults self.old) (faults self.new) }
        ensures kept { result ≢ Did.Failed → faults self.new ≡ faults self.old };

    /// Cuts the file to a length. One that fails may have done any part of its work.
    fn cut(&mut self, len: u64) -> Did
        requires { IsTrue (tells self.old) → len ≤ length (seen self.old) }
        ensures done { result ≡ Did.Done → IsTrue (tells self.old) → seen self.new ≡ take len (seen self.old) }
        ensures partly { IsTrue (tells self.old) → Cut len (seen self.old) (seen self.new) }
        ensures tells { tells self.new ≡ tells self.old }
        ensures crash { Follows (Cut len) (may_leave self.old) (may_leave self.new) }
        ensures time { Elapses (moment self.old) (moment self.new) (left_since self.old) (left_since self.new) (may_leave self.new) }
        ensures never_falls { faults self.old ≤ faults self.new }
        ensures cause { result ≡ Did.Failed → Rose (faults self.old) (faults self.new) }
        ensures kept { result ≢ Did.Failed → faults self.new ≡ faults self.old };

    /// Once it is done, a crash leaves what a read gives. One that fails may have done any part of its work.
    fn sync(&mut self) -> Did
        ensures durable { result ≡ Did.Done → IsTrue (tells self.old) → Only (seen self.old) (may_leave self.new) }
        ensures tells { tells self.new ≡ tells self.old }
        ensures seen { seen self.new ≡ seen self.old }
        ensures crash { (c : List ℕ) → may_leave self.new c → may_leave self.old c }
        ensures time { Elapses (moment self.old) (moment self.new) (left_since self.old) (left_since self.new) (may_leave self.new) }
        ensures never_falls { faults self.old ≤ faults self.new }
        ensures cause { result ≡ Did.Failed → Rose (faults self.old) (faults self.new) }
        ensures kept { result ≢ Did.Failed → faults self.new ≡ faults self.old };

    /// What a disk reads is one of the outcomes of a crash.
    ghost reads_an_outcome: { (d : Self) → IsTrue (tells d) → may_leave d (seen d) };

    /// This moment is one of those since an earlier one.
    ghost counts_now: { (d : Self) (t : ℕ) (c : List ℕ) → t ≤ moment d → may_leave d c → left_since d t c };

    /// Since this moment there is no other.
    ghost only_now: { (d : Self) (c : List ℕ) → left_since d (moment d) c → may_leave d c };
}
