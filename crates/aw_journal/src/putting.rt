//! Records and heads are put on the disk: behind a closed gate first, which is then opened.
ghost use Rattle.std.specs.Prelude.{◌≡◌, ◌≢◌, ◌≤◌, ◌<◌, ◌+◌, ◌++◌, ◌∷◌, ◌^◌, [], ℕ, List, IsTrue, false, length, take};
ghost use Rattle.aw_out.specs.Causes.{Rose};
ghost use Rattle.aw_disk.specs.Disk.{LeavesOnly, Only};
ghost use Rattle.aw_journal.specs.Format.{head, front, has_head};
ghost use Rattle.aw_journal.specs.Journal.{StandsAt, IsAround, StartsClosed, behind_gate};
ghost use Rattle.aw_journal.specs.Opens.{HasEvents, BeginsClosed};

use crate::reads::settle;
use crate::steps::write_synced;
use aw_disk::{Did, Disk};
use aw_list::Text;

/// Writes a record behind its gate, which is closed, and opens it.
fn put_record<D: Disk>(disk: &mut D, gate: u64, b: &[u8]) -> Did
    requires some { 0 < length b.now }
    requires fits { gate + 1 + length b.now < 2 ^ 64 }
    requires within { IsTrue (D.tells disk.old) → gate < length (D.seen disk.old) }
    ensures done { result ≡ Did.Done → (before rest : List ℕ) (shut : ℕ) → StandsAt D.tells D.seen D.may_leave disk.old gate before rest shut
        → StandsAt D.tells D.seen D.may_leave disk.new gate before (behind_gate b.now rest) 1 }
    ensures any_moment { (before rest : List ℕ) (shut : ℕ) → StandsAt D.tells D.seen D.may_leave disk.old gate before rest shut
        → LeavesOnly D.moment D.left_since disk.old disk.new (IsAround before shut (behind_gate b.now rest)) }
    ensures tells { D.tells disk.new ≡ D.tells disk.old }
    ensures never_falls { D.faults disk.old ≤ D.faults disk.new }
    ensures cause { result ≡ Did.Failed → Rose (D.faults disk.old) (D.faults disk.new) }
    ensures kept { result ≢ Did.Failed → D.faults disk.new ≡ D.faults disk.old }
{
    match write_synced(disk, gate + 1, b) {
        Did::Done => write_synced(disk, gate, &[1]),
        Did::Failed => Did::Failed,
    }
}

/// Writes a whole record behind its gate, which is closed, and opens it; the record is dropped.
pub(crate) fn put_whole<D: Disk>(disk: &mut D, gate: u64, bytes: Text) -> Did
    requires some { 0 < length bytes }
    requires fits { gate + 1 + length bytes < 2 ^ 64 }
    requires within { IsTrue (D.tells disk.old) → gate < length (D.seen disk.old) }
    ensures done { result ≡ Did.Done → (before rest : List ℕ) (shut : ℕ) → StandsAt D.tells D.seen D.may_leave disk.old gate before rest shut
        → StandsAt D.tells D.seen D.may_leave disk.new gate before (behind_gate bytes rest) 1 }
    ensures any_moment { (before rest : List ℕ) (shut : ℕ) → StandsAt D.tells D.seen D.may_leave disk.old gate before rest shut
        → LeavesOnly D.moment D.left_since disk.old disk.new (IsAround before shut (behind_gate bytes rest)) }
    ensures tells { D.tells disk.new ≡ D.tells disk.old }
    ensures never_falls { D.faults disk.old ≤ D.faults disk.new }
    ensures cause { result ≡ Did.Failed → Rose (D.faults disk.old) (D.faults disk.new) }
    ensures kept { result ≢ Did.Failed → D.faults disk.new ≡ D.faults disk.old }
{
    put_record(disk, gate, bytes.as_slice())
}

/// Whether the first byte of a file without a head is missing, or open.
fn must_close(bytes: &[u8]) -> bool
    ensures short { IsTrue result → length bytes.now ≤ 1 }
    ensures closed { result ≡ false → has_head bytes.now ≡ false → BeginsClosed bytes.now }
{
    bytes.is_empty() || bytes.len() == 1 && bytes[0] == 1
}

/// Closes the first byte of a file without a head that begins with these two bytes or has fewer, where it must be closed.
fn close_first<D: Disk>(disk: &mut D, bytes: &[u8]) -> Did
    requires headless { has_head bytes.now ≡ false }
    requires read { IsTrue (D.tells disk.old) → bytes.now ≡ take 2 (D.seen disk.old) }
    requires durable { IsTrue (D.tells disk.old) → Only (D.seen disk.old) (D.may_leave disk.old) }
    ensures done { result ≡ Did.Done → IsTrue (D.tells disk.old) → StartsClosed D.tells D.seen D.may_leave disk.new }
    ensures any_moment { IsTrue (D.tells disk.old) → LeavesOnly D.moment D.left_since disk.old disk.new (λ c. has_head c ≡ false) }
    ensures tells { D.tells disk.new ≡ D.tells disk.old }
    ensures never_falls { D.faults disk.old ≤ D.faults disk.new }
    ensures cause { result ≡ Did.Failed → Rose (D.faults disk.old) (D.faults disk.new) }
    ensures kept { result ≢ Did.Failed → D.faults disk.new ≡ D.faults disk.old }
{
    if must_close(bytes) {
        write_synced(disk, 0, &[0])
    } else {
        settle(disk)
    }
}

/// Puts a head behind the first gate of a file without one, which is closed before, and opens it; the bytes are dropped.
pub(crate) fn put_head<D: Disk>(disk: &mut D, bytes: &[u8], fresh: Vec<u8>) -> Did
    requires headless { has_head bytes.now ≡ false }
    requires read { IsTrue (D.tells disk.old) → bytes.now ≡ take 2 (D.seen disk.old) }
    requires durable { IsTrue (D.tells disk.old) → Only (D.seen disk.old) (D.may_leave disk.old) }
    requires some { 0 < length fresh.items }
    ensures done { result ≡ Did.Done → IsTrue (D.tells disk.old) → (rest : List ℕ) × StandsAt D.tells D.seen D.may_leave disk.new 0 [] (behind_gate fresh.items rest) 1 }
    ensures any_moment { IsTrue (D.tells disk.old) → (role : ℕ) (text : List ℕ) → length (front role text []) < 2 ^ 64 → fresh.items ≡ head role text ++ 0 ∷ []
        → LeavesOnly D.moment D.left_since disk.old disk.new (HasEvents role text []) }
    ensures tells { D.tells disk.new ≡ D.tells disk.old }
    ensures never_falls { D.faults disk.old ≤ D.faults disk.new }
    ensures cause { result ≡ Did.Failed → Rose (D.faults disk.old) (D.faults disk.new) }
    ensures kept { result ≢ Did.Failed → D.faults disk.new ≡ D.faults disk.old }
{
    match close_first(disk, bytes) {
        Did::Done => put_record(disk, 0, &fresh),
        Did::Failed => Did::Failed,
    }
}
