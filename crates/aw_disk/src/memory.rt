//! A disk in memory, for tests: it tells its bytes, keeps a record of its calls, and fails where it is told to.
ghost use Rattle.std.specs.Prelude.{◌≡◌, ◌≢◌, ◌≤◌, ◌<◌, ◌+◌, ◌^◌, ◌↔◌, [], ℕ, List, IsTrue, true, false, length, min, take, drop, IfOk, Contains};
ghost use Rattle.aw_out.specs.Causes.{Rose};
ghost use Rattle.aw_out.specs.Edge.{FitsBuffer};
ghost use Rattle.aw_disk.specs.Disk.{written, Torn, Cut, Follows, Only, ReadsAt};
ghost use Rattle.aw_disk.specs.Record.{now, MayLeave, LeftSince, noted};
ghost use Rattle.aw_disk.specs.Pages.{IsFile};
ghost use Rattle.aw_disk.specs.Memory.{IsRefused, RefusesCall, Refuses, Idles, IsNoted};
ghost use Rattle.aw_disk.specs.Record.Op.{Looked, Wrote, Shortened, Synced};
ghost use Rattle.aw_disk.specs.RecordLaws.{reads, counts, no_other, TimePasses};

use crate::edge::{Did, Disk, Size};
use crate::record::Record;
use aw_list::Text;
use aw_out::Got;
use std::alloc::{AllocError, Global};
use std::marker::Model;

/// The numbers of some calls.
#[derive(Drop)]
pub struct DiskCalls {
    numbers: Vec<usize>,
}

impl Model for DiskCalls {
    ghost use Rattle.std.specs.Prelude.{List, ℕ};

    ghost Value = { List ℕ };

    ghost view = { λ c. c.numbers.items };
}

impl DiskCalls {
    pub fn from_slice(alloc: Global, numbers: &[usize]) -> Result<DiskCalls, AllocError>
        ensures { IfOk result (λ made. made ≡ numbers.now) }
    {
        Ok(DiskCalls {
            numbers: numbers.to_vec(alloc)?,
        })
    }

    pub(crate) fn has(&self, number: usize) -> bool
        ensures { IsTrue result ↔ Contains self.now number }
    {
        self.numbers.contains(&number)
    }
}

/// A file in memory.
#[derive(Drop)]
pub struct MemDisk {
    past: Record,
    fails: DiskCalls,
    faults: u64,
}

impl MemDisk {
    /// Takes the memory for `room` written bytes and `most` calls, and none later.
    pub fn new(
        alloc: Global,
        bytes: Text,
        fails: DiskCalls,
        room: usize,
        most: usize,
    ) -> Result<MemDisk, AllocError>
        ensures made { IfOk result (λ d. d ≡ record { past = record { start = bytes; ops = []; room = room; most = most }; fails = fails; faults = 0 }) }
    {
        Ok(MemDisk {
            past: Record::new(alloc, bytes, room, most)?,
            fails,
            faults: 0,
        })
    }

    pub fn bytes(&self) -> &[u8]
        ensures { result.now ≡ now self.now.past.start self.now.past.ops }
    {
        self.past.bytes()
    }
}

/// Whether the next call is refused: it was named, or there is no room for it. One that is refused is counted.
fn refuse(past: &mut Record, fails: &DiskCalls, fits: bool, faults: &mut u64) -> bool
    ensures answer { IsTrue result ↔ IsRefused past.old fails.now fits }
    ensures refused { IsTrue result → Rose faults.old faults.new × Idles past.old past.new }
    ensures not { result ≡ false → (faults.new ≡ faults.old) × (past.new ≡ past.old) × (length past.old.ops < past.old.most) × (fits ≡ true) }
    ensures noted { IsTrue result → IsNoted Looked past.old past.new }
    ensures never_falls { faults.old ≤ faults.new }
    ensures seen { now past.new.start past.new.ops ≡ now past.old.start past.old.ops }
    ensures crash { (c : List ℕ) → MayLeave past.new.start past.new.ops c → MayLeave past.old.start past.old.ops c }
    ensures time { TimePasses past.old past.new }
{
    if !past.has_call() {
        *faults = faults.saturating_add(1);
        return true;
    }
    if !fits || fails.has(past.count()) {
        past.look();
        *faults = faults.saturating_add(1);
        return true;
    }
    false
}

/// Some of the bytes from a place on: so many at most, which have room.
pub(crate) fn copy_from(bytes: &[u8], at: usize, buf: &mut [u8], most: usize) -> usize
    requires within { at < length bytes.now }
    requires some { 1 ≤ most }
    requires room { most ≤ length buf.old }
    ensures answer { result ≡ min (length (drop at bytes.now)) most }
    ensures count { (1 ≤ result) × (result ≤ length buf.new) × (at + result ≤ length bytes.now) }
    ensures bytes { take result buf.new ≡ take result (drop at bytes.now) }
{
    let (_, left) = bytes.split_at(at);
    let n = left.len().min(most);
    buf[..n].copy_from_slice(&left[..n]);
    n
}

impl Disk for MemDisk {
    ghost tells = { λ _. true };

    ghost seen = { λ d. now d.past.start d.past.ops };

    ghost may_leave = { λ d. MayLeave d.past.start d.past.ops };

    ghost moment = { λ d. length d.past.ops };

    ghost left_since = { λ d. LeftSince d.past.start d.past.ops };

    ghost faults = { λ d. d.faults };

    ghost reads_an_outcome = { λ d told. reads d.past.start d.past.ops };

    ghost counts_now = { λ d t c le left. counts d.past.start d.past.ops t c left };

    ghost only_now = { λ d c left. no_other d.past.start d.past.ops c left };

    fn size(&mut self) -> Size
        ensures size { (n : ℕ) → result ≡ Size.Bytes n → IsTrue true → n ≡ length (now self.old.past.start self.old.past.ops) }
        ensures file { (n : ℕ) → result ≡ Size.Bytes n → IsTrue true → IsFile (now self.old.past.start self.old.past.ops) }
        ensures tells { true ≡ true }
        ensures seen { now self.new.past.start self.new.past.ops ≡ now self.old.past.start self.old.past.ops }
        ensures crash { (c : List ℕ) → MayLeave self.new.past.start self.new.past.ops c → MayLeave self.old.past.start self.old.past.ops c }
        ensures time { TimePasses self.old.past self.new.past }
        ensures never_falls { self.old.faults ≤ self.new.faults }
        ensures cause { result ≡ Size.Failed → Rose self.old.faults self.new.faults }
        ensures kept { result ≢ Size.Failed → self.new.faults ≡ self.old.faults }
        // It fails exactly where it was told to, or has no room.
        ensures exactly { (result ≡ Size.Failed) ↔ RefusesCall self.old }
        ensures noted { IsNoted Looked self.old.past self.new.past }
        // Which calls fail stays so.
        ensures named { self.new.fails ≡ self.old.fails }
    {
        if refuse(&mut self.past, &self.fails, true, &mut self.faults) {
            return Size::Failed;
        }
        self.past.look();
        let bytes = self.past.bytes();
        Size::Bytes(bytes.len() as u64)
    }

    fn read_at(&mut self, at: u64, buf: &mut [u8]) -> Got
        requires { 0 < length buf.old }
        ensures count { FitsBuffer result buf.new }
        ensures bytes { IsTrue true → ReadsAt at (now self.old.past.start self.old.past.ops) result buf.new }
        ensures tells { true ≡ true }
        ensures seen { now self.new.past.start self.new.past.ops ≡ now self.old.past.start self.old.past.ops }
        ensures crash { (c : List ℕ) → MayLeave self.new.past.start self.new.past.ops c → MayLeave self.old.past.start self.old.past.ops c }
        ensures time { TimePasses self.old.past self.new.past }
        ensures never_falls { self.old.faults ≤ self.new.faults }
        ensures cause { result ≡ Got.Failed → Rose self.old.faults self.new.faults }
        ensures kept { result ≢ Got.Failed → self.new.faults ≡ self.old.faults }
        ensures exactly { (result ≡ Got.Failed) ↔ RefusesCall self.old }
        ensures noted { IsNoted Looked self.old.past self.new.past }
        ensures named { self.new.fails ≡ self.old.fails }
    {
        if refuse(&mut self.past, &self.fails, true, &mut self.faults) {
            return Got::Failed;
        }
        self.past.look();
        let bytes = self.past.bytes();
        if at >= bytes.len() as u64 {
            return Got::End;
        }
        let most = buf.len();
        Got::Read(copy_from(bytes, at as usize, buf, most))
    }

    fn write_at(&mut self, at: u64, b: &[u8]) -> Did
        requires some { 0 < length b.now }
        requires fits { at + length b.now < 2 ^ 64 }
        requires within { IsTrue true → at ≤ length (now self.old.past.start self.old.past.ops) }
        ensures done { result ≡ Did.Done → IsTrue true → now self.new.past.start self.new.past.ops ≡ written at b.now (now self.old.past.start self.old.past.ops) }
        ensures partly { IsTrue true → Torn at (length b.now) (now self.old.past.start self.old.past.ops) (now self.new.past.start self.new.past.ops) }
        ensures tells { true ≡ true }
        ensures crash { Follows (Torn at (length b.now)) (MayLeave self.old.past.start self.old.past.ops) (MayLeave self.new.past.start self.new.past.ops) }
        ensures time { TimePasses self.old.past self.new.past }
        ensures never_falls { self.old.faults ≤ self.new.faults }
        ensures cause { result ≡ Did.Failed → Rose self.old.faults self.new.faults }
        ensures kept { result ≢ Did.Failed → self.new.faults ≡ self.old.faults }
        ensures exactly { (result ≡ Did.Failed) ↔ Refuses self.old (length b.now) }
        ensures noted { result ≡ Did.Done → self.new.past ≡ noted (Wrote at b.now) self.old.past }
        ensures refused { result ≡ Did.Failed → IsNoted Looked self.old.past self.new.past }
        ensures named { self.new.fails ≡ self.old.fails }
    {
        let fits = self.past.has_room(b.len());
        if refuse(&mut self.past, &self.fails, fits, &mut self.faults) {
            return Did::Failed;
        }
        self.past.write(at, b);
        Did::Done
    }

    fn cut(&mut self, len: u64) -> Did
        requires { IsTrue true → len ≤ length (now self.old.past.start self.old.past.ops) }
        ensures done { result ≡ Did.Done → IsTrue true → now self.new.past.start self.new.past.ops ≡ take len (now self.old.past.start self.old.past.ops) }
        ensures partly { IsTrue true → Cut len (now self.old.past.start self.old.past.ops) (now self.new.past.start self.new.past.ops) }
        ensures tells { true ≡ true }
        ensures crash { Follows (Cut len) (MayLeave self.old.past.start self.old.past.ops) (MayLeave self.new.past.start self.new.past.ops) }
        ensures time { TimePasses self.old.past self.new.past }
        ensures never_falls { self.old.faults ≤ self.new.faults }
        ensures cause { result ≡ Did.Failed → Rose self.old.faults self.new.faults }
        ensures kept { result ≢ Did.Failed → self.new.faults ≡ self.old.faults }
        ensures exactly { (result ≡ Did.Failed) ↔ RefusesCall self.old }
        ensures noted { result ≡ Did.Done → self.new.past ≡ noted (Shortened len) self.old.past }
        ensures refused { result ≡ Did.Failed → IsNoted Looked self.old.past self.new.past }
        ensures named { self.new.fails ≡ self.old.fails }
    {
        if refuse(&mut self.past, &self.fails, true, &mut self.faults) {
            return Did::Failed;
        }
        self.past.cut(len);
        Did::Done
    }

    fn sync(&mut self) -> Did
        ensures durable { result ≡ Did.Done → IsTrue true → Only (now self.old.past.start self.old.past.ops) (MayLeave self.new.past.start self.new.past.ops) }
        ensures tells { true ≡ true }
        ensures seen { now self.new.past.start self.new.past.ops ≡ now self.old.past.start self.old.past.ops }
        ensures crash { (c : List ℕ) → MayLeave self.new.past.start self.new.past.ops c → MayLeave self.old.past.start self.old.past.ops c }
        ensures time { TimePasses self.old.past self.new.past }
        ensures never_falls { self.old.faults ≤ self.new.faults }
        ensures cause { result ≡ Did.Failed → Rose self.old.faults self.new.faults }
        ensures kept { result ≢ Did.Failed → self.new.faults ≡ self.old.faults }
        ensures exactly { (result ≡ Did.Failed) ↔ RefusesCall self.old }
        ensures noted { result ≡ Did.Done → self.new.past ≡ noted Synced self.old.past }
        ensures refused { result ≡ Did.Failed → IsNoted Looked self.old.past self.new.past }
        ensures named { self.new.fails ≡ self.old.fails }
    {
        if refuse(&mut self.past, &self.fails, true, &mut self.faults) {
            return Did::Failed;
        }
        self.past.sync();
        Did::Done
    }
}
