//! Reads a file from some place on, a piece at a time.
ghost use Rattle.std.specs.Prelude.{◌≡◌, ◌≢◌, ◌≤◌, ◌<◌, ◌+◌, ◌^◌, ℕ, List, IsTrue, true, false, IfOk, OnOk, length, take, drop};
ghost use Rattle.aw_out.specs.Causes.{Rose};
ghost use Rattle.aw_disk.specs.Disk.{Only};
ghost use Rattle.aw_journal.specs.Journal.{Quiet};
ghost use Rattle.aw_journal.specs.Reading.{HasRoom, OnlyReads, Reads};
ghost use Rattle.aw_journal.specs.declared.reads.OpenFault.TheVariants.{NoMemory};

use aw_disk::{Did, Disk, Size};
use aw_out::Got;
use std::alloc::{AllocError, Global};

/// How many bytes are read at a time.
const PIECE: usize = 65_536;

#[derive(Clone, Copy, Debug, PartialEq, Eq)]
pub enum OpenFault {
    DiskFault,
    BadHead,
    Full,
    NoMemory,
}

impl From<AllocError> for OpenFault {
    ghost from_gives = { λ _ e. e ≡ NoMemory };

    fn from(_: AllocError) -> Self {
        OpenFault::NoMemory
    }
}

/// What was read of a file.
#[derive(Drop)]
pub(crate) struct Reader {
    /// How many bytes the file has.
    pub(crate) size: u64,
    /// The bytes that were asked for last.
    pub(crate) asked: Vec<u8>,
    /// Where the bytes that are held stand in the file.
    start: u64,
    /// How many they are.
    held: usize,
    /// They, in front of the room for more.
    ahead: Vec<u8>,
}

/// Syncs. Once that is done, a crash leaves what a read gives.
pub(crate) fn settle<D: Disk>(disk: &mut D) -> Did
    ensures durable { result ≡ Did.Done → IsTrue (D.tells disk.old) → Only (D.seen disk.new) (D.may_leave disk.new) }
    ensures quiet { Quiet D.tells D.seen D.may_leave D.moment D.left_since disk.old disk.new }
    ensures never_falls { D.faults disk.old ≤ D.faults disk.new }
    ensures cause { result ≡ Did.Failed → Rose (D.faults disk.old) (D.faults disk.new) }
    ensures kept { result ≢ Did.Failed → D.faults disk.new ≡ D.faults disk.old }
{
    disk.sync()
}

/// Asks for the size of a file, of which nothing is read yet.
pub(crate) fn begin<D: Disk>(alloc: Global, disk: &mut D) -> Result<Reader, OpenFault>
    ensures room { IfOk result HasRoom }
    ensures reads { IfOk result (λ r. (file : List ℕ) → IsTrue (D.tells disk.old) → D.seen disk.old ≡ file → Reads ⟦<D as Disk>⟧ file disk.new r) }
    ensures only { OnlyReads ⟦<D as Disk>⟧ result disk.old disk.new }
{
    let ahead = vec![in alloc; 0u8; PIECE]?;
    let size = match disk.size() {
        Size::Bytes(size) => size,
        Size::Failed => return Err(OpenFault::DiskFault),
    };
    Ok(Reader {
        size,
        asked: Vec::new(alloc),
        start: 0,
        held: 0,
        ahead,
    })
}

/// Whether the byte at a place is held.
fn holds(reader: &Reader, at: u64) -> bool
    requires { HasRoom reader.now }
    ensures { result ≡ true → (reader.now.start ≤ at) × (at < reader.now.start + reader.now.held) }
{
    at >= reader.start && at - reader.start < reader.held as u64
}

/// Reads some bytes at a place and holds them. False where the file ends before it.
fn hold<D: Disk>(disk: &mut D, reader: &mut Reader, at: u64) -> Result<bool, OpenFault>
    requires { HasRoom reader.old }
    ensures room { HasRoom reader.new }
    ensures asked { (reader.new.asked ≡ reader.old.asked) × (reader.new.size ≡ reader.old.size) }
    ensures held { IfOk result (λ some. some ≡ true → (reader.new.start ≡ at) × (0 < reader.new.held)) }
    ensures reads { (file : List ℕ) → Reads ⟦<D as Disk>⟧ file disk.old reader.old → OnOk result (Reads ⟦<D as Disk>⟧ file disk.new reader.new) }
    ensures ended { (file : List ℕ) → Reads ⟦<D as Disk>⟧ file disk.old reader.old → IfOk result (λ some. some ≡ false → length file ≤ at) }
    ensures only { OnlyReads ⟦<D as Disk>⟧ result disk.old disk.new }
{
    reader.start = 0;
    reader.held = 0;
    match disk.read_at(at, &mut reader.ahead) {
        Got::Read(n) => {
            reader.start = at;
            reader.held = n;
            Ok(true)
        }
        Got::End => Ok(false),
        Got::Failed => Err(OpenFault::DiskFault),
    }
}

/// Reads at a place where no byte is held there. False where the file ends before it.
fn reach<D: Disk>(disk: &mut D, reader: &mut Reader, at: u64) -> Result<bool, OpenFault>
    requires { HasRoom reader.old }
    ensures room { HasRoom reader.new }
    ensures asked { (reader.new.asked ≡ reader.old.asked) × (reader.new.size ≡ reader.old.size) }
    ensures held { IfOk result (λ some. some ≡ true → (reader.new.start ≤ at) × (at < reader.new.start + reader.new.held)) }
    ensures reads { (file : List ℕ) → Reads ⟦<D as Disk>⟧ file disk.old reader.old → OnOk result (Reads ⟦<D as Disk>⟧ file disk.new reader.new) }
    ensures ended { (file : List ℕ) → Reads ⟦<D as Disk>⟧ file disk.old reader.old → IfOk result (λ some. some ≡ false → length file ≤ at) }
    ensures only { OnlyReads ⟦<D as Disk>⟧ result disk.old disk.new }
{
    if holds(reader, at) {
        return Ok(true);
    }
    if at >= reader.size {
        return Ok(false);
    }
    hold(disk, reader, at)
}

/// Adds to the bytes that were asked for from a place on what is held of them, where they have not come yet.
fn take_held(reader: &mut Reader, at: u64, count: usize) -> Result<(), AllocError>
    requires room { HasRoom reader.old }
    requires missing { length reader.old.asked.items < count }
    requires start { reader.old.start ≤ at + length reader.old.asked.items }
    requires held { at + length reader.old.asked.items < reader.old.start + reader.old.held }
    requires fits { at + count < 2 ^ 64 }
    ensures unmoved { (reader.new.ahead ≡ reader.old.ahead) × (reader.new.start ≡ reader.old.start) × (reader.new.held ≡ reader.old.held) × (reader.new.size ≡ reader.old.size) }
    ensures more { OnOk result (length reader.old.asked.items < length reader.new.asked.items) }
    ensures most { OnOk result (length reader.new.asked.items ≤ count) }
    ensures same { (file : List ℕ) → take reader.old.held reader.old.ahead.items ≡ take reader.old.held (drop reader.old.start file)
        → reader.old.asked.items ≡ take (length reader.old.asked.items) (drop at file) → OnOk result (reader.new.asked.items ≡ take (length reader.new.asked.items) (drop at file)) }
{
    let from = (at + reader.asked.len() as u64 - reader.start) as usize;
    let missing = count - reader.asked.len();
    let n = missing.min(reader.held - from);
    reader
        .asked
        .extend_from_slice(&reader.ahead[from..from + n])
}

/// Asks for so many bytes of the file from a place on. They are fewer where the file ends before.
pub(crate) fn ask<D: Disk>(
    disk: &mut D,
    reader: &mut Reader,
    at: u64,
    count: usize,
) -> Result<(), OpenFault>
    requires room { HasRoom reader.old }
    requires fits { at + count < 2 ^ 64 }
    ensures room { HasRoom reader.new }
    ensures size { reader.new.size ≡ reader.old.size }
    ensures reads { (file : List ℕ) → Reads ⟦<D as Disk>⟧ file disk.old reader.old → OnOk result (Reads ⟦<D as Disk>⟧ file disk.new reader.new) }
    ensures most { OnOk result (length reader.new.asked.items ≤ count) }
    ensures asked { (file : List ℕ) → Reads ⟦<D as Disk>⟧ file disk.old reader.old → OnOk result (reader.new.asked.items ≡ take count (drop at file)) }
    ensures only { OnlyReads ⟦<D as Disk>⟧ result disk.old disk.new }
{
    reader.asked.clear();
    while reader.asked.len() < count {
        let place = at + reader.asked.len() as u64;
        if !reach(disk, reader, place)? {
            return Ok(());
        }
        take_held(reader, at, count)?;
    }
    Ok(())
}
