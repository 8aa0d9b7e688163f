//! Reads a file from some place on, a piece at a time.
ghost use Rattle.std.specs.Prelude.{◌≡◌, ◌≤◌, ◌<◌, ◌+◌, ◌^◌, ℕ, List, IsTrue, Some, true, false, IfOk, OnOk, length, take, drop};
ghost use Rattle.aw_journal.specs.Pieces.{HasRoom, Holds, OnlyReads};
ghost use Rattle.aw_journal.specs.declared.pieces.ReadFault.TheVariants.{NoMemory};

use aw_disk::Pages;
use aw_out::Got;
use std::alloc::{AllocError, Global};

/// How many bytes are read at a time.
const PIECE: usize = 65_536;

/// Why a file is not read.
#[derive(Clone, Copy, Debug, PartialEq, Eq)]
pub enum ReadFault {
    /// A call failed.
    Failed,
    NoMemory,
}

impl From<AllocError> for ReadFault {
    ghost from_gives = { λ _ e. e ≡ NoMemory };

    fn from(_: AllocError) -> Self {
        ReadFault::NoMemory
    }
}

/// What was read of a file.
#[derive(Drop)]
pub(crate) struct Reader {
    /// Where the file has no byte any more.
    pub(crate) end: u64,
    /// The bytes that were asked for last.
    pub(crate) asked: Vec<u8>,
    /// Where the bytes that are held stand in the file.
    pub(crate) start: u64,
    /// How many they are.
    pub(crate) held: usize,
    /// They, in front of the room for more.
    pub(crate) ahead: Vec<u8>,
}

/// A file that has no byte from this place on, of which nothing is read yet.
pub(crate) fn begin(alloc: Global, end: u64) -> Result<Reader, AllocError>
    ensures room { IfOk result HasRoom }
    ensures end { IfOk result (λ r. r.end ≡ end) }
    ensures asked { IfOk result (λ r. length r.asked.items ≡ 0) }
    ensures holds { IfOk result (λ r. (file : List ℕ) → length file ≤ end → Holds file r) }
{
    Ok(Reader {
        end,
        asked: Vec::new(alloc),
        start: 0,
        held: 0,
        ahead: vec![in alloc; 0u8; PIECE]?,
    })
}

/// Whether the byte at a place is held.
fn holds(reader: &Reader, at: u64) -> bool
    requires { HasRoom reader.now }
    ensures { result ≡ true → (reader.now.start ≤ at) × (at < reader.now.start + reader.now.held) }
{
    at >= reader.start && at - reader.start < reader.held as u64
}

/// Reads some bytes at a place and holds them. False where the file ends before it.
fn hold<P: Pages>(pages: &mut P, reader: &mut Reader, at: u64) -> Result<bool, ReadFault>
    requires room { HasRoom reader.old }
    requires before { at < reader.old.end }
    ensures room { HasRoom reader.new }
    ensures asked { (reader.new.asked ≡ reader.old.asked) × (reader.new.end ≡ reader.old.end) }
    ensures held { IfOk result (λ some. some ≡ true → (reader.new.start ≡ at) × (0 < reader.new.held)) }
    ensures holds { (file : List ℕ) → P.bytes pages.old ≡ Some file → Holds file reader.old → OnOk result (Holds file reader.new) }
    ensures ended { (file : List ℕ) → P.bytes pages.old ≡ Some file → Holds file reader.old → IfOk result (λ some. some ≡ false → length file ≤ at) }
    ensures only { OnlyReads ⟦<P as Pages>⟧ result pages.old pages.new }
{
    reader.start = 0;
    reader.held = 0;
    match pages.read_at(at, &mut reader.ahead) {
        Got::Read(n) => {
            reader.start = at;
            reader.held = n.min((reader.end - at) as usize);
            Ok(true)
        }
        Got::End => Ok(false),
        Got::Failed => Err(ReadFault::Failed),
    }
}

/// Reads at a place where no byte is held there. False where the file ends before it.
pub(crate) fn reach<P: Pages>(
    pages: &mut P,
    reader: &mut Reader,
    at: u64,
) -> Result<bool, ReadFault>
    requires { HasRoom reader.old }
    ensures room { HasRoom reader.new }
    ensures asked { (reader.new.asked ≡ reader.old.asked) × (reader.new.end ≡ reader.old.end) }
    ensures held { IfOk result (λ some. some ≡ true → (reader.new.start ≤ at) × (at < reader.new.start + reader.new.held)) }
    ensures holds { (file : List ℕ) → P.bytes pages.old ≡ Some file → Holds file reader.old → OnOk result (Holds file reader.new) }
    ensures ended { (file : List ℕ) → P.bytes pages.old ≡ Some file → Holds file reader.old → IfOk result (λ some. some ≡ false → length file ≤ at) }
    ensures only { OnlyReads ⟦<P as Pages>⟧ result pages.old pages.new }
{
    if holds(reader, at) {
        return Ok(true);
    }
    if at >= reader.end {
        return Ok(false);
    }
    hold(pages, reader, at)
}

/// Adds to the bytes that were asked for from a place on what is held of them, where they have not come yet.
fn take_held(reader: &mut Reader, at: u64, count: usize) -> Result<(), AllocError>
    requires room { HasRoom reader.old }
    requires missing { length reader.old.asked.items < count }
    requires start { reader.old.start ≤ at + length reader.old.asked.items }
    requires held { at + length reader.old.asked.items < reader.old.start + reader.old.held }
    requires fits { at + count < 2 ^ 64 }
    ensures unmoved { (reader.new.ahead ≡ reader.old.ahead) × (reader.new.start ≡ reader.old.start) × (reader.new.held ≡ reader.old.held)
        × (reader.new.end ≡ reader.old.end) }
    ensures more { OnOk result (length reader.old.asked.items < length reader.new.asked.items) }
    ensures most { length reader.new.asked.items ≤ count }
    ensures same { (file : List ℕ) → take reader.old.held reader.old.ahead.items ≡ take reader.old.held (drop reader.old.start file)
        → reader.old.asked.items ≡ take (length reader.old.asked.items) (drop at file)
        → OnOk result (reader.new.asked.items ≡ take (length reader.new.asked.items) (drop at file)) }
{
    let from = (at + reader.asked.len() as u64 - reader.start) as usize;
    let missing = count - reader.asked.len();
    let n = missing.min(reader.held - from);
    reader
        .asked
        .extend_from_slice(&reader.ahead[from..from + n])
}

/// Asks for so many bytes of the file from a place on. They are fewer where the file ends before.
pub(crate) fn ask<P: Pages>(
    pages: &mut P,
    reader: &mut Reader,
    at: u64,
    count: usize,
) -> Result<(), ReadFault>
    requires room { HasRoom reader.old }
    requires fits { at + count < 2 ^ 64 }
    ensures room { HasRoom reader.new }
    ensures end { reader.new.end ≡ reader.old.end }
    ensures holds { (file : List ℕ) → P.bytes pages.old ≡ Some file → Holds file reader.old → OnOk result (Holds file reader.new) }
    ensures most { length reader.new.asked.items ≤ count }
    ensures asked { (file : List ℕ) → P.bytes pages.old ≡ Some file → Holds file reader.old → OnOk result (reader.new.asked.items ≡ take count (drop at file)) }
    ensures only { OnlyReads ⟦<P as Pages>⟧ result pages.old pages.new }
{
    reader.asked.clear();
    while reader.asked.len() < count {
        let place = at + reader.asked.len() as u64;
        if !reach(pages, reader, place)? {
            return Ok(());
        }
        take_held(reader, at, count)?;
    }
    Ok(())
}
