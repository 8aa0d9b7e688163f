//! The digest of the front of a file.
ghost use Rattle.std.specs.Prelude.{◌≡◌, ◌≤◌, ◌<◌, ◌+◌, ℕ, List, [], Some, length, take, IfOk, OnOk};
ghost use Rattle.sha2.specs.Hashers.{Holds256};
ghost use Rattle.sha2.specs.Sha256.{sha256};
ghost use Rattle.aw_journal.specs.Pieces.{OnlyReads};

use aw_disk::Pages;
use aw_journal::ReadFault;
use aw_out::Got;
use sha2::{Digest, Sha256};
use std::alloc::Global;

/// How many bytes are read at a time.
const PIECE: usize = 65_536;

/// Reads some bytes at a place, hashes them, and tells how many they were; none where the file ends before.
fn hash_some<P: Pages>(
    pages: &mut P,
    hasher: &mut Sha256,
    at: u64,
    room: &mut [u8],
) -> Result<usize, ReadFault>
    requires { 0 < length room.old }
    ensures fits { IfOk result (λ n. n ≤ length room.old) }
    ensures size { length room.new ≡ length room.old }
    ensures hashed { (b : List ℕ) → P.bytes pages.old ≡ Some b → Holds256 hasher.old (take at b) → IfOk result (λ n. Holds256 hasher.new (take (at + n) b)) }
    ensures ended { (b : List ℕ) → P.bytes pages.old ≡ Some b → IfOk result (λ n. n ≡ 0 → length b ≤ at) }
    ensures only { OnlyReads ⟦<P as Pages>⟧ result pages.old pages.new }
{
    match pages.read_at(at, room) {
        Got::Read(n) => {
            hasher.update(&room[..n]);
            Ok(n)
        }
        Got::End => Ok(0),
        Got::Failed => Err(ReadFault::Failed),
    }
}

/// Hashes so many bytes at the front of a file, or all where it has fewer.
fn hash_front<P: Pages>(
    pages: &mut P,
    hasher: &mut Sha256,
    room: &mut [u8],
    count: u64,
) -> Result<(), ReadFault>
    requires { 0 < length room.old }
    ensures hashed { (b : List ℕ) → P.bytes pages.old ≡ Some b → Holds256 hasher.old [] → OnOk result (Holds256 hasher.new (take count b)) }
    ensures only { OnlyReads ⟦<P as Pages>⟧ result pages.old pages.new }
{
    let mut at = 0u64;
    'pieces: while at < count {
        let most = (count - at).min(room.len() as u64) as usize;
        let n = hash_some(pages, hasher, at, &mut room[..most])?;
        if n == 0 {
            return Ok(());
        }
        at += n as u64;
    }
    Ok(())
}

/// The SHA-256 digest of so many bytes at the front of a file, or of all where it has fewer.
pub fn digest_front<P: Pages>(
    alloc: Global,
    pages: &mut P,
    count: u64,
) -> Result<[u8; 32], ReadFault>
    ensures digest { (b : List ℕ) → P.bytes pages.old ≡ Some b → IfOk result (λ digest. digest ≡ sha256 (take count b)) }
    ensures only { OnlyReads ⟦<P as Pages>⟧ result pages.old pages.new }
{
    let mut room = vec![in alloc; 0u8; PIECE]?;
    let mut hasher = Sha256::new();
    hash_front(pages, &mut hasher, &mut room, count)?;
    Ok(hasher.finalize())
}
