//! The head of a journal: its bytes, whether they stand, and what is ready before a journal is started.
ghost use Rattle.std.specs.Prelude.{◌≡◌, ◌≤◌, ◌+◌, ◌++◌, ◌∷◌, ◌↔◌, [], ℕ, List, IsTrue, ◌==◌, length, IfOk, IfErr, OnOk};
ghost use Rattle.aw_journal.specs.Format.{u64_bytes, u16_bytes, head, front, has_head, end_of_head};
ghost use Rattle.aw_journal.specs.Openings.{IsStartFault};

use crate::reads::OpenFault;
use aw_list::Text;
use std::alloc::{AllocError, Global};

/// How many bytes stand before the text of a head: a gate, the role and the length of the text.
pub(crate) const HEAD_FRONT: u64 = 11;

/// How many bytes a head has beside its text, with its gate and the one behind it.
const HEAD_AND_GATES: u64 = 12;

fn length_bytes(n: u64) -> [u8; 8]
    ensures { result ≡ u64_bytes n }
{
    n.to_be_bytes()
}

fn role_bytes(role: u16) -> [u8; 2]
    ensures { result ≡ u16_bytes role }
{
    role.to_be_bytes()
}

/// Whether a head stands.
pub(crate) fn stands(bytes: &[u8]) -> bool
    ensures { result ≡ has_head bytes.now }
{
    bytes.len() >= 2 && bytes[0] == 1
}

/// Whether a head of a text of this length and the gate behind it stand within the limit.
fn has_place(len: usize, limit: u64) -> bool
    ensures { IsTrue result ↔ end_of_head len ≤ limit }
{
    match (len as u64).checked_add(HEAD_AND_GATES) {
        Some(end) => end <= limit,
        None => false,
    }
}

/// Whether the bytes begin with an open gate.
pub(crate) fn begins_open(bytes: &[u8]) -> bool
    ensures { (gate : ℕ) (rest : List ℕ) → bytes.now ≡ gate ∷ rest → result ≡ (gate == 1) }
{
    !bytes.is_empty() && bytes[0] == 1
}

/// Whether the bytes begin with these and go on.
pub(crate) fn goes_on(bytes: &[u8], front: &[u8]) -> bool
    ensures { IsTrue result ↔ (byte : ℕ) × (rest : List ℕ) × (bytes.now ≡ front.now ++ byte ∷ rest) }
{
    if front.len() >= bytes.len() {
        return false;
    }
    bytes.starts_with(front)
}

/// An open gate and the head behind it.
pub(crate) fn open_head(alloc: Global, role: u16, text: &[u8]) -> Result<Vec<u8>, AllocError>
    ensures { IfOk result (λ bytes. bytes.items ≡ 1 ∷ head role text.now) }
{
    let mut bytes = Vec::new(alloc);
    bytes.push(1)?;
    bytes.extend_from_slice(&role_bytes(role))?;
    bytes.extend_from_slice(&length_bytes(text.len() as u64))?;
    bytes.extend_from_slice(text)?;
    Ok(bytes)
}

/// The head behind its gate, and a closed gate.
fn head_behind(alloc: Global, role: u16, text: &[u8]) -> Result<Vec<u8>, AllocError>
    ensures { IfOk result (λ bytes. bytes.items ≡ head role text.now ++ 0 ∷ []) }
{
    let mut bytes = Vec::new(alloc);
    bytes.extend_from_slice(&role_bytes(role))?;
    bytes.extend_from_slice(&length_bytes(text.len() as u64))?;
    bytes.extend_from_slice(text)?;
    bytes.push(0)?;
    Ok(bytes)
}

/// What is ready before a journal is started.
#[derive(Drop)]
pub(crate) struct Beginning {
    /// The text, kept.
    pub(crate) text: Text,
    /// The head behind its gate, and a closed gate.
    pub(crate) head: Vec<u8>,
}

/// The head of a journal that is started, where it has its place within the limit.
pub(crate) fn make_beginning(
    alloc: Global,
    role: u16,
    text: &[u8],
    limit: u64,
) -> Result<Beginning, OpenFault>
    ensures text { IfOk result (λ b. b.text ≡ text.now) }
    ensures bytes { IfOk result (λ b. b.head.items ≡ head role text.now ++ 0 ∷ []) }
    ensures place { OnOk result (end_of_head (length text.now) ≤ limit) }
    ensures fault { IfErr result (IsStartFault (length text.now) limit) }
{
    if !has_place(text.len(), limit) {
        return Err(OpenFault::Full);
    }
    let kept = Text::from_bytes(alloc, text)?;
    let head = head_behind(alloc, role, text)?;
    Ok(Beginning { text: kept, head })
}
