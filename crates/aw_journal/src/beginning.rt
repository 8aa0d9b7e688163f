//! The head of a file that is read, whosever it is.
ghost use Rattle.std.specs.Prelude.{◌≡◌, ◌<◌, ◌≤◌, ◌+◌, ◌^◌, ℕ, List, Some, None, true, false, ⊤, length, take, drop, IfOk, OnOk, MatchOption};
ghost use Rattle.aw_journal.specs.Beginning.{Begins, BeginsSo, IsHead, IsHeadFront};
ghost use Rattle.aw_journal.specs.Format.{u16_bytes};
ghost use Rattle.aw_journal.specs.Pieces.{HasRoom, Holds, OnlyReads};
ghost use Rattle.aw_journal.specs.Records.{reached};
ghost use Rattle.aw_journal.specs.Standing.{has_whole_head};

use crate::pieces::{ReadFault, Reader, ask, begin, reach};
use crate::records::Records;
use crate::scan::number_in;
use aw_disk::Pages;
use aw_list::Text;
use std::alloc::Global;
use std::mem::replace;

/// How many bytes stand before the text of a head: a gate, the role and the length of the text.
const HEAD_FRONT: usize = 11;

/// What stands at the front of a file.
#[derive(Drop)]
pub enum Begun {
    /// The head of a role and a specification, whole, and the records behind it.
    Whole {
        role: u16,
        text: Text,
        records: Records,
    },
    /// No head that is whole.
    Headless {
        records: Records,
    },
}

/// A role, and how long the text is that its head says it has.
#[derive(Clone, Copy)]
struct Front {
    role: u16,
    count: usize,
}

/// The role and the text of a head.
#[derive(Drop)]
struct Found {
    role: u16,
    text: Text,
}

impl Records {
    /// Reads the head of a file, and stands at the gate behind it, or at the front where no head stands whole.
    pub fn begin<P: Pages>(alloc: Global, pages: &mut P) -> Result<Begun, ReadFault>
        ensures begins { (file : List ℕ) → P.bytes pages.old ≡ Some file → IfOk result (Begins file) }
        ensures so { IfOk result BeginsSo }
        ensures only { OnlyReads ⟦<P as Pages>⟧ result pages.old pages.new }
    {
        let mut reader = begin(alloc, u64::MAX)?;
        match head_at(alloc, pages, &mut reader)? {
            Some(found) => Ok(behind_head(found, reader)),
            None => Ok(without_head(reader)),
        }
    }
}

/// Stands at the front of a file without a whole head.
fn without_head(reader: Reader) -> Begun
    requires room { HasRoom reader }
    requires few { length reader.asked.items ≤ 1048578 }
    ensures { result ≡ Begun.Headless (reached (record { headed = false; gate = 0; reader = reader })) }
{
    Begun::Headless {
        records: Records::behind(false, 0, reader),
    }
}

/// Stands behind a head.
fn behind_head(found: Found, reader: Reader) -> Begun
    requires room { HasRoom reader }
    requires few { length reader.asked.items ≤ 1048578 }
    requires fits { 12 + length found.text < 2 ^ 64 }
    ensures { result ≡ Begun.Whole found.role found.text (reached (record { headed = true; gate = 11 + length found.text; reader = reader })) }
{
    let Found { role, text } = found;
    let gate = HEAD_FRONT as u64 + text.len() as u64;
    Begun::Whole {
        role,
        text,
        records: Records::behind(true, gate, reader),
    }
}

/// The head that stands whole at the front of a file.
fn head_at<P: Pages>(
    alloc: Global,
    pages: &mut P,
    reader: &mut Reader,
) -> Result<Option<Found>, ReadFault>
    requires room { HasRoom reader.old }
    requires far { 11 ≤ reader.old.end }
    ensures room { HasRoom reader.new }
    ensures few { OnOk result (length reader.new.asked.items ≤ 1048578) }
    ensures fits { IfOk result (λ found. MatchOption found ⊤ (λ x. 12 + length x.text < 2 ^ 64)) }
    ensures holds { (file : List ℕ) → P.bytes pages.old ≡ Some file → Holds file reader.old → OnOk result (Holds file reader.new) }
    ensures found { (file : List ℕ) → P.bytes pages.old ≡ Some file → Holds file reader.old
        → IfOk result (λ found. MatchOption found (has_whole_head file ≡ false)
        (λ x. IsHead file x.role (length x.text) × (x.text ≡ take (length x.text) (drop 11 file)))) }
    ensures only { OnlyReads ⟦<P as Pages>⟧ result pages.old pages.new }
{
    let front = match front_at(pages, reader)? {
        Some(front) => front,
        None => return Ok(None),
    };
    if !goes_to(pages, reader, HEAD_FRONT as u64 + front.count as u64)? {
        return Ok(None);
    }
    match text_at(alloc, pages, reader, front.count)? {
        Some(text) => Ok(Some(Found {
            role: front.role,
            text,
        })),
        None => Ok(None),
    }
}

/// What the front of a file says of its head, where its gate is open.
fn front_at<P: Pages>(pages: &mut P, reader: &mut Reader) -> Result<Option<Front>, ReadFault>
    requires room { HasRoom reader.old }
    requires far { 11 ≤ reader.old.end }
    ensures room { HasRoom reader.new }
    ensures end { reader.new.end ≡ reader.old.end }
    ensures few { length reader.new.asked.items ≤ 11 }
    ensures fits { IfOk result (λ found. MatchOption found ⊤ (λ x. 11 + x.count < reader.old.end)) }
    ensures holds { (file : List ℕ) → P.bytes pages.old ≡ Some file → Holds file reader.old → OnOk result (Holds file reader.new) }
    ensures found { (file : List ℕ) → P.bytes pages.old ≡ Some file → Holds file reader.old
        → IfOk result (λ found. MatchOption found (has_whole_head file ≡ false) (λ x. IsHeadFront file x.role x.count)) }
    ensures only { OnlyReads ⟦<P as Pages>⟧ result pages.old pages.new }
{
    ask(pages, reader, 0, HEAD_FRONT)?;
    Ok(head_front(&reader.asked, reader.end))
}

/// Whether a byte stands at this place.
fn goes_to<P: Pages>(pages: &mut P, reader: &mut Reader, place: u64) -> Result<bool, ReadFault>
    requires room { HasRoom reader.old }
    ensures room { HasRoom reader.new }
    ensures end { reader.new.end ≡ reader.old.end }
    ensures asked { reader.new.asked ≡ reader.old.asked }
    ensures holds { (file : List ℕ) → P.bytes pages.old ≡ Some file → Holds file reader.old → OnOk result (Holds file reader.new) }
    ensures ended { (file : List ℕ) → P.bytes pages.old ≡ Some file → Holds file reader.old → IfOk result (λ yes. yes ≡ false → length file ≤ place) }
    ensures there { (file : List ℕ) → P.bytes pages.old ≡ Some file → Holds file reader.old → IfOk result (λ yes. yes ≡ true → place < length file) }
    ensures only { OnlyReads ⟦<P as Pages>⟧ result pages.old pages.new }
{
    reach(pages, reader, place)
}

/// What the first bytes of a file say of its head, where its gate is open and the text has its place with a gate behind it.
fn head_front(front: &[u8], end: u64) -> Option<Front>
    requires { 11 ≤ end }
    ensures none { result ≡ None → (file : List ℕ) → length file ≤ end → front.now ≡ take 11 file → has_whole_head file ≡ false }
    ensures some { (x : _) → result ≡ Some x → (file : List ℕ) → front.now ≡ take 11 file → IsHeadFront file x.role x.count }
    ensures fits { (x : _) → result ≡ Some x → 11 + x.count < end }
{
    if front.len() < HEAD_FRONT || front[0] != 1 {
        return None;
    }
    let count = number_in(&front[3..HEAD_FRONT]);
    if count >= end - HEAD_FRONT as u64 {
        return None;
    }
    Some(Front {
        role: role_in(&front[1..3]),
        count: count as usize,
    })
}

fn role_in(bytes: &[u8]) -> u16
    requires { length bytes.now ≡ 2 }
    ensures { u16_bytes result ≡ bytes.now }
{
    u16::from_be_bytes([bytes[0], bytes[1]])
}

/// The text of this length behind the front of a head, handed over with its memory; `None` where the file ends before.
fn text_at<P: Pages>(
    alloc: Global,
    pages: &mut P,
    reader: &mut Reader,
    count: usize,
) -> Result<Option<Text>, ReadFault>
    requires room { HasRoom reader.old }
    requires fits { 11 + count < 2 ^ 64 }
    ensures room { HasRoom reader.new }
    ensures few { OnOk result (length reader.new.asked.items ≡ 0) }
    ensures long { IfOk result (λ text. MatchOption text ⊤ (λ t. length t ≡ count)) }
    ensures holds { (file : List ℕ) → P.bytes pages.old ≡ Some file → Holds file reader.old → OnOk result (Holds file reader.new) }
    ensures text { (file : List ℕ) → P.bytes pages.old ≡ Some file → Holds file reader.old
        → IfOk result (λ text. MatchOption text (length (drop 11 file) < count) (λ t. t ≡ take count (drop 11 file))) }
    ensures only { OnlyReads ⟦<P as Pages>⟧ result pages.old pages.new }
{
    ask(pages, reader, HEAD_FRONT as u64, count)?;
    let text = replace(&mut reader.asked, Vec::new(alloc));
    if text.len() < count {
        return Ok(None);
    }
    Ok(Some(Text::from_vec(text)))
}
