//! How the file of a journal stands, found by reading it once from end to end, and its front again for a digest.
ghost use Rattle.std.specs.Prelude.{◌≡◌, ◌↔◌, ℕ, List, [], Some, length, take, IfOk, IfSome, IsSome, IsTrue};
ghost use Rattle.sha2.specs.Sha256.{sha256};
ghost use Rattle.aw_journal.specs.Format.{events_of};
ghost use Rattle.aw_journal.specs.Pieces.{OnlyReads};
ghost use Rattle.aw_journal.specs.Records.{IsAtEnd, IsBehind};
ghost use Rattle.aw_book_read.specs.Checks.{IsCheckOf, IsHeadIn};

use crate::checks::Checked;
use crate::digests::digest_front;
use aw_disk::Pages;
use aw_journal::{Begun, ReadFault, Records};
use aw_list::Text;
use std::alloc::Global;

/// What a head says: the role of a journal, and the text of its specification.
#[derive(Drop)]
pub struct HeadText {
    pub role: u16,
    pub text: Text,
}

/// What was seen of a file: its head, where one stands whole, and how the file stands.
#[derive(Drop)]
pub struct Seen {
    pub head: Option<HeadText>,
    pub checked: Checked,
}

/// How many events stand behind the place of a reader.
fn count_events<P: Pages>(
    alloc: Global,
    pages: &mut P,
    records: &mut Records,
) -> Result<u64, ReadFault>
    ensures counted { (file : List ℕ) → P.bytes pages.old ≡ Some file → IsBehind file [] records.old
        → IfOk result (λ n. (n ≡ length (events_of file)) × IsAtEnd file records.new) }
    ensures only { OnlyReads ⟦<P as Pages>⟧ result pages.old pages.new }
{
    let mut count = 0u64;
    'events: while let Some(_event) = records.next(alloc, pages)? {
        count = count.saturating_add(1);
    }
    Ok(count)
}

/// The digest of the bytes before the last gate, where it is asked for.
fn digest_if<P: Pages>(
    alloc: Global,
    pages: &mut P,
    count: u64,
    asked: bool,
) -> Result<Option<[u8; 32]>, ReadFault>
    ensures digest { (file : List ℕ) → P.bytes pages.old ≡ Some file → IfOk result (λ found. IfSome found (λ digest. digest ≡ sha256 (take count file))) }
    ensures asked { IfOk result (λ found. IsSome found ↔ IsTrue asked) }
    ensures only { OnlyReads ⟦<P as Pages>⟧ result pages.old pages.new }
{
    if !asked {
        return Ok(None);
    }
    Ok(Some(digest_front(alloc, pages, count)?))
}

/// How a file stands behind the records that count, of which it has so many.
fn judge<P: Pages>(
    alloc: Global,
    pages: &mut P,
    records: &mut Records,
    events: u64,
    digests: bool,
) -> Result<Checked, ReadFault>
    ensures checked { (file : List ℕ) → P.bytes pages.old ≡ Some file → IsAtEnd file records.old → events ≡ length (events_of file) → IfOk result (IsCheckOf file) }
    ensures digests { IfOk result (λ c. IsSome c.digest ↔ IsTrue digests) }
    ensures only { OnlyReads ⟦<P as Pages>⟧ result pages.old pages.new }
{
    let ending = records.standing(alloc, pages)?;
    let bytes = records.place();
    let digest = digest_if(alloc, pages, bytes, digests)?;
    Ok(Checked {
        standing: ending.standing,
        events,
        bytes,
        behind: ending.tail.saturating_sub(1),
        digest,
    })
}

/// How a file stands, of which a reader stands behind the head.
fn check_events<P: Pages>(
    alloc: Global,
    pages: &mut P,
    records: &mut Records,
    digests: bool,
) -> Result<Checked, ReadFault>
    ensures checked { (file : List ℕ) → P.bytes pages.old ≡ Some file → IsBehind file [] records.old → IfOk result (IsCheckOf file) }
    ensures digests { IfOk result (λ c. IsSome c.digest ↔ IsTrue digests) }
    ensures only { OnlyReads ⟦<P as Pages>⟧ result pages.old pages.new }
{
    let events = count_events(alloc, pages, records)?;
    judge(alloc, pages, records, events, digests)
}

/// The head of a file, and how the file stands; with the digest of what stands before the last gate, where that is asked for.
pub fn check<P: Pages>(alloc: Global, pages: &mut P, digests: bool) -> Result<Seen, ReadFault>
    ensures checked { (file : List ℕ) → P.bytes pages.old ≡ Some file → IfOk result (λ seen. IsCheckOf file seen.checked) }
    ensures head { (file : List ℕ) → P.bytes pages.old ≡ Some file → IfOk result (λ seen. IsHeadIn file seen.head) }
    ensures digests { IfOk result (λ seen. IsSome seen.checked.digest ↔ IsTrue digests) }
    ensures only { OnlyReads ⟦<P as Pages>⟧ result pages.old pages.new }
{
    match Records::begin(alloc, pages)? {
        Begun::Whole {
            role,
            text,
            mut records,
        } => {
            let checked = check_events(alloc, pages, &mut records, digests)?;
            Ok(Seen {
                head: Some(HeadText { role, text }),
                checked,
            })
        }
        Begun::Headless { mut records } => {
            let checked = judge(alloc, pages, &mut records, 0, digests)?;
            Ok(Seen {
                head: None,
                checked,
            })
        }
    }
}
