//! The reader of contents of texts.
ghost use Rattle.std.specs.Int.{w16};
ghost use Rattle.aw_spelling.specs.Spelling.{is_content_byte};
ghost use Rattle.aw_codec.specs.Gives.{Gives};
ghost use Rattle.aw_codec.specs.Reading.{byte, number, such_that, times};
ghost use Rattle.aw_codec.specs.Names.{is_at_most};
ghost use Rattle.aw_codec.specs.Texts.{text};

use crate::items::{byte_at, u16_at};
use crate::unread::Unread;
use aw_list::Text;
use std::alloc::Global;

fn length_at(bytes: &[u8]) -> Result<(u16, &[u8]), Unread>
    ensures { Gives (λ x. (x.0, x.1.now)) result (such_that (is_at_most 1024) (number w16) bytes.now) }
{
    let (length, rest) = u16_at(bytes)?;
    if length <= 1024 {
        Ok((length, rest))
    } else {
        Err(Unread::Bad { left: bytes.len() })
    }
}

fn content_byte_at(bytes: &[u8]) -> Result<(u8, &[u8]), Unread>
    ensures { Gives (λ x. (x.0, x.1.now)) result (such_that is_content_byte byte bytes.now) }
{
    let (first, rest) = byte_at(bytes)?;
    if first == b'\n' || 32 <= first && first != 127 {
        Ok((first, rest))
    } else {
        Err(Unread::Bad { left: bytes.len() })
    }
}

fn content_at(alloc: Global, count: u16, bytes: &[u8]) -> Result<(Text, &[u8]), Unread>
    ensures { Gives (λ x. (x.0, x.1.now)) result (times (such_that is_content_byte byte) count bytes.now) }
{
    let mut content = Vec::new(alloc);
    let mut rest = bytes;
    for _ in 0..count {
        let (found, behind) = content_byte_at(rest)?;
        content.push(found)?;
        rest = behind;
    }
    Ok((Text::from_vec(content), rest))
}

/// A content of at most 1,024 bytes, behind its length.
#[tactic(auto, unfolding(crate::specs::Texts::text))]
pub fn text_at(alloc: Global, bytes: &[u8]) -> Result<(Text, &[u8]), Unread>
    ensures { Gives (λ x. (x.0, x.1.now)) result (text bytes.now) }
{
    let (length, rest) = length_at(bytes)?;
    content_at(alloc, length, rest)
}
