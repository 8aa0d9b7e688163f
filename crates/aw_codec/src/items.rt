//! Readers of single items: a byte, and numbers with the highest byte first. Each gives what it read and the bytes behind it.
ghost use Rattle.std.specs.Int.{w16, w32, w64};
ghost use Rattle.aw_codec.specs.Gives.{Gives};
ghost use Rattle.aw_codec.specs.Reading.{byte, number, such_that};
ghost use Rattle.aw_codec.specs.Names.{is_at_most, is_from_1_to};

use crate::unread::Unread;

/// One byte.
pub fn byte_at(bytes: &[u8]) -> Result<(u8, &[u8]), Unread>
    ensures { Gives (λ x. (x.0, x.1.now)) result (byte bytes.now) }
{
    match bytes {
        [] => Err(Unread::Short),
        [first, rest @ ..] => Ok((*first, rest)),
    }
}

/// A number of two bytes.
pub fn u16_at(bytes: &[u8]) -> Result<(u16, &[u8]), Unread>
    ensures { Gives (λ x. (x.0, x.1.now)) result (number w16 bytes.now) }
{
    if bytes.len() < 2 {
        return Err(Unread::Short);
    }
    let (front, rest) = bytes.split_at(2);
    Ok((u16::from_be_bytes([front[0], front[1]]), rest))
}

/// A number of four bytes.
pub fn u32_at(bytes: &[u8]) -> Result<(u32, &[u8]), Unread>
    ensures { Gives (λ x. (x.0, x.1.now)) result (number w32 bytes.now) }
{
    if bytes.len() < 4 {
        return Err(Unread::Short);
    }
    let (front, rest) = bytes.split_at(4);
    let number = u32::from_be_bytes([front[0], front[1], front[2], front[3]]);
    Ok((number, rest))
}

/// A number of eight bytes.
pub fn u64_at(bytes: &[u8]) -> Result<(u64, &[u8]), Unread>
    ensures { Gives (λ x. (x.0, x.1.now)) result (number w64 bytes.now) }
{
    if bytes.len() < 8 {
        return Err(Unread::Short);
    }
    let (front, rest) = bytes.split_at(8);
    let number = u64::from_be_bytes([
        front[0], front[1], front[2], front[3], front[4], front[5], front[6], front[7],
    ]);
    Ok((number, rest))
}

/// One byte that is at most `most`.
pub fn count_at(most: u8, bytes: &[u8]) -> Result<(u8, &[u8]), Unread>
    ensures { Gives (λ x. (x.0, x.1.now)) result (such_that (is_at_most most) byte bytes.now) }
{
    let (count, rest) = byte_at(bytes)?;
    if count <= most {
        Ok((count, rest))
    } else {
        Err(Unread::Bad { left: bytes.len() })
    }
}

/// One byte from 1 to `most`.
pub fn position_at(most: u8, bytes: &[u8]) -> Result<(u8, &[u8]), Unread>
    ensures { Gives (λ x. (x.0, x.1.now)) result (such_that (is_from_1_to most) byte bytes.now) }
{
    let (position, rest) = byte_at(bytes)?;
    if 1 <= position && position <= most {
        Ok((position, rest))
    } else {
        Err(Unread::Bad { left: bytes.len() })
    }
}

/// A number of two bytes from 1 to `most`.
pub fn slot_number_at(most: u16, bytes: &[u8]) -> Result<(u16, &[u8]), Unread>
    ensures { Gives (λ x. (x.0, x.1.now)) result (such_that (is_from_1_to most) (number w16) bytes.now) }
{
    let (number, rest) = u16_at(bytes)?;
    if 1 <= number && number <= most {
        Ok((number, rest))
    } else {
        Err(Unread::Bad { left: bytes.len() })
    }
}
