//! Readers of arguments. How deep they are and how many symbols they have is decided while they are read.
ghost use Rattle.std.specs.Prelude.{map, ℕ};
ghost use Rattle.aw_term.specs.Rules as plain;
ghost use Rattle.aw_term.specs.Views.{ground_of};
ghost use Rattle.aw_codec.specs.Gives.{Fails, Gives};
ghost use Rattle.aw_codec.specs.Grounds as spec;
ghost use Rattle.aw_codec.specs.GroundHead.{head_of};

use crate::items::{count_at, u16_at, u64_at};
use crate::texts::text_at;
use crate::unread::Unread;
use aw_list::Text;
use aw_term::limits::{MOST_ARGUMENTS, MOST_LEVELS, MOST_PARTS, MOST_SYMBOLS};
use aw_term::{Ground, Grounds};
use std::alloc::Global;

/// The most parts of a constructor, as a message counts them.
const PARTS: u8 = MOST_PARTS as u8;

/// The most arguments of a choice, as a message counts them.
const ARGUMENTS: u8 = MOST_ARGUMENTS as u8;

/// A number, a text, or a constructor with the number of its parts.
#[derive(Debug, Drop)]
enum Head {
    Con(u16, u8),
    Num(u64),
    Text(Text),
}

#[tactic(auto, unfolding(crate::specs::Grounds::head))]
fn head_at(alloc: Global, bytes: &[u8]) -> Result<(Head, &[u8]), Unread>
    ensures { Gives (λ x. (head_of x.0, x.1.now)) result (spec.head bytes.now) }
{
    match bytes {
        [] => Err(Unread::Short),
        [1, rest @ ..] => {
            let (con, rest) = u16_at(rest)?;
            let (parts, rest) = count_at(PARTS, rest)?;
            Ok((Head::Con(con, parts), rest))
        }
        [2, rest @ ..] => {
            let (number, rest) = u64_at(rest)?;
            Ok((Head::Num(number), rest))
        }
        [3, rest @ ..] => {
            let (text, rest) = text_at(alloc, rest)?;
            Ok((Head::Text(text), rest))
        }
        [_, ..] => Err(Unread::Bad { left: bytes.len() }),
    }
}

/// Why no term may begin here.
fn no_term(bytes: &[u8]) -> Unread
    ensures { Fails result (spec.no_term {A = plain.Ground × ℕ} bytes.now) }
{
    if bytes.is_empty() {
        Unread::Short
    } else {
        Unread::Bad { left: bytes.len() }
    }
}

/// A head with the parts that follow it, and how many of the allowed symbols they leave.
#[cycle(reading)]
fn with_parts(
    alloc: Global,
    head: Head,
    levels: u8,
    allowed: u16,
    bytes: &[u8],
) -> Result<(Ground, u16, &[u8]), Unread>
    ensures { Gives (λ x. ((ground_of x.0, x.1), x.2.now)) result (spec.with_parts (spec.ground levels) (head_of head) allowed bytes.now) }
{
    match head {
        Head::Con(con, count) => {
            let (parts, left, rest) = grounds_at(alloc, count, levels, allowed, bytes)?;
            Ok((Ground::Con(con, parts), left, rest))
        }
        Head::Num(number) => Ok((Ground::Num(number), allowed, bytes)),
        Head::Text(text) => Ok((Ground::Text(text), allowed, bytes)),
    }
}

/// A term of at most so many levels and of the allowed symbols, and how many of these it leaves.
#[cycle(reading)]
fn ground_at(
    alloc: Global,
    levels: u8,
    allowed: u16,
    bytes: &[u8],
) -> Result<(Ground, u16, &[u8]), Unread>
    ensures { Gives (λ x. ((ground_of x.0, x.1), x.2.now)) result (spec.ground levels allowed bytes.now) }
{
    if levels == 0 || allowed == 0 {
        return Err(no_term(bytes));
    }
    let (head, rest) = head_at(alloc, bytes)?;
    with_parts(alloc, head, levels - 1, allowed - 1, rest)
}

/// So many terms, and how many of the allowed symbols they leave.
#[cycle(reading)]
fn grounds_at(
    alloc: Global,
    count: u8,
    levels: u8,
    allowed: u16,
    bytes: &[u8],
) -> Result<(Grounds, u16, &[u8]), Unread>
    ensures { Gives (λ x. ((map ground_of x.0, x.1), x.2.now)) result (spec.in_turn (spec.ground levels) count allowed bytes.now) }
{
    let mut grounds = Vec::new(alloc);
    let mut left = allowed;
    let mut rest = bytes;
    for _ in 0..count {
        let (ground, less, behind) = ground_at(alloc, levels, left, rest)?;
        grounds.push(ground)?;
        left = less;
        rest = behind;
    }
    Ok((Grounds::from_vec(grounds), left, rest))
}

/// The arguments of a choice, within their limits.
#[tactic(auto, unfolding(crate::specs::Grounds::arguments))]
pub fn arguments_at(alloc: Global, bytes: &[u8]) -> Result<(Grounds, &[u8]), Unread>
    ensures { Gives (λ x. (map ground_of x.0, x.1.now)) result (spec.arguments bytes.now) }
{
    let (count, rest) = count_at(ARGUMENTS, bytes)?;
    let (grounds, _, rest) = grounds_at(alloc, count, MOST_LEVELS, MOST_SYMBOLS, rest)?;
    Ok((grounds, rest))
}
