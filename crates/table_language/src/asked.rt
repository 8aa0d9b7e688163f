//! What the lines of the part on a waiting index ask for.

use aw_spelling::{cut_at, number_value};
use aw_work::Pair;

/// What a line asks for.
#[derive(Clone, Copy)]
pub enum Asked {
    Reserve(usize),
    Wait(usize, Pair),
    Take(usize),
    /// So many pairs of one slot.
    TakeTimes(usize, u64),
    DropNode(usize),
    /// So many pairs, each for a slot of its own.
    WaitMany(u64),
    /// One pair of each of so many slots.
    TakeMany(u64),
}

fn size_of(text: &[u8]) -> Option<usize> {
    usize::try_from(number_value(text)?).ok()
}

/// `SLOT NODE RULE`.
fn wait_of(text: &[u8]) -> Option<Asked> {
    let (slot, pair) = cut_at(text, b' ')?;
    let (node, rule) = cut_at(pair, b' ')?;
    let pair = Pair {
        node: size_of(node)?,
        rule: u16::try_from(number_value(rule)?).ok()?,
    };
    Some(Asked::Wait(size_of(slot)?, pair))
}

/// `SLOT`, or `SLOT TIMES`.
fn take_of(text: &[u8]) -> Option<Asked> {
    match cut_at(text, b' ') {
        Some((slot, times)) => Some(Asked::TakeTimes(size_of(slot)?, number_value(times)?)),
        None => Some(Asked::Take(size_of(text)?)),
    }
}

/// What a line asks for: a verb, and its numbers.
pub fn read_line(line: &[u8]) -> Option<Asked> {
    let (verb, rest) = cut_at(line, b' ')?;
    match verb {
        b"reserve" => Some(Asked::Reserve(size_of(rest)?)),
        b"wait" => wait_of(rest),
        b"take" => take_of(rest),
        b"drop" => Some(Asked::DropNode(size_of(rest)?)),
        b"waits" => Some(Asked::WaitMany(number_value(rest)?)),
        b"takes" => Some(Asked::TakeMany(number_value(rest)?)),
        _ => None,
    }
}
