//! Calls on a waiting index. Each line of an entry is a call, and behind it stands what the index answered. Which of several pairs of
//! a slot comes out first is left open, so a line that takes all of them tells how many they were, and the sums of their numbers.

use crate::asked::{Asked, read_line};
use crate::told::{MARK, push_name};
use aw_list::Text;
use aw_spelling::push_number;
use aw_work::{Pair, Work};
use bstr::ByteSlice;
use std::alloc::{AllocError, Global};

/// How many pairs were taken, and the sums of their numbers.
#[derive(Clone, Copy)]
struct Taken {
    count: u64,
    nodes: u64,
    rules: u64,
}

impl Taken {
    /// No pair yet.
    fn none() -> Taken {
        Taken {
            count: 0,
            nodes: 0,
            rules: 0,
        }
    }

    /// One pair more.
    fn add(&mut self, pair: Pair) {
        self.count = self.count.wrapping_add(1);
        self.nodes = self.nodes.wrapping_add(pair.node as u64);
        self.rules = self.rules.wrapping_add(u64::from(pair.rule));
    }
}

/// Adds ` pairs 3 nodes 12 rules 4`.
fn push_taken(told: &mut Text, taken: Taken) -> Result<(), AllocError> {
    told.push_bytes(b"pairs ")?;
    push_number(told, taken.count)?;
    told.push_bytes(b" nodes ")?;
    push_number(told, taken.nodes)?;
    told.push_bytes(b" rules ")?;
    push_number(told, taken.rules)
}

/// Adds the pair that came out of the index, or `none`.
fn push_pair(told: &mut Text, pair: Option<Pair>) -> Result<(), AllocError> {
    match pair {
        Some(pair) => {
            told.push_bytes(b"node ")?;
            push_number(told, pair.node as u64)?;
            told.push_bytes(b" rule ")?;
            push_number(told, u64::from(pair.rule))
        }
        None => told.push_bytes(b"none"),
    }
}

/// Takes so many times a pair of the slot.
fn take_some(work: &mut Work, slot: usize, times: u64) -> Taken {
    let mut taken = Taken::none();
    for _ in 0..times {
        if let Some(pair) = work.take(slot) {
            taken.add(pair);
        }
    }
    taken
}

/// So many pairs wait, each for a slot of its own: those of 1000 nodes, of 7 rules.
fn wait_many(work: &mut Work, count: u64) -> Result<(), AllocError> {
    for n in 0..count {
        let pair = Pair {
            node: (n % 1000) as usize,
            rule: (n % 7) as u16,
        };
        work.wait(n as usize, pair)?;
    }
    Ok(())
}

/// Takes a pair of each of so many slots.
fn take_many(work: &mut Work, count: u64) -> Taken {
    let mut taken = Taken::none();
    for n in 0..count {
        if let Some(pair) = work.take(n as usize) {
            taken.add(pair);
        }
    }
    taken
}

/// Makes a call, and adds what the index answered.
fn answer(told: &mut Text, work: &mut Work, asked: Asked) -> Result<(), AllocError> {
    match asked {
        Asked::Reserve(n) => match work.reserve(n) {
            Ok(()) => told.push_bytes(b"reserved"),
            Err(AllocError) => told.push_bytes(b"no memory"),
        },
        Asked::Wait(slot, pair) => {
            work.wait(slot, pair)?;
            told.push_bytes(b"waits")
        }
        Asked::Take(slot) => push_pair(told, work.take(slot)),
        Asked::TakeTimes(slot, times) => push_taken(told, take_some(work, slot, times)),
        Asked::DropNode(node) => {
            work.drop_node(node);
            told.push_bytes(b"dropped")
        }
        Asked::WaitMany(count) => {
            wait_many(work, count)?;
            told.push_bytes(b"wait")
        }
        Asked::TakeMany(count) => push_taken(told, take_many(work, count)),
    }
}

/// Adds a line, and what was answered to it.
fn push_line(told: &mut Text, work: &mut Work, line: &[u8]) -> Result<(), AllocError> {
    told.push_bytes(line)?;
    told.push_bytes(b": ")?;
    match read_line(line) {
        Some(asked) => answer(told, work, asked)?,
        None => told.push_bytes(b"not read")?,
    }
    told.push_bytes(b"\n")
}

/// Adds what an index answers to lines.
fn push_lines(told: &mut Text, work: &mut Work, input: &[u8]) -> Result<(), AllocError> {
    for line in input.lines() {
        push_line(told, work, line)?;
    }
    Ok(())
}

/// Adds what an index of its own answers to lines.
fn push_answers(alloc: Global, told: &mut Text, input: &[u8]) -> Result<(), AllocError> {
    let mut work = Work::new(alloc);
    push_lines(told, &mut work, input)
}

/// Adds the name of an entry, and what an index of its own answered to its lines. What has no line is none.
fn push_entry(alloc: Global, told: &mut Text, entry: &[u8]) -> Result<(), AllocError> {
    let Some((name, input)) = entry.split_once_str(b"\n") else {
        return Ok(());
    };
    push_name(told, name)?;
    push_answers(alloc, told, input)
}

/// Adds the lines of all entries. What stands before the first mark is none.
pub fn push_index(alloc: Global, told: &mut Text, text: &[u8]) -> Result<(), AllocError> {
    for entry in text.split_str(MARK) {
        push_entry(alloc, told, entry)?;
    }
    Ok(())
}
