//! Couriers between the nodes of all roles, over a wire in memory. The part begins with a specification, and behind it stand entries: each has
//! a mark and its name, a line of numbers that say how the courier is called, and what is read in its sessions in hexadecimal. Of each session
//! it is told what the courier wrote, and at the end its answer.
use crate::given::given_of;
use crate::memory::wire_of;
use crate::told::{MARK, entries_of, line_of, push_answer, push_hex, push_name};
use aw_accept::Accepted;
use aw_courier::{Carried, CarryFault, carry};
use aw_list::Text;
use aw_net::MemWire;
use aw_out::Wire;
use bstr::ByteSlice;
use std::alloc::{AllocError, Global};
use table_common::{TableFault, numbers_of};

/// Lets a courier carry. It stands apart, over any wire, since what `carry` promises of a wire in memory or over offices takes long to prove
/// and is asked for by nobody here.
pub fn carry_over<W: Wire>(
    alloc: Global,
    g: &Accepted,
    wire: &mut W,
    rounds: u64,
) -> Result<Carried, CarryFault> {
    carry(alloc, g, wire, rounds)
}

/// Lets a courier carry, and tells what it wrote in each session and what it answered.
fn push_courier(
    alloc: Global,
    told: &mut Text,
    g: &Accepted,
    wire: &mut MemWire,
    rounds: u64,
) -> Result<(), AllocError> {
    let answer = carry_over(alloc, g, wire, rounds);
    for session in 0..wire.passed() {
        push_hex(alloc, told, b"written", wire.written(session))?;
    }
    push_answer(told, answer)
}

/// Adds what is told of a case, which a line of numbers says: how many rounds are made at most, the most bytes of a piece, and the numbers of
/// the calls that fail.
fn push_case(
    alloc: Global,
    told: &mut Text,
    g: &Accepted,
    numbers: &[usize],
    bytes: &[u8],
) -> Result<(), TableFault> {
    let &[rounds, piece, ref fails @ ..] = numbers else {
        return Err(TableFault::Unreadable);
    };
    let mut wire = wire_of(alloc, piece, fails, bytes)?;
    let pushed = push_courier(alloc, told, g, &mut wire, rounds as u64);
    drop(wire);
    Ok(pushed?)
}

/// Adds a case's name and what is told of it.
fn push_entry(
    alloc: Global,
    told: &mut Text,
    g: &Accepted,
    entry: &[u8],
) -> Result<(), TableFault> {
    let (name, rest) = line_of(entry)?;
    let (line, bytes) = line_of(rest)?;
    push_name(told, name)?;
    let numbers = numbers_of(alloc, line)?;
    push_case(alloc, told, g, numbers.as_slice(), bytes)
}

/// Adds what is told of all cases.
fn push_entries(
    alloc: Global,
    told: &mut Text,
    g: &Accepted,
    entries: &[u8],
) -> Result<(), TableFault> {
    for entry in entries.split_str(MARK) {
        push_entry(alloc, told, g, entry)?;
    }
    Ok(())
}

/// Adds what is told of the cases behind a specification.
pub fn push_carried(alloc: Global, told: &mut Text, text: &[u8]) -> Result<(), TableFault> {
    let (declared, entries) = entries_of(text)?;
    let given = given_of(alloc, declared)?;
    let pushed = push_entries(alloc, told, &given.accepted, entries);
    drop(given);
    pushed
}
