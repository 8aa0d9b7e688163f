//! The parts of the table.
use crate::carried::push_carried;
use crate::loopback::push_loopback;
use crate::rounds::push_rounds;
use crate::served::push_served;
use aw_list::Text;
use bstr::ByteSlice;
use std::alloc::Global;
use std::net::Net;
use std::rt::Clock;
use table_common::TableFault;

/// What stands in front of a part's name.
const PART: &[u8] = b"+++ ";

/// Adds what is told of the part of this name.
fn push_told<R: Net + Clock>(
    alloc: Global,
    rt: &R,
    told: &mut Text,
    name: &[u8],
    text: &[u8],
) -> Result<(), TableFault> {
    match name {
        b"served" => push_served(alloc, told, text),
        b"loopback" => push_loopback(alloc, rt, told, text),
        b"carried" => push_carried(alloc, told, text),
        b"rounds" => push_rounds(alloc, told, text),
        _ => Err(TableFault::Unreadable),
    }
}

/// Adds a part's name and what is told of it. What has no line is none.
fn push_part<R: Net + Clock>(
    alloc: Global,
    rt: &R,
    told: &mut Text,
    part: &[u8],
) -> Result<(), TableFault> {
    let Some((name, text)) = part.split_once_str(b"\n") else {
        return Ok(());
    };
    told.push_bytes(PART)?;
    told.push_bytes(name)?;
    told.push_bytes(b"\n")?;
    push_told(alloc, rt, told, name, text)
}

/// Adds what is told of all parts. What stands before the first one is none.
fn push_parts<R: Net + Clock>(
    alloc: Global,
    rt: &R,
    told: &mut Text,
    text: &[u8],
) -> Result<(), TableFault> {
    for part in text.split_str(PART) {
        push_part(alloc, rt, told, part)?;
    }
    Ok(())
}

/// What is told of all parts.
pub fn table<R: Net + Clock>(alloc: Global, rt: &R, text: &[u8]) -> Result<Text, TableFault> {
    let mut told = Text::new(alloc);
    push_parts(alloc, rt, &mut told, text)?;
    Ok(told)
}
