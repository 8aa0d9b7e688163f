//! A table of flat equations, in four parts, each behind a line with its name: `cases`, choices that are answered over a store; `stores`,
//! calls on the two stores; `lines`, the lines of nodes that are printed over both; and `works`, work for a store of many nodes. What stands
//! in `stdin` and `stdout` was worked out by hand or by programs that know nothing of this one; nothing in them comes from it.
#![tactic(auto)]

mod both;
mod call;
mod case;
mod cases;
mod draws;
mod filling;
mod lines;
mod narrow;
mod nodes;
mod reading;
mod stores;
mod told;
mod typed;
mod weigh;
mod work;
mod works;

use aw_list::Text;
use bstr::ByteSlice;
use cases::push_cases;
use lines::push_lines;
use std::alloc::Global;
use std::process::ExitCode;
use stores::push_stores;
use table_common::{TableFault, input_of, tell};
use works::push_works;

/// What stands in front of a part's name.
const PART: &[u8] = b"+++ ";

/// Adds what is told of the part of this name.
fn push_told(alloc: Global, told: &mut Text, name: &[u8], text: &[u8]) -> Result<(), TableFault> {
    match name {
        b"cases" => Ok(push_cases(alloc, told, text)?),
        b"stores" => Ok(push_stores(alloc, told, text)?),
        b"lines" => push_lines(alloc, told),
        b"works" => push_works(alloc, told, text),
        _ => Err(TableFault::Unreadable),
    }
}

/// Adds a part's name and what is told of it. What has no line is none.
fn push_part(alloc: Global, told: &mut Text, part: &[u8]) -> Result<(), TableFault> {
    let Some((name, text)) = part.split_once_str(b"\n") else {
        return Ok(());
    };
    told.push_bytes(PART)?;
    told.push_bytes(name)?;
    told.push_bytes(b"\n")?;
    push_told(alloc, told, name, text)
}

/// Adds what is told of all parts. What stands before the first one is none.
fn push_parts(alloc: Global, told: &mut Text, text: &[u8]) -> Result<(), TableFault> {
    for part in text.split_str(PART) {
        push_part(alloc, told, part)?;
    }
    Ok(())
}

/// What is told of all parts.
fn table(alloc: Global, text: &[u8]) -> Result<Text, TableFault> {
    let mut told = Text::new(alloc);
    push_parts(alloc, &mut told, text)?;
    Ok(told)
}

fn main(rt: HostRuntime) -> ExitCode {
    match input_of(&rt) {
        Ok(input) => tell(&rt, table(rt.alloc(), input.as_slice())),
        Err(status) => status,
    }
}
