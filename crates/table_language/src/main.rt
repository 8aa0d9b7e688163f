//! A table of the lower crates, in five parts, each behind a line with its name: `texts`, names, numbers, texts and tokens, and what is read
//! and written whole; `index`, calls on a waiting index; `inputs`, whether a specification and its schedule are good; `relations`, what
//! flows where in the text of each rule; and `parts`, what roles find that are checked apart. What stands in `stdin` and `stdout` was made
//! from the stated limits or worked out by hand; nothing in them comes from the program.
#![tactic(auto)]

mod asked;
mod edges;
mod inputs;
mod lexed;
mod parts;
mod relations;
mod spelled;
mod texts;
mod told;
mod waiting;
mod wire;
mod words;

use aw_list::Text;
use bstr::ByteSlice;
use inputs::push_inputs;
use parts::push_apart;
use relations::push_relations;
use std::alloc::Global;
use std::process::ExitCode;
use table_common::{TableFault, input_of, tell};
use texts::push_texts;
use waiting::push_index;

/// What stands in front of a part's name.
const PART: &[u8] = b"+++ ";

/// Adds what is told of the part of this name.
fn push_told(alloc: Global, told: &mut Text, name: &[u8], text: &[u8]) -> Result<(), TableFault> {
    match name {
        b"texts" => push_texts(alloc, told, text),
        b"index" => Ok(push_index(alloc, told, text)?),
        b"inputs" => Ok(push_inputs(alloc, told, text)?),
        b"relations" => Ok(push_relations(alloc, told, text)?),
        b"parts" => Ok(push_apart(alloc, told, text)?),
        _ => Err(TableFault::Unreadable),
    }
}

/// Adds a part's name and what is told of it. What has no line is none.
fn push_part(alloc: Global, told: &mut Text, part: &[u8]) -> Result<(), TableFault> {
    let Some((name, text)) = part.split_once_str(b"\n") else {
        return Ok(());
    };
    told.push_bytes(PART)?;
    told.push_bytes(name)?;
    told.push_bytes(b"\n")?;
    push_told(alloc, told, name, text)
}

/// Adds what is told of all parts. What stands before the first one is none.
fn push_parts(alloc: Global, told: &mut Text, text: &[u8]) -> Result<(), TableFault> {
    for part in text.split_str(PART) {
        push_part(alloc, told, part)?;
    }
    Ok(())
}

/// What is told of all parts.
fn table(alloc: Global, text: &[u8]) -> Result<Text, TableFault> {
    let mut told = Text::new(alloc);
    push_parts(alloc, &mut told, text)?;
    Ok(told)
}

fn main(rt: HostRuntime) -> ExitCode {
    match input_of(&rt) {
        Ok(input) => tell(&rt, table(rt.alloc(), input.as_slice())),
        Err(status) => status,
    }
}
