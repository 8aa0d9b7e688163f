//! A table of runs of the whole program over memory, in three parts, each behind a line with its name: `kept`, nodes whose events are
//! kept on a disk; `posts`, thirty thousand cases whose messages are all delivered; and `runs`, whole runs of each command. What stands
//! in `stdin` and `stdout` are worked cases; nothing in them comes from the program.
#![tactic(auto)]

mod kept;
mod memory;
mod once;
mod posts;
mod runs;
mod session;

use aw_disk::{Disk, FileDisk};
use aw_list::Text;
use bstr::ByteSlice;
use kept::push_kept;
use posts::push_posts;
use runs::push_runs;
use std::alloc::Global;
use std::process::ExitCode;
use table_common::{TableFault, input_of, tell};

/// What stands in front of a part's name.
const PART: &[u8] = b"+++ ";

/// Adds what is told of the part of this name.
fn push_told<D: Disk>(
    alloc: Global,
    told: &mut Text,
    name: &[u8],
    text: &[u8],
    disk: &mut D,
) -> Result<(), TableFault> {
    match name {
        b"kept" => Ok(push_kept(alloc, told, text, disk)?),
        b"posts" => Ok(push_posts(alloc, told)?),
        b"runs" => Ok(push_runs(alloc, told, text)?),
        _ => Err(TableFault::Unreadable),
    }
}

/// Adds a part's name and what is told of it.
fn push_part<D: Disk>(
    alloc: Global,
    told: &mut Text,
    part: &[u8],
    disk: &mut D,
) -> Result<(), TableFault> {
    let Some((name, text)) = part.split_once_str(b"\n") else {
        return Ok(());
    };
    told.push_bytes(PART)?;
    told.push_bytes(name)?;
    told.push_bytes(b"\n")?;
    push_told(alloc, told, name, text, disk)
}

/// What is told of all parts. What stands before the first one is none.
fn table<D: Disk>(alloc: Global, text: &[u8], disk: &mut D) -> Result<Text, TableFault> {
    let mut told = Text::new(alloc);
    for part in text.split_str(PART) {
        push_part(alloc, &mut told, part, disk)?;
    }
    Ok(told)
}

fn main(rt: HostRuntime) -> ExitCode {
    match input_of(&rt) {
        Ok(input) => tell(
            &rt,
            table(rt.alloc(), input.as_slice(), &mut FileDisk::new(&rt)),
        ),
        Err(status) => status,
    }
}
