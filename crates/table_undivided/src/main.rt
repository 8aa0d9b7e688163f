//! A table of runs that are drawn: each choice is answered over whole trees, and the choices of a run are then answered again by the
//! undivided run over flat equations. What both tell is compared byte by byte. Each entry of the input has a mark and its name, a
//! line of numbers (where the drawing begins, how many runs there are, how many choices each has, and how many cases), and a
//! specification. Told are the answers by their kinds, and how long the texts are and a number made of their bytes. What stands in
//! `stdout` was worked out by a script that knows nothing of the program. Its last lines tell that memory and stack are enough for
//! a value that is 100,000 levels deep.
#![tactic(auto)]

mod compared;
mod deep;
mod drawing;
mod draws;
mod entry;
mod run;
mod tally;
mod values;

use aw_list::Text;
use compared::table;
use std::alloc::Global;
use std::process::ExitCode;
use table_common::{TableFault, input_of, tell};

/// What is told of the runs of an input, and then of a deep value.
fn told(alloc: Global, input: &[u8]) -> Result<Text, TableFault> {
    let mut text = table(alloc, input)?;
    text.push_bytes(b"=== a row up to a limit, and a deep value\n")?;
    let deep = deep::told(alloc)?;
    text.push_bytes(deep.as_slice())?;
    Ok(text)
}

fn main(rt: HostRuntime) -> ExitCode {
    match input_of(&rt) {
        Ok(input) => tell(&rt, told(rt.alloc(), input.as_slice())),
        Err(status) => status,
    }
}
