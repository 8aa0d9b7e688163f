//! A table of worlds, and of who waits for whom in each. An entry has a mark and its name, and then a specification and a schedule. The
//! events of the schedule are done in a world in which nothing happened yet, and then each pair of nodes is told of which the one waits
//! for the other. What stands in `stdout` was worked by hand; nothing in it comes from the program.
#![tactic(auto)]

mod fault;
mod table;
mod told;

use std::process::ExitCode;
use table::table;
use table_common::{input_of, tell};

fn main(rt: HostRuntime) -> ExitCode {
    match input_of(&rt) {
        Ok(input) => tell(&rt, table(rt.alloc(), input.as_slice())),
        Err(status) => status,
    }
}
