//! A table of nodes and couriers, in four parts, each behind a line with its name: `served`, sessions at the node of one role over a wire
//! in memory; `loopback`, sessions at a node over this machine's sockets; `carried`, couriers over a wire in memory; and `rounds`, couriers
//! between the sites of all roles in one process. What stands in `stdin` and `stdout` was made from the stated formats; nothing in it comes
//! from the program.
#![tactic(auto)]

mod carried;
mod entry;
mod given;
mod loopback;
mod memory;
mod offices;
mod parts;
mod peer;
mod rounds;
mod served;
mod sockets;
mod steps;
mod told;
mod whole;

use parts::table;
use std::process::ExitCode;
use table_common::{input_of, tell};

fn main(rt: HostRuntime) -> ExitCode {
    match input_of(&rt) {
        Ok(input) => tell(&rt, table(rt.alloc(), &rt, input.as_slice())),
        Err(status) => status,
    }
}
