//! The program: its command line, what it reads and writes, its sockets, and its journal.
#![tactic(auto)]

use aw_disk::FileDisk;
use aw_net::NetWire;
use aw_out::{StdSink, StdSource};
use aw_run::{Status, Word, run};
use std::alloc::AllocError;
use std::env;
use std::io::ErrorKind;
use std::process::ExitCode;
use std::rt::Env;

/// The words after the program's name. Where one of them is no text there are none, which counts as wrong words.
fn read_words<R: Env + AllocGlobal>(rt: &R) -> Result<Vec<Word>, AllocError> {
    let mut words = Vec::new(rt.alloc());
    let args = match env::args(rt) {
        Ok(args) => args,
        Err(error) if error.kind() == ErrorKind::OutOfMemory => return Err(AllocError),
        Err(_) => return Ok(words),
    };
    for arg in args.skip(1) {
        words.push(Word::from_bytes(rt.alloc(), arg.as_bytes())?)?;
    }
    Ok(words)
}

fn main(rt: HostRuntime) -> ExitCode {
    let status = match read_words(&rt) {
        Ok(words) => run(
            rt.alloc(),
            &words,
            &mut StdSource::new(&rt),
            &mut StdSink::new(&rt),
            &mut NetWire::new(&rt),
            &mut FileDisk::new(&rt),
        ),
        Err(_) => Status::NoMemory,
    };
    ExitCode::from(status.code())
}
