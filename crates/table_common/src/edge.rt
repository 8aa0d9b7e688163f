//! Standard input and output of a table.
use crate::fault::TableFault;
use aw_list::Text;
use aw_out::{StdSink, StdSource, read_all, write_all};
use std::process::ExitCode;

/// The most bytes of an input.
const MOST: usize = 67_108_864;

/// Standard input, whole. Where it is not to be had, the error is the status of the program: 7.
pub fn input_of<R: AllocGlobal + Input>(rt: &R) -> Result<Text, ExitCode> {
    match read_all(rt.alloc(), &mut StdSource::new(rt), MOST) {
        Ok(input) => Ok(input),
        Err(_) => Err(ExitCode::from(7)),
    }
}

/// Writes what a table tells to standard output. The status is 0; 8 where not all of it is taken; 1 where the table's input has
/// not its form; and 10 where memory ran out.
pub fn tell<R: Print>(rt: &R, told: Result<Text, TableFault>) -> ExitCode {
    let text = match told {
        Ok(text) => text,
        Err(fault) => return ExitCode::from(fault.status()),
    };
    match write_all(&mut StdSink::new(rt), text.as_slice()) {
        Ok(()) => ExitCode::SUCCESS,
        Err(_) => ExitCode::from(8),
    }
}
