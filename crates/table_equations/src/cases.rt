//! Cases over flat equations. Each entry has a specification and then lines: the starts and choices of a
//! schedule, and `equation LEFT = BODY`, `node NAME (REFERENCES)` and `chase REFERENCE`, which put equations and nodes
//! there by hand. What stands in `stdout` was written by hand and, where a case has hundreds of lines, by a script that
//! knows nothing of the program; nothing in it comes from the program.
use crate::case::Case;
use crate::told::{MARK, push_name};
use aw_base::Grammar;
use aw_list::Text;
use aw_spec::read_spec;
use bstr::ByteSlice;
use std::alloc::{AllocError, Global};

/// Answers all lines.
fn push_lines(case: &mut Case<'_>, lines: &[u8]) -> Result<(), AllocError> {
    for line in lines.lines() {
        case.push_line(line)?;
    }
    Ok(())
}

/// Answers all lines, and adds what is told.
fn push_told(told: &mut Text, case: &mut Case<'_>, lines: &[u8]) -> Result<(), AllocError> {
    push_lines(case, lines)?;
    told.push_bytes(case.told())
}

/// Adds what is told of the lines behind a specification.
fn push_case(
    alloc: Global,
    told: &mut Text,
    grammar: &Grammar,
    lines: &[u8],
) -> Result<(), AllocError> {
    let mut case = Case::new(alloc, grammar);
    let pushed = push_told(told, &mut case, lines);
    drop(case);
    pushed
}

/// Adds what is told of a specification and the lines behind it.
fn push_input(alloc: Global, told: &mut Text, input: &[u8]) -> Result<(), AllocError> {
    match read_spec(alloc, input) {
        Ok(spec) => {
            let pushed = push_case(alloc, told, &spec.grammar, &input[spec.rest..]);
            drop(spec);
            pushed
        }
        Err(_) => told.push_bytes(b"not read\n"),
    }
}

/// Adds the lines of an entry. What has no line is none.
fn push_entry(alloc: Global, told: &mut Text, entry: &[u8]) -> Result<(), AllocError> {
    let Some((name, input)) = entry.split_once_str(b"\n") else {
        return Ok(());
    };
    push_name(told, name)?;
    push_input(alloc, told, input)
}

/// Adds the lines of all entries. What stands before the first mark is none.
pub fn push_cases(alloc: Global, told: &mut Text, text: &[u8]) -> Result<(), AllocError> {
    for entry in text.split_str(MARK) {
        push_entry(alloc, told, entry)?;
    }
    Ok(())
}
