//! The lines of open tasks.
use aw_list::Text;
use std::alloc::{AllocError, Global};

/// Whether a line is that of an open task: behind the name of its node it says so, and it has no arguments.
fn is_open(line: &[u8]) -> bool {
    let mut words = line.splitn(3, |byte| *byte == b' ');
    let _node = words.next();
    let Some(state) = words.next() else {
        return false;
    };
    let Some(rest) = words.next() else {
        return false;
    };
    state.len() == 4 && state.starts_with(b"open") && rest.starts_with(b"(")
}

/// The lines of open tasks among these.
pub fn open_lines(alloc: Global, lines: &[u8]) -> Result<Text, AllocError> {
    let mut text = Text::new(alloc);
    for line in lines.split(|byte| *byte == b'\n') {
        if is_open(line) {
            text.push_bytes(line)?;
            text.push(b'\n')?;
        }
    }
    Ok(text)
}
