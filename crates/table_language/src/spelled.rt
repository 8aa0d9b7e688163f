//! Names, numbers, texts and the names of nodes.
use crate::words::{push_count, push_hex, push_word, push_yes};
use aw_list::Text;
use aw_spelling::{
    StepPart, content_ok, content_value, cut_at, is_node_name, is_number, name_len, name_ok,
    next_step, node_start, number_value, printed_is_read, push_quoted, quoted_is_read,
    spelled_name_is_read, text_end,
};
use std::alloc::{AllocError, Global};

/// Adds whether bytes are a name, which number they are, whether they are a number, and whether they are the name of a node.
pub fn push_name(told: &mut Text, bytes: &[u8]) -> Result<(), AllocError> {
    printed_is_read();
    push_yes(told, name_ok(bytes))?;
    match number_value(bytes) {
        Some(number) => push_count(told, number)?,
        None => push_word(told, b"none")?,
    }
    push_yes(told, is_number(bytes))?;
    push_yes(told, is_node_name(bytes))
}

/// Adds how many bytes a name at the front has.
pub fn push_length(told: &mut Text, bytes: &[u8]) -> Result<(), AllocError> {
    push_count(told, name_len(bytes) as u64)
}

/// Adds the content of a text, and the text that is written of it.
fn push_content_of(alloc: Global, told: &mut Text, content: &[u8]) -> Result<(), AllocError> {
    quoted_is_read();
    push_hex(alloc, told, content)?;
    let mut again = Text::new(alloc);
    push_quoted(&mut again, content)?;
    push_hex(alloc, told, again.as_slice())
}

/// Adds the content of a text in quotes, and the text that is written of it.
pub fn push_text(alloc: Global, told: &mut Text, bytes: &[u8]) -> Result<(), AllocError> {
    match content_value(alloc, bytes)? {
        Some(content) => push_content_of(alloc, told, content.as_slice()),
        None => push_word(told, b"none"),
    }
}

/// Adds how many bytes stand behind the end of a text whose first quote stands before these bytes.
pub fn push_end(told: &mut Text, bytes: &[u8]) -> Result<(), AllocError> {
    match text_end(bytes) {
        Some(behind) => push_count(told, behind.len() as u64),
        None => push_word(told, b"none"),
    }
}

/// Adds whether bytes may be the content of a text.
pub fn push_content(told: &mut Text, bytes: &[u8]) -> Result<(), AllocError> {
    push_yes(told, content_ok(bytes))
}

/// Adds what stands before the first dot, and what stands behind it.
pub fn push_cut(alloc: Global, told: &mut Text, bytes: &[u8]) -> Result<(), AllocError> {
    match cut_at(bytes, b'.') {
        Some((front, behind)) => {
            push_hex(alloc, told, front)?;
            push_hex(alloc, told, behind)
        }
        None => push_word(told, b"none"),
    }
}

/// Adds the rule and the child of a step, and what stands behind it.
fn push_step(told: &mut Text, step: StepPart<'_>) -> Result<(), AllocError> {
    push_word(told, step.rule)?;
    push_count(told, u64::from(step.child))?;
    push_word(told, step.more.unwrap_or(b"none"))
}

/// Adds the first of some steps.
fn push_steps(told: &mut Text, steps: &[u8]) -> Result<(), AllocError> {
    match next_step(steps) {
        Some(step) => push_step(told, step),
        None => push_word(told, b"none"),
    }
}

/// Adds the start sort and the case of a node's name, and its first step.
pub fn push_node(told: &mut Text, bytes: &[u8]) -> Result<(), AllocError> {
    spelled_name_is_read();
    match node_start(bytes) {
        Some(name) => {
            push_word(told, name.start)?;
            push_count(told, name.case)?;
            push_steps(told, name.steps.unwrap_or(b""))
        }
        None => push_word(told, b"none"),
    }
}
