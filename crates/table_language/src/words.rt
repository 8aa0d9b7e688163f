//! Words and numbers behind a blank.
use aw_list::Text;
use aw_spelling::push_number;
use std::alloc::{AllocError, Global};

/// Adds a blank and a word.
pub fn push_word(told: &mut Text, word: &[u8]) -> Result<(), AllocError> {
    told.push_bytes(b" ")?;
    told.push_bytes(word)
}

/// Adds a blank, and yes or no.
pub fn push_yes(told: &mut Text, yes: bool) -> Result<(), AllocError> {
    push_word(told, if yes { b"yes" } else { b"no" })
}

/// Adds a blank and a number.
pub fn push_count(told: &mut Text, count: u64) -> Result<(), AllocError> {
    told.push_bytes(b" ")?;
    push_number(told, count)
}

/// Adds a blank, and bytes in hexadecimal.
pub fn push_hex(alloc: Global, told: &mut Text, bytes: &[u8]) -> Result<(), AllocError> {
    told.push_bytes(b" ")?;
    told.push_bytes(hex::encode(alloc, bytes)?.as_bytes())
}
