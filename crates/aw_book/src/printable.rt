//! Bytes of journals in sentences.
use aw_list::Text;
use std::alloc::AllocError;

/// Adds bytes, each that is no printable character of ASCII as `?`.
pub fn push_printable(text: &mut Text, bytes: &[u8]) -> Result<(), AllocError> {
    for byte in bytes {
        if *byte >= 32 && *byte < 127 {
            text.push(*byte)?;
        } else {
            text.push(b'?')?;
        }
    }
    Ok(())
}
