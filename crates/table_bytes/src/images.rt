//! What a crash leaves of a call that was not synced.
use aw_list::Text;
use std::alloc::{AllocError, Global};

/// The file between two: as long as halfway, with the bytes of the longer one.
pub fn half_new(alloc: Global, old: &[u8], new: &[u8]) -> Result<Text, AllocError> {
    if old.len() < new.len() {
        let half = old.len() + (new.len() - old.len()) / 2;
        Text::from_bytes(alloc, &new[..half])
    } else {
        let half = new.len() + (old.len() - new.len()) / 2;
        Text::from_bytes(alloc, &old[..half])
    }
}

/// The same, with open gates in place of the bytes that are missing.
pub fn half_open(alloc: Global, old: &[u8], new: &[u8]) -> Result<Text, AllocError> {
    let mut image = half_new(alloc, old, new)?;
    for _ in image.len()..new.len() {
        image.push_bytes(&[1])?;
    }
    Ok(image)
}
