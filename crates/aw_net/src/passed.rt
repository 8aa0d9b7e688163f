//! One session of a wire in memory.
use aw_list::Text;

/// With whom it was, the bytes that came and how many of them were read, from where to where what was written in it stands among all that was
/// written, and whether a read or a write failed.
#[derive(Drop)]
pub struct Passed {
    pub role: u16,
    pub dialed: bool,
    pub bytes: Text,
    pub at: usize,
    pub from: usize,
    pub to: usize,
    pub failed: bool,
}
