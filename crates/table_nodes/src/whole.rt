//! A session that is written and read whole.
ghost use Rattle.std.specs.Prelude.{◌≡◌, true};

use aw_list::Text;
use aw_out::{Got, Put, Wire};
use std::alloc::{AllocError, Global};

/// The most pieces that are read.
const PIECES: u32 = 1000;

/// The most bytes of a piece.
const PIECE: usize = 64;

/// Writes bytes that the wire takes at once, and tells whether it did.
pub fn write_whole<W: Wire>(wire: &mut W, bytes: &[u8]) -> bool
    requires { W.is_open wire.old ≡ true }
    ensures { W.is_open wire.new ≡ true }
{
    if bytes.is_empty() {
        return true;
    }
    match wire.write(bytes) {
        Put::Took(count) => count == bytes.len(),
        Put::Failed => false,
    }
}

/// All that comes up to the end of the session; `None` where a read failed.
pub fn read_whole<W: Wire>(alloc: Global, wire: &mut W) -> Result<Option<Text>, AllocError>
    requires { W.is_open wire.old ≡ true }
{
    let mut replies = Text::new(alloc);
    let mut piece = [0u8; PIECE];
    for _ in 0..PIECES {
        match wire.read(&mut piece) {
            Got::Read(count) => replies.push_bytes(&piece[..count])?,
            Got::End => return Ok(Some(replies)),
            Got::Failed => return Ok(None),
        }
    }
    Ok(None)
}
