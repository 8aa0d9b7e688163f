//! Writing all of some bytes in the open session.
ghost use Rattle.std.specs.Prelude.{◌≡◌, [], true, false, OnOk, OnErr};
ghost use Rattle.aw_session.specs.Talking.{Talks, TalksInPart};

use aw_out::{Put, Wire, WriteError};

/// Writes all the bytes, or a prefix of them and then tells the fault.
pub(crate) fn write_all<W: Wire>(wire: &mut W, bytes: &[u8]) -> Result<(), WriteError>
    requires { W.is_open wire.old ≡ true }
    ensures all { OnOk result (Talks W.content W.is_open W.faults W.failed_openings wire.old wire.new [] bytes.now false) }
    ensures part { OnErr result (TalksInPart W.content W.is_open W.faults W.failed_openings wire.old wire.new bytes.now) }
{
    let mut done = 0;
    while done < bytes.len() {
        let (_, rest) = bytes.split_at(done);
        match wire.write(rest) {
            Put::Took(n) => done += n,
            Put::Failed => return Err(WriteError::WriteFault),
        }
    }
    Ok(())
}
