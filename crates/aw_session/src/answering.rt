//! Answering the frames that are there.
ghost use Rattle.std.specs.Prelude.{◌≡◌, ◌+◌, ◌-◌, ◌<◌, ◌≤◌, ◌^◌, [], true, false, length, Ok, IfOk, IfErr, OnOk};
ghost use Rattle.aw_msg.specs.Frames.{frame as frame_at, FrameInRange};
ghost use Rattle.aw_msg.specs.FrameView.{frame_of};
ghost use Rattle.aw_msg.specs.Streams.{Stream};
ghost use Rattle.aw_session.specs.Broken.{StopsAt};
ghost use Rattle.aw_session.specs.Steps.{Goes, IsStoppedStretch, IsHaltedStretch};
ghost use Rattle.aw_session.specs.Talking.{TalksOver};

use crate::handles::Handles;
use crate::writing::write_all;
use aw_msg::{Frame, FrameReader, Next};
use aw_out::Wire;

/// What became of the next frame.
#[derive(Clone, Copy, Debug, PartialEq, Eq)]
pub(crate) enum Went {
    /// It was answered, and its reply written.
    Answered,
    /// Less than a frame is there.
    Waits,
    /// No frame can stand there.
    Bad,
    /// It was answered, and its reply written in part.
    Broken,
}

/// Why no further frame was answered.
#[derive(Clone, Copy, Debug, PartialEq, Eq)]
pub(crate) enum Stop {
    Waits,
    Bad,
    Broken,
}

/// Answers a frame, and writes the reply.
fn answer_frame<W: Wire, H: Handles>(
    frame: &Frame,
    node: &mut H,
    wire: &mut W,
) -> Result<Went, H::Fault>
    requires ready { H.ready node.old }
    requires range { FrameInRange (frame_of frame.now) }
    requires open { W.is_open wire.old ≡ true }
    ensures ready { OnOk result (H.ready node.new) }
    ensures ok { IfOk result (λ went. (from to : Stream) → frame_at from.bytes ≡ Ok (frame_of frame.now, to.bytes) → to.failed ≡ false → Goes H.answers (TalksOver ⟦<W as Wire>⟧ wire.old wire.new []) node.old node.new from to went) }
    ensures err { IfErr result (λ fault. H.breaks node.old (frame_of frame.now) fault node.new × TalksOver ⟦<W as Wire>⟧ wire.old wire.new [] [] false) }
{
    let reply = node.reply_to(frame)?;
    match write_all(wire, reply.as_slice()) {
        Ok(()) => Ok(Went::Answered),
        Err(_) => Ok(Went::Broken),
    }
}

/// Answers the next frame, if one is there.
fn answer_next<W: Wire, H: Handles>(
    reader: &mut FrameReader,
    node: &mut H,
    wire: &mut W,
) -> Result<Went, H::Fault>
    requires ready { H.ready node.old }
    requires sound { reader.old.failed ≡ false }
    requires open { W.is_open wire.old ≡ true }
    ensures ready { OnOk result (H.ready node.new) }
    ensures ok { IfOk result (λ went. Goes H.answers (TalksOver ⟦<W as Wire>⟧ wire.old wire.new []) node.old node.new reader.old reader.new went) }
    ensures err { IfErr result (λ fault. StopsAt H.breaks reader.old.bytes node.old fault node.new × TalksOver ⟦<W as Wire>⟧ wire.old wire.new [] [] false) }
{
    match reader.next()? {
        Next::Need => Ok(Went::Waits),
        Next::Bad => Ok(Went::Bad),
        Next::Frame(frame) => answer_frame(&frame, node, wire),
    }
}

/// Answers all frames that are there, one by one, and counts them.
pub(crate) fn answer_frames<W: Wire, H: Handles>(
    reader: &mut FrameReader,
    count: &mut u64,
    node: &mut H,
    wire: &mut W,
) -> Result<Stop, H::Fault>
    requires ready { H.ready node.old }
    requires sound { reader.old.failed ≡ false }
    requires open { W.is_open wire.old ≡ true }
    requires room { count.old + length reader.old.bytes < 2 ^ 64 }
    ensures ready { OnOk result (H.ready node.new) }
    ensures counted { OnOk result (count.old ≤ count.new) }
    ensures ok { IfOk result (λ why. IsStoppedStretch H.answers (TalksOver ⟦<W as Wire>⟧ wire.old wire.new []) node.old node.new reader.old.bytes reader.new.bytes (count.new - count.old) why) }
    ensures sound { IfOk result (λ why. why ≡ Stop.Waits → reader.new.failed ≡ false) }
    ensures err { IfErr result (λ fault. IsHaltedStretch H.answers H.breaks (TalksOver ⟦<W as Wire>⟧ wire.old wire.new []) node.old node.new reader.old.bytes fault) }
{
    loop {
        match answer_next(reader, node, wire)? {
            Went::Answered => *count += 1,
            Went::Waits => return Ok(Stop::Waits),
            Went::Bad => return Ok(Stop::Bad),
            Went::Broken => {
                *count += 1;
                return Ok(Stop::Broken);
            }
        }
    }
}
