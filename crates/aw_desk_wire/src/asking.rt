//! Asking the frames that are there.
ghost use Rattle.std.specs.Prelude.{IfOk, OnOk, OnErr};
ghost use Rattle.aw_msg.specs.Frames.{FrameInRange};
ghost use Rattle.aw_msg.specs.FrameView.{frame_of};
ghost use Rattle.aw_desk_wire.specs.Asking.{IsAsked, OthersStay, AsksNext, AsksInVain, IsAnswered, IsStarved};

use crate::desk::Desk;
use aw_list::Text;
use aw_msg::{Frame, FrameReader, Next};
use std::alloc::{AllocError, Global};

/// Asks one frame of the desk of a role, if there is one, and adds its reply.
fn ask<D: Desk>(
    desks: &mut Vec<D>,
    role: usize,
    frame: &Frame,
    replies: &mut Text,
) -> Result<(), AllocError>
    requires { FrameInRange (frame_of frame.now) }
    ensures ok { OnOk result (IsAsked D.answers role desks.old.items desks.new.items (frame_of frame.now) replies.old replies.new) }
    ensures err { OnErr result (OthersStay role desks.old.items desks.new.items) }
{
    if role < desks.len() {
        let reply = desks[role].reply_to(frame)?;
        replies.push_bytes(reply.as_slice())?;
    }
    Ok(())
}

/// Asks the next frame, if a whole one is there. Tells whether one was.
fn ask_next<D: Desk>(
    reader: &mut FrameReader,
    desks: &mut Vec<D>,
    role: usize,
    replies: &mut Text,
) -> Result<bool, AllocError>
    ensures ok { IfOk result (AsksNext D.answers role desks.old.items desks.new.items reader.old reader.new replies.old replies.new) }
    ensures err { OnErr result (AsksInVain role desks.old.items desks.new.items reader.old.bytes) }
{
    match reader.next()? {
        Next::Frame(frame) => {
            ask(desks, role, &frame, replies)?;
            Ok(true)
        }
        Next::Need | Next::Bad => Ok(false),
    }
}

/// Asks all whole frames that are there, one by one. Gives the replies, one behind the other.
pub(crate) fn ask_all<D: Desk>(
    alloc: Global,
    reader: &mut FrameReader,
    desks: &mut Vec<D>,
    role: usize,
) -> Result<Text, AllocError>
    ensures ok { IfOk result (IsAnswered D.answers role desks.old.items desks.new.items reader.old reader.new) }
    ensures err { OnErr result (IsStarved D.answers role desks.old.items desks.new.items reader.old.bytes) }
{
    let mut replies = Text::new(alloc);
    while ask_next(reader, desks, role, &mut replies)? {}
    Ok(replies)
}
