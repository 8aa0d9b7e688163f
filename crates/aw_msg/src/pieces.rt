//! The frames of a stream do not depend on how its bytes were cut.
ghost use Rattle.std.specs.Prelude.{◌≡◌, ℕ, Bool, List, flat_map, map, IfOk, OnOk};
ghost use Rattle.aw_msg.specs.Frames as plain;
ghost use Rattle.aw_msg.specs.FrameView.{frame_of};
ghost use Rattle.aw_msg.specs.Pieces.{Yields, HasEnded, Splits, IsSound, TakesOne};

use crate::frame::Frame;
use crate::frame_reader::{FrameReader, Next};
use aw_list::{Items, Text};
use std::alloc::{AllocError, Global};

/// Frames in the order in which they came.
pub type Frames = Items<Frame>;

/// The whole frames of some bytes, and whether no frame can stand behind them.
#[derive(Debug, PartialEq, Eq, Drop)]
pub struct FramesRead {
    pub frames: Frames,
    pub bad: bool,
}

/// Takes the next frame, where one is there.
fn take_frame(reader: &mut FrameReader, frames: &mut Vec<Frame>) -> Result<bool, AllocError>
    requires { IsSound reader.old }
    ensures { IfOk result (λ taken. TakesOne taken reader.old (map frame_of frames.old.items) reader.new (map frame_of frames.new.items)) }
{
    match reader.next()? {
        Next::Frame(frame) => {
            frames.push(frame)?;
            Ok(true)
        }
        Next::Need | Next::Bad => Ok(false),
    }
}

/// Takes the frames that are there.
fn take_frames(reader: &mut FrameReader, frames: &mut Vec<Frame>) -> Result<(), AllocError>
    requires { IsSound reader.old }
    ensures yields { (bytes : List ℕ) → Yields bytes (map frame_of frames.old.items) reader.old.bytes → OnOk result (Yields bytes (map frame_of frames.new.items) reader.new.bytes) }
    ensures ended { OnOk result (HasEnded reader.new.failed reader.new.bytes) }
{
    while take_frame(reader, frames)? {}
    Ok(())
}

/// The frames of a stream that comes in these pieces.
pub fn frames_of(alloc: Global, pieces: &[Text]) -> Result<FramesRead, AllocError>
    ensures { IfOk result (λ read. Splits (flat_map (λ piece. piece) pieces.now) (map frame_of read.frames) read.bad) }
{
    let mut reader = FrameReader::new(alloc);
    let mut frames = Vec::new(alloc);
    for piece in pieces {
        reader.feed(piece.as_slice())?;
        take_frames(&mut reader, &mut frames)?;
    }
    Ok(FramesRead {
        frames: Frames::from_vec(frames),
        bad: reader.has_failed(),
    })
}

/// Bytes are split into frames in one way, in whatever pieces they come.
pub fn frames_are_those_of_the_bytes()
    ensures { (bytes : List ℕ) (frames others : List plain.Frame) (bad worse : Bool) → Splits bytes frames bad → Splits bytes others worse → (frames ≡ others) × (bad ≡ worse) }
{}
