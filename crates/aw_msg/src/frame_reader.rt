//! Requests from a stream that comes in any pieces.
ghost use Rattle.std.specs.Prelude.{◌≡◌, ◌≤◌, ◌↔◌, ◌++◌, [], false, length, drop, IsTrue, IfOk, OnOk, OnErr};
ghost use Rattle.aw_codec.specs.Gives.{Gives};
ghost use Rattle.aw_msg.specs.Frames.{frame, FrameInRange};
ghost use Rattle.aw_msg.specs.FrameView.{frame_of};
ghost use Rattle.aw_msg.specs.Streams.{next_of, left_of};
ghost use Rattle.aw_msg.specs.NextView.{answer_of, NextInRange};

use crate::frame::Frame;
use crate::frame_reading::frame_at;
use aw_codec::Unread;
use bytes::BytesMut;
use std::alloc::{AllocError, Global};
use std::marker::Model;

/// What stands next in a stream.
#[derive(Debug, Clone, PartialEq, Eq, Drop)]
pub enum Next {
    /// A frame.
    Frame(Frame),
    /// Less than a frame: more bytes are needed.
    Need,
    /// What is no frame, however it goes on.
    Bad,
}

/// The bytes that came and were not yet taken as frames. Frames do not depend on how the bytes were cut.
#[derive(Drop)]
pub struct FrameReader {
    kept: BytesMut,
    failed: bool,
}

impl Model for FrameReader {
    ghost use Rattle.aw_msg.specs.Streams.{Stream};

    ghost Value = { Stream };

    ghost view = { λ r. record { bytes = r.kept.items; failed = r.failed } };
}

/// The first frame of some bytes, and how many bytes it has.
fn first_frame(alloc: Global, bytes: &[u8]) -> Result<(Frame, usize), Unread>
    ensures frame { Gives (λ x. (frame_of x.0, drop x.1 bytes.now)) result (frame bytes.now) }
    ensures within { IfOk result (λ x. x.1 ≤ length bytes.now) }
    ensures range { IfOk result (λ x. FrameInRange (frame_of x.0)) }
{
    let (found, rest) = frame_at(alloc, bytes)?;
    Ok((found, bytes.len().saturating_sub(rest.len())))
}

impl FrameReader {
    /// A stream of which nothing has come. It takes no memory.
    pub fn new(alloc: Global) -> FrameReader
        ensures { result ≡ record { bytes = []; failed = false } }
    {
        FrameReader {
            kept: BytesMut::new(alloc),
            failed: false,
        }
    }

    /// Takes the bytes that come next. An error changes nothing.
    pub fn feed(&mut self, piece: &[u8]) -> Result<(), AllocError>
        ensures ok { OnOk result (self.new ≡ record self.old { bytes = self.old.bytes ++ piece.now }) }
        ensures err { OnErr result (self.new ≡ self.old) }
    {
        self.kept.extend_from_slice(piece)
    }

    /// What stands next. A frame is taken away; `Need` changes nothing; after `Bad` every later answer is `Bad`. An error changes nothing.
    pub fn next(&mut self) -> Result<Next, AllocError>
        ensures answer { IfOk result (λ next. answer_of next ≡ next_of self.old) }
        ensures range { IfOk result NextInRange }
        ensures left { OnOk result (self.new ≡ left_of self.old) }
        ensures err { OnErr result (self.new ≡ self.old) }
    {
        if self.failed {
            return Ok(Next::Bad);
        }
        match first_frame(*self.kept.allocator(), self.kept.as_slice()) {
            Ok((found, count)) => {
                self.kept.advance(count);
                Ok(Next::Frame(found))
            }
            Err(Unread::Short) => Ok(Next::Need),
            Err(Unread::Bad { .. }) => {
                self.failed = true;
                Ok(Next::Bad)
            }
            Err(Unread::NoMemory) => Err(AllocError),
        }
    }

    /// Whether no byte waits to be taken.
    pub fn is_empty(&self) -> bool
        ensures { IsTrue result ↔ (self.now.bytes ≡ []) }
    {
        self.kept.as_slice().is_empty()
    }

    /// Whether `next` answered `Bad`.
    pub fn has_failed(&self) -> bool
        ensures { result ≡ self.now.failed }
    {
        self.failed
    }
}
