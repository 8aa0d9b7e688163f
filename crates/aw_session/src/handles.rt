//! Who answers the frames of a session.
ghost use Rattle.std.specs.Prelude.{ℕ, List, IfOk, IfErr, OnOk};
ghost use Rattle.aw_msg.specs.Frames.{Frame as PlainFrame, FrameInRange};
ghost use Rattle.aw_msg.specs.FrameView.{frame_of};

use aw_list::Text;
use aw_msg::Frame;
use std::alloc::AllocError;

/// A workspace that is asked frame by frame.
pub trait Handles {
    /// Why a frame gets no reply, out of memory among the causes.
    type Fault: From<AllocError> + Drop;

    /// What has to hold of the workspace where it is asked.
    ghost ready: { Self → Type 0 };

    /// What a reply to a frame does: the workspace before it, the frame, the bytes of the reply, and the workspace behind it.
    ghost answers: { Self → PlainFrame → List ℕ → Self → Type 0 };

    /// What is done where a frame gets no reply.
    ghost breaks: { Self → PlainFrame → Self.Fault → Self → Type 0 };

    /// The bytes of the reply to a frame.
    fn reply_to(&mut self, frame: &Frame) -> Result<Text, Self::Fault>
        requires ready { ready self.old }
        requires range { FrameInRange (frame_of frame.now) }
        ensures ready { OnOk result (ready self.new) }
        ensures ok { IfOk result (λ reply. answers self.old (frame_of frame.now) reply self.new) }
        ensures err { IfErr result (λ fault. breaks self.old (frame_of frame.now) fault self.new) };
}
