//! Who answers the frames that are asked of one role.
ghost use Rattle.std.specs.Prelude.{ℕ, List, IfOk};
ghost use Rattle.aw_msg.specs.Frames.{Frame as PlainFrame, FrameInRange};
ghost use Rattle.aw_msg.specs.FrameView.{frame_of};

use aw_list::Text;
use aw_msg::Frame;
use std::alloc::AllocError;

/// Who answers the frames that are asked of one role.
pub trait Desk {
    /// What a reply to a frame does: the desk before it, the frame, the bytes of the reply, and the desk behind it.
    ghost answers: { Self → PlainFrame → List ℕ → Self → Type 0 };

    /// The bytes of the reply to a frame. There may be no memory for it.
    fn reply_to(&mut self, frame: &Frame) -> Result<Text, AllocError>
        requires { FrameInRange (frame_of frame.now) }
        ensures { IfOk result (λ reply. answers self.old (frame_of frame.now) reply self.new) };
}
