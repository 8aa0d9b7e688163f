//! Each request has one spelling.
ghost use Rattle.aw_codec.specs.OneSpelling.{ReadsSpelled, SpelledIfRead, NoneBeginsAnother, CutIsShort};
ghost use Rattle.aw_msg.specs.Frames.{frame, spelled_frame, FrameSized, FrameInRange};

/// Requests are read as they are spelled, and no spelling begins another one.
pub fn frames_have_one_spelling()
    ensures again { ReadsSpelled frame spelled_frame FrameSized FrameInRange }
    ensures spelled { SpelledIfRead frame spelled_frame FrameSized FrameInRange }
    ensures apart { NoneBeginsAnother spelled_frame FrameSized FrameInRange }
    // What is cut short needs more bytes.
    ensures cut { CutIsShort frame spelled_frame FrameSized FrameInRange }
{}
