//! The replies with which sessions end.
ghost use Rattle.std.specs.Prelude.{◌≡◌};
ghost use Rattle.aw_msg.specs.Replies.{spelled_reply};
ghost use Rattle.aw_msg.specs.Responses.{TooLong, BadFrame};
ghost use Rattle.aw_session.specs.Served.{too_long, bad_frame};
ghost use Rattle.aw_term.specs.Artifacts.{Words};

/// A session that is too long ends with the bytes of the reply that says so, and so does one with a bad frame.
pub fn endings_are_replies()
    ensures long { (words : Words) → too_long ≡ spelled_reply words TooLong }
    ensures bad { (words : Words) → bad_frame ≡ spelled_reply words BadFrame }
{}
