//! One session.
ghost use Rattle.std.specs.Prelude.{◌≡◌, ℕ, ◌+◌, ◌<◌, ◌≤◌, ◌++◌, ◌∷◌, List, [], Bool, Option, None, true, false, length, IfOk, IfErr, OnOk};
ghost use Rattle.aw_session.specs.Course.{IsGoing, IsDone, IsHalted, GoesOn, EndsWith};
ghost use Rattle.aw_session.specs.Frames.{joined, AreAnswered};
ghost use Rattle.aw_session.specs.Served.{limit, closing};
ghost use Rattle.aw_session.specs.Talking.{Talks};
ghost use Rattle.aw_msg.specs.Frames as plain;
ghost use Rattle.aw_msg.specs.Pieces.{Yields};

use crate::answering::{Stop, answer_frames};
use crate::handles::Handles;
use crate::log::{How, SessionLog};
use crate::writing::write_all;
use aw_msg::FrameReader;
use aw_out::{Got, Wire};
use std::alloc::Global;

/// The most bytes that may come in a session.
pub const SESSION_LIMIT: usize = 67_108_864;

/// Room for one read, in bytes.
const PIECE: usize = 4096;

/// The reply to the byte past the limit.
const TOO_LONG: [u8; 5] = [8, 0, 0, 0, 0];

/// The reply to what is no frame.
const BAD_FRAME: [u8; 5] = [9, 0, 0, 0, 0];

/// A session so far: the bytes that came and belong to no answered frame, how many came in all, and how many frames were answered.
#[derive(Drop)]
struct Session {
    reader: FrameReader,
    total: usize,
    frames: u64,
}

/// Writes the reply with which a session ends.
fn end_with<W: Wire>(wire: &mut W, how: How, reply: &[u8]) -> How
    requires open { W.is_open wire.old ≡ true }
    requires reply { closing how ≡ reply.now ∷ [] }
    ensures { EndsWith result how reply.now (λ (w : List ℕ) (b : Bool). Talks W.content W.is_open W.faults W.failed_openings wire.old wire.new [] w b) }
{
    match write_all(wire, reply) {
        Ok(()) => how,
        Err(_) => How::Fault,
    }
}

impl Session {
    fn new(alloc: Global) -> Session
        ensures { result ≡ record { reader = record { bytes = []; failed = false }; total = 0; frames = 0 } }
    {
        Session {
            reader: FrameReader::new(alloc),
            total: 0,
            frames: 0,
        }
    }

    /// Answers the frames that a piece completes, and tells how the session ended, if it did.
    fn take_piece<W: Wire, H: Handles>(
        &mut self,
        piece: &[u8],
        node: &mut H,
        wire: &mut W,
    ) -> Result<Option<How>, H::Fault>
        requires ready { H.ready node.old }
        requires open { W.is_open wire.old ≡ true }
        requires some { 0 < length piece.now }
        requires sound { self.old.reader.failed ≡ false }
        requires within { self.old.total ≤ limit }
        requires room { self.old.frames + length self.old.reader.bytes ≤ self.old.total }
        ensures ready { OnOk result (H.ready node.new) }
        ensures ok { (s : _) (u : _) (read : List ℕ) (frames : List plain.Frame) (replies : List (List ℕ)) →
            Yields read frames self.old.reader.bytes → self.old.total ≡ length read → self.old.frames ≡ length frames → AreAnswered H.answers s frames replies node.old →
            Talks W.content W.is_open W.faults W.failed_openings u wire.old (read ++ piece.now) (joined replies) false →
            IfOk result (GoesOn H.answers (Talks W.content W.is_open W.faults W.failed_openings) W.content s node.new u wire.new self.new.reader self.new.total self.new.frames) }
        ensures err { (s : _) (u : _) (read : List ℕ) (frames : List plain.Frame) (replies : List (List ℕ)) →
            Yields read frames self.old.reader.bytes → self.old.total ≡ length read → AreAnswered H.answers s frames replies node.old →
            Talks W.content W.is_open W.faults W.failed_openings u wire.old (read ++ piece.now) (joined replies) false →
            IfErr result (IsHalted H.answers H.breaks (Talks W.content W.is_open W.faults W.failed_openings) s node.new u wire.new) }
        ensures more { IfOk result (λ (ended : Option _). ended ≡ None → self.old.total < self.new.total) }
    {
        let within = piece.len().min(SESSION_LIMIT - self.total);
        let (front, _) = piece.split_at(within);
        self.reader.feed(front)?;
        self.total += within;
        match answer_frames(&mut self.reader, &mut self.frames, node, wire)? {
            Stop::Waits if within == piece.len() => Ok(None),
            Stop::Waits => Ok(Some(end_with(wire, How::Long, &TOO_LONG))),
            Stop::Bad => Ok(Some(end_with(wire, How::Bad, &BAD_FRAME))),
            Stop::Broken => Ok(Some(How::Fault)),
        }
    }

    /// Reads once and answers the frames that then are there; tells how the session ended, if it did.
    fn next_piece<W: Wire, H: Handles>(
        &mut self,
        node: &mut H,
        wire: &mut W,
    ) -> Result<Option<How>, H::Fault>
        requires ready { H.ready node.old }
        requires open { W.is_open wire.old ≡ true }
        requires sound { self.old.reader.failed ≡ false }
        requires within { self.old.total ≤ limit }
        requires room { self.old.frames + length self.old.reader.bytes ≤ self.old.total }
        ensures ready { OnOk result (H.ready node.new) }
        ensures ok { (s : _) (u : _) → IsGoing H.answers (Talks W.content W.is_open W.faults W.failed_openings) s node.old u wire.old self.old.reader self.old.total self.old.frames →
            IfOk result (GoesOn H.answers (Talks W.content W.is_open W.faults W.failed_openings) W.content s node.new u wire.new self.new.reader self.new.total self.new.frames) }
        ensures err { (s : _) (u : _) → IsGoing H.answers (Talks W.content W.is_open W.faults W.failed_openings) s node.old u wire.old self.old.reader self.old.total self.old.frames →
            IfErr result (IsHalted H.answers H.breaks (Talks W.content W.is_open W.faults W.failed_openings) s node.new u wire.new) }
        ensures more { IfOk result (λ (ended : Option _). ended ≡ None → self.old.total < self.new.total) }
    {
        let mut piece = [0u8; PIECE];
        match wire.read(&mut piece) {
            Got::Read(n) => self.take_piece(&piece[..n], node, wire),
            Got::End if self.reader.is_empty() => Ok(Some(How::End)),
            Got::End => Ok(Some(How::Cut)),
            Got::Failed => Ok(Some(How::Fault)),
        }
    }
}

/// Serves the open session to its end.
pub fn serve_session<W: Wire, H: Handles>(
    alloc: Global,
    node: &mut H,
    wire: &mut W,
) -> Result<SessionLog, H::Fault>
    requires ready { H.ready node.old }
    requires open { W.is_open wire.old ≡ true }
    ensures ready { OnOk result (H.ready node.new) }
    ensures ok { IfOk result (IsDone H.answers (Talks W.content W.is_open W.faults W.failed_openings) W.content node.old node.new wire.old wire.new) }
    ensures err { IfErr result (IsHalted H.answers H.breaks (Talks W.content W.is_open W.faults W.failed_openings) node.old node.new wire.old wire.new) }
{
    let mut session = Session::new(alloc);
    loop {
        match session.next_piece(node, wire)? {
            None => {}
            Some(how) => {
                return Ok(SessionLog {
                    frames: session.frames,
                    how,
                });
            }
        }
    }
}
