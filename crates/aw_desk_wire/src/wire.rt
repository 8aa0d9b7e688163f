//! A wire over desks.
ghost use Rattle.std.specs.Prelude.{◌≡◌, ◌≢◌, ◌≤◌, ◌<◌, ◌↔◌, ◌++◌, List, Some, true, is_some, length, OnOk, OnErr};
ghost use Rattle.aw_out.specs.Causes.{Rose};
ghost use Rattle.aw_out.specs.Edge.{FitsBuffer, FitsBytes, given};
ghost use Rattle.aw_out.specs.Reads.{answer_of};
ghost use Rattle.aw_out.specs.Wires.{Arrives, Dials, ReadsInSession, WritesInSession, after_fault};
ghost use Rattle.aw_desk_wire.specs.Asking.{IsStarved};
ghost use Rattle.aw_desk_wire.specs.Calls.{no_calls, passed_in, role_in, left_in, content_of, closed, opened, changed, has_read, written_in, reader_after};
ghost use Rattle.aw_desk_wire.specs.Honest.{WasHonest, IsWritten};

use crate::asking::ask_all;
use crate::calls::Calls;
use crate::desk::Desk;
use aw_msg::FrameReader;
use aw_out::{Arrival, Dialed, Got, Put, Wire};
use std::alloc::{AllocError, Global};

/// A wire whose sessions are dialed to desks in this process, one for each role. Each whole frame that is written is asked of the desk of the
/// dialed role, and its reply is left to read. A role that has no desk is dialed as the others, and what is written there is asked of no desk.
/// No session comes by itself. A call fails only where memory runs out.
#[derive(Drop)]
pub struct DeskWire<D> {
    alloc: Global,
    desks: Vec<D>,
    calls: Calls,
    reader: FrameReader,
    starved: u64,
    unopened: u64,
}

impl<D: Desk> DeskWire<D> {
    /// A wire over these desks, of which none was dialed. It takes no memory.
    pub fn new(alloc: Global, desks: Vec<D>) -> DeskWire<D>
        ensures desks { result.desks.items ≡ desks.items }
        ensures calls { result.calls ≡ no_calls }
        ensures honest { WasHonest D.answers desks.items result.desks.items result.reader result.calls }
        ensures starved { result.starved ≡ 0 }
        ensures unopened { result.unopened ≡ 0 }
    {
        DeskWire {
            alloc,
            desks,
            calls: Calls::new(alloc),
            reader: FrameReader::new(alloc),
            starved: 0,
            unopened: 0,
        }
    }

    /// The desks, as they are behind all that was asked.
    pub fn desks(&self) -> &[D]
        ensures { result.now ≡ self.now.desks.items }
    {
        self.desks.as_slice()
    }

    /// How often a call failed, since memory ran out.
    pub fn starved(&self) -> u64
        ensures { result ≡ self.now.starved }
    {
        self.starved
    }

    /// How many sessions there were so far, the open one among them.
    pub fn passed(&self) -> usize
        ensures { result ≡ length (passed_in self.now.calls) }
    {
        self.calls.passed()
    }

    /// What was written in one of its sessions so far, counted from 0.
    pub fn written(&self, session: usize) -> &[u8]
        requires { session < length (passed_in self.now.calls) }
        ensures { written_in (passed_in self.now.calls) session ≡ Some result.now }
    {
        self.calls.written(session)
    }

    /// Ends the open session, if one is open.
    pub(crate) fn close(&mut self)
        ensures calls { self.new.calls ≡ closed self.old.calls }
        ensures desks { self.new.desks.items ≡ self.old.desks.items }
        ensures reader { self.new.reader ≡ self.old.reader }
        ensures starved { self.new.starved ≡ self.old.starved }
        ensures unopened { self.new.unopened ≡ self.old.unopened }
    {
        self.calls.close();
    }

    /// Asks the whole frames that these bytes bring, and leaves the replies to read.
    fn answer(&mut self, bytes: &[u8]) -> Result<(), AllocError>
        requires open { self.old.calls.is_open ≡ true }
        ensures ok { OnOk result (IsWritten D.answers self.old.desks.items self.new.desks.items self.old.reader self.new.reader self.old.calls self.new.calls bytes.now) }
        ensures err { OnErr result (self.new.calls ≡ self.old.calls) }
        ensures starves { OnErr result (IsStarved D.answers (role_in self.old.calls.last) self.old.desks.items self.new.desks.items (self.old.reader.bytes ++ bytes.now)) }
        ensures some { is_some self.old.calls.last ≡ true }
        ensures starved { self.new.starved ≡ self.old.starved }
        ensures unopened { self.new.unopened ≡ self.old.unopened }
    {
        let role = usize::from(self.calls.role());
        self.reader.feed(bytes)?;
        let replies = ask_all(self.alloc, &mut self.reader, &mut self.desks, role)?;
        self.calls.write(bytes, replies.as_slice())
    }
}

impl<D: Desk> Wire for DeskWire<D> {
    ghost content = { λ w. Some (content_of w.calls) };

    ghost is_open = { λ w. w.calls.is_open };

    ghost faults = { λ w. w.starved };

    ghost failed_openings = { λ w. w.unopened };

    fn next_session(&mut self, role: u16) -> Arrival
        requires { role < 64 }
        ensures answer { result ≡ Arrival.End }
        ensures calls { self.new.calls ≡ closed self.old.calls }
        ensures desks { self.new.desks.items ≡ self.old.desks.items }
        ensures reader { self.new.reader ≡ self.old.reader }
        ensures honest { (ds : List D) → WasHonest D.answers ds self.old.desks.items self.old.reader self.old.calls → WasHonest D.answers ds self.new.desks.items self.new.reader self.new.calls }
        ensures open { (self.new.calls.is_open ≡ true) ↔ (result ≡ Arrival.Session) }
        ensures content { Arrives role result (content_of self.old.calls) (content_of self.new.calls) }
        ensures starved { self.new.starved ≡ self.old.starved }
        ensures unopened { self.new.unopened ≡ self.old.unopened }
    {
        self.calls.close();
        Arrival::End
    }

    fn dial(&mut self, role: u16) -> Dialed
        requires { role < 64 }
        ensures opened { result ≡ Dialed.Opened → self.new.calls ≡ opened role self.old.calls }
        ensures closed { result ≡ Dialed.Failed → self.new.calls ≡ closed self.old.calls }
        ensures desks { self.new.desks.items ≡ self.old.desks.items }
        ensures reader { self.new.reader ≡ reader_after result self.old.reader }
        ensures honest { (ds : List D) → WasHonest D.answers ds self.old.desks.items self.old.reader self.old.calls → WasHonest D.answers ds self.new.desks.items self.new.reader self.new.calls }
        ensures open { (self.new.calls.is_open ≡ true) ↔ (result ≡ Dialed.Opened) }
        ensures content { Dials role result (content_of self.old.calls) (content_of self.new.calls) }
        ensures never_falls { self.old.starved ≤ self.new.starved }
        ensures openings_never_fall { self.old.unopened ≤ self.new.unopened }
        ensures cause { result ≡ Dialed.Failed → Rose self.old.starved self.new.starved }
        ensures opening_cause { result ≡ Dialed.Failed → Rose self.old.unopened self.new.unopened }
        ensures kept { result ≢ Dialed.Failed → self.new.starved ≡ self.old.starved }
        ensures openings_kept { result ≢ Dialed.Failed → self.new.unopened ≡ self.old.unopened }
    {
        match self.calls.open(role) {
            Ok(()) => {
                self.reader = FrameReader::new(self.alloc);
                Dialed::Opened
            }
            Err(_) => {
                self.starved = self.starved.saturating_add(1);
                self.unopened = self.unopened.saturating_add(1);
                Dialed::Failed
            }
        }
    }

    fn read(&mut self, buf: &mut [u8]) -> Got
        requires room { 0 < length buf.old }
        requires open { self.old.calls.is_open ≡ true }
        ensures answer { result ≡ answer_of (left_in self.old.calls.last) (length buf.old) }
        ensures bytes { given result buf.new ≡ given result (left_in self.old.calls.last) }
        ensures calls { self.new.calls ≡ changed (has_read result) self.old.calls }
        ensures desks { self.new.desks.items ≡ self.old.desks.items }
        ensures reader { self.new.reader ≡ self.old.reader }
        ensures honest { (ds : List D) → WasHonest D.answers ds self.old.desks.items self.old.reader self.old.calls → WasHonest D.answers ds self.new.desks.items self.new.reader self.new.calls }
        ensures open { self.new.calls.is_open ≡ true }
        ensures count { FitsBuffer result buf.new }
        ensures content { ReadsInSession result buf.new (content_of self.old.calls) (content_of self.new.calls) }
        ensures starved { self.new.starved ≡ self.old.starved }
        ensures unopened { self.new.unopened ≡ self.old.unopened }
    {
        self.calls.read(buf)
    }

    fn write(&mut self, b: &[u8]) -> Put
        requires some { 0 < length b.now }
        requires open { self.old.calls.is_open ≡ true }
        ensures all { result ≢ Put.Failed → result ≡ Put.Took (length b.now) }
        ensures asked { result ≢ Put.Failed → IsWritten D.answers self.old.desks.items self.new.desks.items self.old.reader self.new.reader self.old.calls self.new.calls b.now }
        ensures failed { result ≡ Put.Failed → self.new.calls ≡ changed after_fault self.old.calls }
        ensures starves { result ≡ Put.Failed → IsStarved D.answers (role_in self.old.calls.last) self.old.desks.items self.new.desks.items (self.old.reader.bytes ++ b.now) }
        ensures honest { (ds : List D) → WasHonest D.answers ds self.old.desks.items self.old.reader self.old.calls → result ≢ Put.Failed →
            WasHonest D.answers ds self.new.desks.items self.new.reader self.new.calls }
        ensures open { self.new.calls.is_open ≡ true }
        ensures some { is_some self.old.calls.last ≡ true }
        ensures count { FitsBytes result b.now }
        ensures content { WritesInSession result b.now (content_of self.old.calls) (content_of self.new.calls) }
        ensures never_falls { self.old.starved ≤ self.new.starved }
        ensures same_openings { self.new.unopened ≡ self.old.unopened }
        ensures cause { result ≡ Put.Failed → Rose self.old.starved self.new.starved }
        ensures kept { result ≢ Put.Failed → self.new.starved ≡ self.old.starved }
    {
        match self.answer(b) {
            Ok(()) => Put::Took(b.len()),
            Err(_) => {
                self.starved = self.starved.saturating_add(1);
                self.calls.fail();
                Put::Failed
            }
        }
    }
}
