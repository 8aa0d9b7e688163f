//! A wire in memory.
ghost use Rattle.std.specs.Prelude.{◌≡◌, ◌≤◌, ◌<◌, ◌↔◌, Some, length, true, IfOk};
ghost use Rattle.aw_out.specs.Edge.{FitsBuffer, FitsBytes, given};
ghost use Rattle.aw_out.specs.Memory.{AreSizes};
ghost use Rattle.aw_out.specs.Wires.{Arrives, Dials, ReadsInSession, WritesInSession};
ghost use Rattle.aw_net.specs.MemWires as plain;
ghost use Rattle.aw_net.specs.Shown.{written_in};

use crate::script::Script;
use crate::sessions::Sessions;
use aw_list::Items;
use aw_out::{Arrival, Dialed, Got, Put, Texts, Wire};
use std::alloc::{AllocError, Global};
use std::marker::Model;

/// Sizes of pieces, or numbers of calls counted from 0.
pub type Numbers = Items<usize>;

/// A wire in memory. Its sessions come in order, and then no more; one that is dialed is the next of them, or after the last one a session with
/// nothing to read. The read or write of number i, from 0, moves at most the i-th of the pieces, and past their end the last one. A call fails
/// where its number is listed, and where it would pass the room for written bytes or for sessions.
#[derive(Drop)]
pub struct MemWire {
    sessions: Sessions,
    script: Script,
}

impl Model for MemWire {
    ghost use Rattle.aw_net.specs.MemWires as plain;

    ghost Value = { plain.Wired };

    ghost view = { λ w. record { sessions = w.sessions; script = w.script } };
}

impl MemWire {
    /// Takes the memory for `room` written bytes and `most` sessions. Its calls take none. There is a piece, and none is 0.
    pub fn new(
        alloc: Global,
        sessions: Texts,
        pieces: Numbers,
        fails: Numbers,
        room: usize,
        most: usize,
    ) -> Result<MemWire, AllocError>
        requires { AreSizes pieces }
        ensures { IfOk result (λ wire. wire ≡ plain.new_wire sessions pieces fails room most) }
    {
        Ok(MemWire {
            sessions: Sessions::new(alloc, sessions, room, most)?,
            script: Script::new(pieces, fails),
        })
    }

    /// How many sessions there were so far, the open one among them.
    pub fn passed(&self) -> usize
        ensures { result ≡ length self.now.sessions.passed }
    {
        self.sessions.passed()
    }

    /// What was written in one of its sessions so far, counted from 0.
    pub fn written(&self, session: usize) -> &[u8]
        requires { session < length self.now.sessions.passed }
        ensures { written_in self.now.sessions.passed session ≡ Some result.now }
    {
        self.sessions.written(session)
    }
}

impl Wire for MemWire {
    ghost content = { λ w. Some (plain.content_of w.sessions) };

    ghost is_open = { λ w. w.sessions.is_open };

    ghost faults = { λ w. w.script.faults };

    ghost failed_openings = { λ w. w.script.openings };

    fn next_session(&mut self, role: u16) -> Arrival
        requires { role < 64 }
        ensures answer { result ≡ plain.arrival_of self.old }
        ensures after { self.new ≡ plain.after_arrival role result self.old }
        ensures open { (self.new.sessions.is_open ≡ true) ↔ (result ≡ Arrival.Session) }
        ensures content { Arrives role result (plain.content_of self.old.sessions) (plain.content_of self.new.sessions) }
        ensures never_falls { self.old.script.faults ≤ self.new.script.faults }
        ensures openings_never_fall { self.old.script.openings ≤ self.new.script.openings }
    {
        let is_failing = self.script.is_failing();
        self.script.count_opening();
        if is_failing {
            return self.fail_arrival();
        }
        if self.sessions.is_last() {
            self.sessions.close();
            return Arrival::End;
        }
        if !self.sessions.has_room() {
            return self.fail_arrival();
        }
        self.sessions.open(role, false);
        Arrival::Session
    }

    fn dial(&mut self, role: u16) -> Dialed
        requires { role < 64 }
        ensures answer { result ≡ plain.dialed_of self.old }
        ensures after { self.new ≡ plain.after_dialing role result self.old }
        ensures open { (self.new.sessions.is_open ≡ true) ↔ (result ≡ Dialed.Opened) }
        ensures content { Dials role result (plain.content_of self.old.sessions) (plain.content_of self.new.sessions) }
        ensures never_falls { self.old.script.faults ≤ self.new.script.faults }
        ensures openings_never_fall { self.old.script.openings ≤ self.new.script.openings }
    {
        let is_failing = self.script.is_failing();
        self.script.count_opening();
        if is_failing || !self.sessions.has_room() {
            self.script.fail_opening();
            self.sessions.close();
            return Dialed::Failed;
        }
        self.sessions.open(role, true);
        Dialed::Opened
    }

    fn read(&mut self, buf: &mut [u8]) -> Got
        requires room { 0 < length buf.old }
        requires open { self.old.sessions.is_open ≡ true }
        ensures answer { result ≡ plain.read_of (length buf.old) self.old }
        ensures after { self.new ≡ plain.after_reading result self.old }
        ensures bytes { given result buf.new ≡ given result (plain.left_in self.old.sessions) }
        ensures open { self.new.sessions.is_open ≡ true }
        ensures count { FitsBuffer result buf.new }
        ensures content { ReadsInSession result buf.new (plain.content_of self.old.sessions) (plain.content_of self.new.sessions) }
        ensures never_falls { self.old.script.faults ≤ self.new.script.faults }
    {
        let is_failing = self.script.is_failing();
        let piece = self.script.next_piece();
        self.script.count_move();
        if is_failing {
            self.fail_move();
            return Got::Failed;
        }
        let most = buf.len().min(piece);
        self.sessions.read(buf, most)
    }

    fn write(&mut self, b: &[u8]) -> Put
        requires some { 0 < length b.now }
        requires open { self.old.sessions.is_open ≡ true }
        ensures answer { result ≡ plain.write_of (length b.now) self.old }
        ensures after { self.new ≡ plain.after_writing b.now result self.old }
        ensures open { self.new.sessions.is_open ≡ true }
        ensures count { FitsBytes result b.now }
        ensures content { WritesInSession result b.now (plain.content_of self.old.sessions) (plain.content_of self.new.sessions) }
        ensures never_falls { self.old.script.faults ≤ self.new.script.faults }
    {
        let is_failing = self.script.is_failing();
        let count = b.len().min(self.script.next_piece());
        self.script.count_move();
        if is_failing || self.sessions.room() < count {
            self.fail_move();
            return Put::Failed;
        }
        let (front, _) = b.split_at(count);
        self.sessions.write(front);
        Put::Took(count)
    }
}

impl MemWire {
    /// No session came.
    fn fail_arrival(&mut self) -> Arrival
        ensures failed { result ≡ Arrival.Failed }
        ensures after { self.new ≡ record { sessions = plain.closed self.old.sessions; script = plain.failed_opening self.old.script } }
        ensures never_falls { self.old.script.faults ≤ self.new.script.faults }
        ensures openings_never_fall { self.old.script.openings ≤ self.new.script.openings }
    {
        self.script.fail_opening();
        self.sessions.close();
        Arrival::Failed
    }

    /// A read or a write failed.
    fn fail_move(&mut self)
        requires { self.old.sessions.is_open ≡ true }
        ensures after { self.new ≡ record { sessions = plain.with_fault self.old.sessions; script = plain.failed self.old.script } }
        ensures never_falls { self.old.script.faults ≤ self.new.script.faults }
    {
        self.script.fail();
        self.sessions.fail();
    }
}
