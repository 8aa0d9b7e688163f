//! Sources and sinks in memory: they tell their bytes, move them in pieces, and fail where they
//! are told to.
ghost use Rattle.std.specs.Prelude.{◌≡◌, ◌≢◌, ◌≤◌, ◌<◌, [], Some, length, IfOk};
ghost use Rattle.aw_out.specs.Edge.{FitsBuffer, FitsBytes, Gives, given};
ghost use Rattle.aw_out.specs.Reads.{answer_of};
ghost use Rattle.aw_out.specs.Memory.{read_answer, after_read, write_answer, after_write};

use crate::edge::{Got, Put, Sink, Source};
use crate::script::{Calls, Script, Sizes};
use aw_list::Text;
use std::alloc::{AllocError, Global};
use std::marker::Model;

/// A source of bytes in memory.
#[derive(Drop)]
pub struct MemSource {
    bytes: Text,
    at: usize,
    script: Script,
}

impl Model for MemSource {
    ghost use Rattle.std.specs.Prelude.{◌≤◌, length, drop};
    ghost use Rattle.aw_out.specs.Memory.{Supply};

    ghost Value = { Supply };

    ghost view = { λ s. record { left = drop s.at s.bytes; pieces = s.script.pieces; fails = s.script.fails; calls = s.script.calls; moves = s.script.moves; faults = s.script.faults } };

    ghost invariant = { λ s. s.at ≤ length s.bytes };
}

impl MemSource {
    /// A source of these bytes. It takes no memory, and its reads take none.
    pub fn new(bytes: Text, pieces: Sizes, fails: Calls) -> MemSource
        ensures { result ≡ record { left = bytes; pieces = pieces; fails = fails; calls = 0; moves = 0; faults = 0 } }
    {
        MemSource {
            bytes,
            at: 0,
            script: Script::new(pieces, fails),
        }
    }
}

impl Source for MemSource {
    ghost left = { λ s. Some s.left };

    ghost faults = { λ s. s.faults };

    fn read(&mut self, buf: &mut [u8]) -> Got
        requires { 0 < length buf.old }
        ensures answer { result ≡ read_answer self.old (length buf.old) }
        ensures after { self.new ≡ after_read self.old result }
        ensures bytes { Gives (Some self.old.left) (Some self.new.left) (given result buf.new) }
        ensures count { FitsBuffer result buf.new }
        ensures never_falls { self.old.faults ≤ self.new.faults }
        ensures kept { result ≢ Got.Failed → self.new.faults ≡ self.old.faults }
    {
        let Some(piece) = self.script.begin() else {
            self.script.fail();
            return Got::Failed;
        };
        let (_, left) = self.bytes.as_slice().split_at(self.at);
        let answer = read_front(left, buf, piece.min(buf.len()));
        if let Got::Read(n) = answer {
            self.at += n;
        }
        answer
    }
}

/// A sink that keeps what is written.
#[derive(Drop)]
pub struct MemSink {
    bytes: Vec<u8>,
    room: usize,
    script: Script,
}

impl Model for MemSink {
    ghost use Rattle.std.specs.Prelude.{◌≤◌, vec_len, vec_capacity};
    ghost use Rattle.aw_out.specs.Memory.{Kept};

    ghost Value = { Kept };

    ghost view = { λ s. record { written = s.bytes.items; room = s.room; pieces = s.script.pieces; fails = s.script.fails; calls = s.script.calls; moves = s.script.moves; faults = s.script.faults } };

    ghost invariant = { λ s. (vec_len s.bytes ≤ s.room) × (s.room ≤ vec_capacity s.bytes) };
}

impl MemSink {
    /// Takes the memory for `room` bytes. Its writes take none.
    pub fn new(
        alloc: Global,
        pieces: Sizes,
        fails: Calls,
        room: usize,
    ) -> Result<MemSink, AllocError>
        ensures { IfOk result (λ sink. sink ≡ record { written = []; room = room; pieces = pieces; fails = fails; calls = 0; moves = 0; faults = 0 }) }
    {
        Ok(MemSink {
            bytes: Vec::with_capacity(alloc, room)?,
            room,
            script: Script::new(pieces, fails),
        })
    }

    /// What was written.
    pub fn written(&self) -> &[u8]
        ensures { result.now ≡ self.now.written }
    {
        self.bytes.as_slice()
    }
}

impl Sink for MemSink {
    ghost written = { λ s. Some s.written };

    ghost faults = { λ s. s.faults };

    fn write(&mut self, b: &[u8]) -> Put
        requires { 0 < length b.now }
        ensures answer { result ≡ write_answer self.old (length b.now) }
        ensures after { self.new ≡ after_write self.old b.now result }
        ensures count { FitsBytes result b.now }
        ensures never_falls { self.old.faults ≤ self.new.faults }
        ensures kept { result ≢ Put.Failed → self.new.faults ≡ self.old.faults }
    {
        let Some(piece) = self.script.begin() else {
            self.script.fail();
            return Put::Failed;
        };
        let n = b.len().min(piece);
        if self.room - self.bytes.len() < n {
            self.script.fail();
            return Put::Failed;
        }
        let (front, _) = b.split_at(n);
        self.bytes.extend_from_slice(front).unwrap();
        Put::Took(n)
    }
}

/// Copies at most `most` bytes from the front of what is left to the front of the buffer.
pub(crate) fn read_front(left: &[u8], buf: &mut [u8], most: usize) -> Got
    requires some { 1 ≤ most }
    requires room { most ≤ length buf.old }
    ensures answer { result ≡ answer_of left.now most }
    ensures bytes { given result buf.new ≡ given result left.now }
    ensures count { FitsBuffer result left.now }
{
    if left.is_empty() {
        return Got::End;
    }
    let n = left.len().min(most);
    buf[..n].copy_from_slice(&left[..n]);
    Got::Read(n)
}
