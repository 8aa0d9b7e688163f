//! The sessions of a wire in memory, and room for what is written in them.
ghost use Rattle.std.specs.Prelude.{◌≡◌, ◌+◌, ◌≤◌, ◌<◌, ◌↔◌, ◌++◌, [], ◌∷◌, true, false, nat_lt, length, take, drop, slice_get, option_to_list, vec_len, vec_capacity, Some, IfOk, IsTrue};
ghost use Rattle.aw_out.specs.Edge.{FitsBuffer, given};
ghost use Rattle.aw_out.specs.Reads.{answer_of, left_after};
ghost use Rattle.aw_net.specs.MemWires as plain;
ghost use Rattle.aw_net.specs.Shown.{written_in};

use crate::passed::Passed;
use aw_list::Text;
use aw_out::{Got, Texts};
use std::alloc::{AllocError, Global};
use std::marker::Model;

/// The sessions to come, the open one and those that ended, and the bytes that were written in all of them, in order.
#[derive(Drop)]
pub(crate) struct Sessions {
    // The next one last.
    coming: Texts,
    current: Option<Passed>,
    ended: Vec<Passed>,
    written: Vec<u8>,
    room: usize,
    most: usize,
}

impl Model for Sessions {
    ghost use Rattle.std.specs.Prelude.{vec_capacity};
    ghost use Rattle.aw_net.specs.MemWires as plain;
    ghost use Rattle.aw_net.specs.Shown.{shown, IsRoomy};

    ghost Value = { plain.Sessions };

    ghost view = { λ s. shown s.coming s.current s.ended.items s.written.items s.room s.most };

    ghost invariant = { λ s. IsRoomy s.ended.items s.current s.written.items (vec_capacity s.ended) (vec_capacity s.written) s.room s.most };
}

impl Sessions {
    /// Takes the memory for so many written bytes and so many sessions.
    pub(crate) fn new(
        alloc: Global,
        sessions: Texts,
        room: usize,
        most: usize,
    ) -> Result<Sessions, AllocError>
        ensures { IfOk result (λ made. made ≡ record { passed = []; coming = sessions; is_open = false; room = room; most = most }) }
    {
        let mut coming = sessions.into_vec();
        coming.reverse();
        Ok(Sessions {
            coming: Texts::from_vec(coming),
            current: None,
            ended: Vec::with_capacity(alloc, most)?,
            written: Vec::with_capacity(alloc, room)?,
            room,
            most,
        })
    }

    /// Ends the open session.
    pub(crate) fn close(&mut self)
        ensures { self.new ≡ plain.closed self.old }
    {
        if let Some(passed) = self.current.take() {
            keep(&mut self.ended, passed);
        }
    }

    /// How many sessions there were, the open one among them.
    pub(crate) fn passed(&self) -> usize
        ensures { result ≡ length self.now.passed }
    {
        match self.current {
            Some(_) => self.ended.len() + 1,
            None => self.ended.len(),
        }
    }

    /// Whether no session is to come.
    pub(crate) fn is_last(&self) -> bool
        ensures { IsTrue result ↔ (self.now.coming ≡ []) }
    {
        self.coming.is_empty()
    }

    /// Whether there is room for one more session.
    pub(crate) fn has_room(&self) -> bool
        ensures { result ≡ nat_lt 0 self.now.most }
    {
        0 < self.most
    }

    /// Ends the open session and opens the next one, or after the last one a session with nothing to read.
    pub(crate) fn open(&mut self, role: u16, dialed: bool)
        requires { 0 < self.old.most }
        ensures { self.new ≡ plain.opened role dialed self.old }
    {
        self.close();
        let bytes = match self.coming.pop() {
            Some(bytes) => bytes,
            None => Text::new(self.coming.allocator()),
        };
        let from = self.written.len();
        self.most -= 1;
        self.current = Some(Passed {
            role,
            dialed,
            bytes,
            at: 0,
            from,
            to: from,
            failed: false,
        });
    }

    /// Reads at most so many bytes of the open session to the front of the buffer.
    pub(crate) fn read(&mut self, buf: &mut [u8], most: usize) -> Got
        requires open { self.old.is_open ≡ true }
        requires some { 1 ≤ most }
        requires room { most ≤ length buf.old }
        ensures answer { result ≡ answer_of (plain.left_in self.old) most }
        ensures bytes { given result buf.new ≡ given result (plain.left_in self.old) }
        ensures count { FitsBuffer result buf.new }
        ensures left { self.new ≡ plain.with_read (given result (plain.left_in self.old)) (left_after result (plain.left_in self.old)) self.old }
    {
        read_front(self.current.as_mut().unwrap(), buf, most)
    }

    /// Writes the bytes in the open session.
    pub(crate) fn write(&mut self, bytes: &[u8])
        requires open { self.old.is_open ≡ true }
        requires room { length bytes.now ≤ self.old.room }
        ensures { self.new ≡ plain.with_written bytes.now self.old }
    {
        let to = extend(&mut self.written, bytes);
        self.room -= bytes.len();
        self.current.as_mut().unwrap().to = to;
    }

    /// How many more bytes may be written.
    pub(crate) fn room(&self) -> usize
        ensures { result ≡ self.now.room }
    {
        self.room
    }

    /// Notes that a read or a write failed in the open session.
    pub(crate) fn fail(&mut self)
        requires { self.old.is_open ≡ true }
        ensures { self.new ≡ plain.with_fault self.old }
    {
        self.current.as_mut().unwrap().failed = true;
    }

    /// What was written in the session of this number, from 0.
    pub(crate) fn written(&self, number: usize) -> &[u8]
        requires { number < length self.now.passed }
        ensures { written_in self.now.passed number ≡ Some result.now }
    {
        let passed = passed_at(&self.ended, &self.current, number);
        part_of(&self.written, passed.from, passed.to)
    }
}

/// Keeps a session for which there is memory.
fn keep(ended: &mut Vec<Passed>, passed: Passed)
    requires { vec_len ended.old < vec_capacity ended.old }
    ensures items { ended.new.items ≡ ended.old.items ++ passed ∷ [] }
    ensures capacity { vec_capacity ended.old ≤ vec_capacity ended.new }
{
    ended.push(passed).unwrap();
}

/// Adds bytes for which there is memory, and tells where they end.
fn extend(written: &mut Vec<u8>, bytes: &[u8]) -> usize
    requires { vec_len written.old + length bytes.now ≤ vec_capacity written.old }
    ensures items { written.new.items ≡ written.old.items ++ bytes.now }
    ensures capacity { vec_capacity written.old ≤ vec_capacity written.new }
    ensures end { result ≡ length (written.old.items ++ bytes.now) }
{
    written.extend_from_slice(bytes).unwrap();
    written.len()
}

/// The bytes from one place to another.
fn part_of(bytes: &[u8], from: usize, to: usize) -> &[u8]
    requires order { from ≤ to }
    requires within { to ≤ length bytes.now }
    ensures { result.now ≡ drop from (take to bytes.now) }
{
    let (front, _) = bytes.split_at(to);
    let (_, part) = front.split_at(from);
    part
}

/// The session of this number, from 0.
fn passed_at<'a>(ended: &'a Vec<Passed>, current: &'a Option<Passed>, number: usize) -> &'a Passed
    requires { number < length (ended.now.items ++ option_to_list current.now) }
    ensures { slice_get (ended.now.items ++ option_to_list current.now) number ≡ Some result.now }
{
    if number < ended.len() {
        return &ended[number];
    }
    current.as_ref().unwrap()
}

/// Reads at most so many bytes of one session.
fn read_front(passed: &mut Passed, buf: &mut [u8], most: usize) -> Got
    requires within { passed.old.at ≤ length passed.old.bytes }
    requires some { 1 ≤ most }
    requires room { most ≤ length buf.old }
    ensures answer { result ≡ answer_of (drop passed.old.at passed.old.bytes) most }
    ensures bytes { given result buf.new ≡ given result (drop passed.old.at passed.old.bytes) }
    ensures fits { FitsBuffer result (drop passed.old.at passed.old.bytes) }
    ensures count { FitsBuffer result buf.new }
    ensures moved { passed.new ≡ record passed.old { at = passed.old.at + length (given result (drop passed.old.at passed.old.bytes)) } }
    ensures within { passed.new.at ≤ length passed.new.bytes }
{
    let (_, left) = passed.bytes.as_slice().split_at(passed.at);
    if left.is_empty() {
        return Got::End;
    }
    let count = left.len().min(most);
    buf[..count].copy_from_slice(&left[..count]);
    passed.at += count;
    Got::Read(count)
}
