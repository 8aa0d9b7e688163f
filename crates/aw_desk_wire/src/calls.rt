//! All sessions of a wire.
ghost use Rattle.std.specs.Prelude.{◌≡◌, ◌<◌, ◌++◌, ◌∷◌, [], true, is_some, length, slice_get, option_to_list, vec_len, vec_capacity, Some, OnOk, OnErr};
ghost use Rattle.aw_out.specs.Edge.{FitsBuffer, given};
ghost use Rattle.aw_out.specs.Reads.{answer_of};
ghost use Rattle.aw_out.specs.Wires.{after_write, after_fault};
ghost use Rattle.aw_desk_wire.specs.Calls.{no_calls, passed_in, left_in, role_in, closed, opened, changed, has_read, written_in};

use crate::call::Call;
use aw_out::Got;
use std::alloc::{AllocError, Global};
use std::marker::Model;

/// The sessions that are over, the last one, and whether it is open.
#[derive(Drop)]
pub(crate) struct Calls {
    alloc: Global,
    over: Vec<Call>,
    last: Option<Call>,
    is_open: bool,
}

impl Model for Calls {
    ghost use Rattle.std.specs.Prelude.{◌≡◌, true, is_some};
    ghost use Rattle.aw_desk_wire.specs.Calls as plain;

    ghost Value = { plain.Calls };

    ghost view = { λ c. record { over = c.over.items; last = c.last; is_open = c.is_open } };

    ghost invariant = { λ c. c.is_open ≡ true → is_some c.last ≡ true };
}

impl Calls {
    /// No session yet. It takes no memory.
    pub(crate) fn new(alloc: Global) -> Calls
        ensures { result ≡ no_calls }
    {
        Calls {
            alloc,
            over: Vec::new(alloc),
            last: None,
            is_open: false,
        }
    }

    /// Ends the open session, if one is open.
    pub(crate) fn close(&mut self)
        ensures { self.new ≡ closed self.old }
    {
        self.is_open = false;
    }

    /// Ends the open session, and opens one with this role where there is memory for it.
    pub(crate) fn open(&mut self, role: u16) -> Result<(), AllocError>
        ensures ok { OnOk result (self.new ≡ opened role self.old) }
        ensures err { OnErr result (self.new ≡ closed self.old) }
    {
        self.is_open = false;
        self.over.reserve(1)?;
        if let Some(call) = self.last.take() {
            keep(&mut self.over, call);
        }
        self.last = Some(Call::new(self.alloc, role));
        self.is_open = true;
        Ok(())
    }

    /// The role of the open session.
    pub(crate) fn role(&self) -> u16
        requires { self.now.is_open ≡ true }
        ensures role { result ≡ role_in self.now.last }
        ensures some { is_some self.now.last ≡ true }
    {
        self.last.as_ref().unwrap().role()
    }

    /// Reads some of the bytes that are left in the open session.
    pub(crate) fn read(&mut self, buf: &mut [u8]) -> Got
        requires open { self.old.is_open ≡ true }
        requires some { 0 < length buf.old }
        ensures answer { result ≡ answer_of (left_in self.old.last) (length buf.old) }
        ensures bytes { given result buf.new ≡ given result (left_in self.old.last) }
        ensures count { FitsBuffer result buf.new }
        ensures after { self.new ≡ changed (has_read result) self.old }
        ensures some { is_some self.old.last ≡ true }
    {
        self.last.as_mut().unwrap().read(buf)
    }

    /// Notes what was written in the open session and what came in reply. An error changes nothing.
    pub(crate) fn write(&mut self, bytes: &[u8], replies: &[u8]) -> Result<(), AllocError>
        requires { self.old.is_open ≡ true }
        ensures ok { OnOk result (self.new ≡ changed (after_write bytes.now replies.now) self.old) }
        ensures err { OnErr result (self.new ≡ self.old) }
        ensures some { is_some self.old.last ≡ true }
    {
        self.last.as_mut().unwrap().write(bytes, replies)
    }

    /// Notes that a write failed in the open session.
    pub(crate) fn fail(&mut self)
        requires { self.old.is_open ≡ true }
        ensures after { self.new ≡ changed after_fault self.old }
        ensures some { is_some self.old.last ≡ true }
    {
        self.last.as_mut().unwrap().fail();
    }

    /// How many sessions there were, the open one among them.
    pub(crate) fn passed(&self) -> usize
        ensures { result ≡ length (passed_in self.now) }
    {
        match self.last {
            Some(_) => self.over.len() + 1,
            None => self.over.len(),
        }
    }

    /// What was written in the session of this number, from 0.
    pub(crate) fn written(&self, number: usize) -> &[u8]
        requires { number < length (passed_in self.now) }
        ensures { written_in (passed_in self.now) number ≡ Some result.now }
    {
        call_at(&self.over, &self.last, number).written()
    }
}

/// Keeps a session for which there is memory.
fn keep(over: &mut Vec<Call>, call: Call)
    requires { vec_len over.old < vec_capacity over.old }
    ensures { over.new.items ≡ over.old.items ++ call ∷ [] }
{
    over.push(call).unwrap();
}

/// The session of this number, from 0.
fn call_at<'a>(over: &'a Vec<Call>, last: &'a Option<Call>, number: usize) -> &'a Call
    requires { number < length (over.now.items ++ option_to_list last.now) }
    ensures { slice_get (over.now.items ++ option_to_list last.now) number ≡ Some result.now }
{
    if number < over.len() {
        return &over[number];
    }
    last.as_ref().unwrap()
}
