//! One session.
ghost use Rattle.std.specs.Prelude.{◌≡◌, ◌<◌, [], length, true, OnOk, OnErr};
ghost use Rattle.aw_out.specs.Edge.{FitsBuffer, given};
ghost use Rattle.aw_out.specs.Reads.{answer_of};
ghost use Rattle.aw_out.specs.Wires.{fresh, after_write, after_fault};
ghost use Rattle.aw_desk_wire.specs.Calls.{has_read};

use aw_list::Text;
use aw_out::Got;
use std::alloc::{AllocError, Global};
use std::marker::Model;

/// The role that was dialed, the bytes of all replies and how many of them were read, what was written, and whether a write failed.
#[derive(Drop)]
pub(crate) struct Call {
    role: u16,
    replies: Text,
    at: usize,
    written: Text,
    failed: bool,
}

impl Model for Call {
    ghost use Rattle.std.specs.Prelude.{◌≤◌, length, take, drop, true};
    ghost use Rattle.aw_out.specs.Wires.{Session};

    ghost Value = { Session };

    ghost view = { λ c. record { role = c.role; dialed = true; read = take c.at c.replies; left = drop c.at c.replies; written = c.written; failed = c.failed } };

    ghost invariant = { λ c. c.at ≤ length c.replies };
}

impl Call {
    /// A session of which nothing was read or written. It takes no memory.
    pub(crate) fn new(alloc: Global, role: u16) -> Call
        ensures { result ≡ fresh role true [] }
    {
        Call {
            role,
            replies: Text::new(alloc),
            at: 0,
            written: Text::new(alloc),
            failed: false,
        }
    }

    /// The role that was dialed.
    pub(crate) fn role(&self) -> u16
        ensures { result ≡ self.now.role }
    {
        self.role
    }

    /// Reads some of the bytes that are left.
    pub(crate) fn read(&mut self, buf: &mut [u8]) -> Got
        requires { 0 < length buf.old }
        ensures answer { result ≡ answer_of self.old.left (length buf.old) }
        ensures bytes { given result buf.new ≡ given result self.old.left }
        ensures count { FitsBuffer result buf.new }
        ensures after { self.new ≡ has_read result self.old }
    {
        let (_, left) = self.replies.as_slice().split_at(self.at);
        let answer = copy_front(left, buf);
        if let Got::Read(n) = answer {
            self.at += n;
        }
        answer
    }

    /// Notes what was written and what came in reply. An error changes nothing.
    pub(crate) fn write(&mut self, bytes: &[u8], replies: &[u8]) -> Result<(), AllocError>
        ensures ok { OnOk result (self.new ≡ after_write bytes.now replies.now self.old) }
        ensures err { OnErr result (self.new ≡ self.old) }
    {
        let before = self.written.len();
        self.written.push_bytes(bytes)?;
        match self.replies.push_bytes(replies) {
            Ok(()) => Ok(()),
            Err(failed) => {
                self.written.truncate(before);
                Err(failed)
            }
        }
    }

    /// Notes that a write failed.
    pub(crate) fn fail(&mut self)
        ensures { self.new ≡ after_fault self.old }
    {
        self.failed = true;
    }

    /// What was written.
    pub(crate) fn written(&self) -> &[u8]
        ensures { result.now ≡ self.now.written }
    {
        self.written.as_slice()
    }
}

/// Copies the front of what is left to the front of the buffer, as far as there is room.
fn copy_front(left: &[u8], buf: &mut [u8]) -> Got
    requires { 0 < length buf.old }
    ensures answer { result ≡ answer_of left.now (length buf.old) }
    ensures bytes { given result buf.new ≡ given result left.now }
    ensures fits { FitsBuffer result left.now }
    ensures count { FitsBuffer result buf.new }
{
    if left.is_empty() {
        return Got::End;
    }
    let count = left.len().min(buf.len());
    buf[..count].copy_from_slice(&left[..count]);
    Got::Read(count)
}
