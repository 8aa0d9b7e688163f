//! Objects that never fail.
ghost use Rattle.std.specs.Prelude.{◌≡◌, ◌≤◌, ◌<◌, ◌↔◌, Some, None, length, true, is_some, IfSome};
ghost use Rattle.aw_out.specs.Edge.{FitsBuffer, FitsBytes, Gives, given};
ghost use Rattle.aw_out.specs.Reads.{answer_of, left_after};
ghost use Rattle.aw_out.specs.Sure.{arrival_of, after_arrival, after_dial};

use crate::edge::{Arrival, Dialed, Got, Put, Sink, Source, Wire};
use crate::memory::read_front;
use aw_list::{Items, Text};
use std::marker::Model;

/// Some texts, in order.
pub type Texts = Items<Text>;

/// A source of bytes in memory that never fails.
#[derive(Drop)]
pub struct SureSource {
    bytes: Text,
    at: usize,
}

impl Model for SureSource {
    ghost use Rattle.std.specs.Prelude.{◌≤◌, length, drop, List, ℕ};

    ghost Value = { List ℕ };

    ghost view = { λ s. drop s.at s.bytes };

    ghost invariant = { λ s. s.at ≤ length s.bytes };
}

impl SureSource {
    /// A source of these bytes. It takes no memory.
    pub fn new(bytes: Text) -> SureSource
        ensures { result ≡ bytes }
    {
        SureSource { bytes, at: 0 }
    }
}

impl Source for SureSource {
    ghost left = { λ s. Some s };

    ghost faults = { λ _. 0 };

    fn read(&mut self, buf: &mut [u8]) -> Got
        requires { 0 < length buf.old }
        ensures answer { result ≡ answer_of self.old (length buf.old) }
        ensures after { self.new ≡ left_after result self.old }
        ensures bytes { Gives (Some self.old) (Some self.new) (given result buf.new) }
        ensures count { FitsBuffer result buf.new }
    {
        let (_, left) = self.bytes.as_slice().split_at(self.at);
        let most = buf.len();
        let answer = read_front(left, buf, most);
        if let Got::Read(n) = answer {
            self.at += n;
        }
        answer
    }
}

/// A sink that takes all, keeps nothing and never fails.
#[derive(Clone, Copy, Debug)]
pub struct SureSink;

impl SureSink {
    /// A sink that has taken nothing. It takes no memory.
    pub fn new() -> SureSink
        ensures { ⟦<SureSink as Sink>⟧.faults result ≡ 0 }
    {
        SureSink
    }
}

impl Sink for SureSink {
    ghost written = { λ _. None };

    ghost faults = { λ _. 0 };

    fn write(&mut self, b: &[u8]) -> Put
        requires { 0 < length b.now }
        ensures answer { result ≡ Put.Took (length b.now) }
        ensures count { FitsBytes result b.now }
    {
        Put::Took(b.len())
    }
}

/// A wire that never fails. Its sessions come in order, and then no more. One that is dialed is the
/// next of them, or after the last one a session with nothing to read. What is written is not kept.
#[derive(Drop)]
pub struct SureWire {
    // The sessions that are still to come, the next one last.
    coming: Texts,
    current: Option<SureSource>,
}

impl Model for SureWire {
    ghost use Rattle.std.specs.Prelude.{reverse};
    ghost use Rattle.aw_out.specs.Sure.{Sessions};

    ghost Value = { Sessions };

    ghost view = { λ w. record { current = w.current; coming = reverse w.coming } };
}

impl SureWire {
    /// A wire to which these sessions come. It takes no memory.
    pub fn new(sessions: Texts) -> SureWire
        ensures { result ≡ record { current = None; coming = sessions } }
    {
        let mut coming = sessions.into_vec();
        coming.reverse();
        SureWire {
            coming: Items::from_vec(coming),
            current: None,
        }
    }
}

impl Wire for SureWire {
    ghost content = { λ _. None };

    ghost is_open = { λ w. is_some w.current };

    ghost faults = { λ _. 0 };

    ghost failed_openings = { λ _. 0 };

    fn next_session(&mut self, _role: u16) -> Arrival
        requires { _role < 64 }
        ensures answer { result ≡ arrival_of self.old.coming }
        ensures after { self.new ≡ after_arrival self.old.coming }
        ensures open { (is_some self.new.current ≡ true) ↔ (result ≡ Arrival.Session) }
    {
        self.current = self.coming.pop().map(SureSource::new);
        match self.current {
            Some(_) => Arrival::Session,
            None => Arrival::End,
        }
    }

    fn dial(&mut self, _role: u16) -> Dialed
        requires { _role < 64 }
        ensures answer { result ≡ Dialed.Opened }
        ensures after { self.new ≡ after_dial self.old.coming }
        ensures open { is_some self.new.current ≡ true }
    {
        let session = match self.coming.pop() {
            Some(session) => session,
            None => Text::new(self.coming.allocator()),
        };
        self.current = Some(SureSource::new(session));
        Dialed::Opened
    }

    fn read(&mut self, buf: &mut [u8]) -> Got
        requires room { 0 < length buf.old }
        requires open { is_some self.old.current ≡ true }
        ensures answer { IfSome self.old.current (λ left. result ≡ answer_of left (length buf.old)) }
        ensures after { IfSome self.old.current (λ left. self.new ≡ record self.old { current = Some (left_after result left) }) }
        ensures bytes { Gives self.old.current self.new.current (given result buf.new) }
        ensures open { is_some self.new.current ≡ true }
        ensures count { FitsBuffer result buf.new }
    {
        self.current.as_mut().unwrap().read(buf)
    }

    fn write(&mut self, b: &[u8]) -> Put
        requires room { 0 < length b.now }
        requires open { is_some self.old.current ≡ true }
        ensures answer { result ≡ Put.Took (length b.now) }
        ensures after { self.new ≡ self.old }
        ensures open { is_some self.new.current ≡ true }
        ensures count { FitsBytes result b.now }
    {
        Put::Took(b.len())
    }
}
