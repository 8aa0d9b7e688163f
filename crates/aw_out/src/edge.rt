//! What the program reads from and writes to, by what a contract can see of it.
//!
//! Each object counts its faults: where a call answers that it failed the count rose in the call, and
//! after any other answer it stands as before. An object in memory tells the bytes that are left or
//! were written; a real one does not. Where they are told, a call that failed moved none.
ghost use Rattle.std.specs.Prelude.{◌≡◌, ◌≢◌, ◌≤◌, ◌<◌, ◌↔◌, ℕ, List, Bool, true, length};
ghost use Rattle.std.specs.declared.option.Option.{Option};
ghost use Rattle.aw_out.specs.Causes.{Rose};
ghost use Rattle.aw_out.specs.Wires.{Content, Both, Arrives, Dials, ReadsInSession, WritesInSession};
ghost use Rattle.aw_out.specs.Edge.{IsUsedUp, FitsBuffer, FitsBytes, Gives, Gets, given, taken};

/// What a read answers.
#[derive(Clone, Copy, Debug, PartialEq, Eq)]
pub enum Got {
    /// So many bytes, at least one, stand at the front of the buffer.
    Read(usize),
    /// Nothing is left.
    End,
    Failed,
}

/// What a write answers.
#[derive(Clone, Copy, Debug, PartialEq, Eq)]
pub enum Put {
    /// So many bytes, at least one, were taken from the front.
    Took(usize),
    Failed,
}

/// Where bytes come from.
pub trait Source {
    /// The bytes that are left to read, where that is told.
    ghost left: { Self → Option (List ℕ) };

    /// How often a call has failed.
    ghost faults: { Self → ℕ };

    /// Reads some bytes into the buffer, which has room for at least one.
    fn read(&mut self, buf: &mut [u8]) -> Got
        requires { 0 < length buf.old }
        ensures count { FitsBuffer result buf.new }
        ensures bytes { Gives (left self.old) (left self.new) (given result buf.new) }
        ensures end { result ≡ Got.End → IsUsedUp (left self.old) }
        ensures never_falls { faults self.old ≤ faults self.new }
        ensures cause { result ≡ Got.Failed → Rose (faults self.old) (faults self.new) }
        ensures kept { result ≢ Got.Failed → faults self.new ≡ faults self.old };
}

/// Where bytes go.
pub trait Sink {
    /// The bytes that were written, where that is told.
    ghost written: { Self → Option (List ℕ) };

    /// How often a call has failed.
    ghost faults: { Self → ℕ };

    /// Writes a prefix of the bytes, of which there is at least one.
    fn write(&mut self, b: &[u8]) -> Put
        requires { 0 < length b.now }
        ensures count { FitsBytes result b.now }
        ensures bytes { Gets (written self.old) (written self.new) (taken result b.now) }
        ensures never_falls { faults self.old ≤ faults self.new }
        ensures cause { result ≡ Put.Failed → Rose (faults self.old) (faults self.new) }
        ensures kept { result ≢ Put.Failed → faults self.new ≡ faults self.old };
}

/// What waiting for the next session answers.
#[derive(Clone, Copy, Debug, PartialEq, Eq)]
pub enum Arrival {
    /// A session came, and is open.
    Session,
    /// No session comes any more.
    End,
    Failed,
}

/// What dialing answers.
#[derive(Clone, Copy, Debug, PartialEq, Eq)]
pub enum Dialed {
    Opened,
    Failed,
}

/// Sessions with peers, one at a time. A role is known by its number.
pub trait Wire {
    /// The sessions, and what is left and to come, where that is told.
    ghost content: { Self → Option Content };

    /// Whether a session is open.
    ghost is_open: { Self → Bool };

    /// How often a call has failed.
    ghost faults: { Self → ℕ };

    /// How often a call that opens a session has failed.
    ghost failed_openings: { Self → ℕ };

    /// Ends the session before, and waits for the next one that comes to this role.
    fn next_session(&mut self, role: u16) -> Arrival
        requires { role < 64 }
        ensures open { (is_open self.new ≡ true) ↔ (result ≡ Arrival.Session) }
        ensures content { Both (Arrives role result) (content self.old) (content self.new) }
        ensures never_falls { faults self.old ≤ faults self.new }
        ensures openings_never_fall { failed_openings self.old ≤ failed_openings self.new }
        ensures cause { result ≡ Arrival.Failed → Rose (faults self.old) (faults self.new) }
        ensures opening_cause { result ≡ Arrival.Failed → Rose (failed_openings self.old) (failed_openings self.new) }
        ensures kept { result ≢ Arrival.Failed → faults self.new ≡ faults self.old }
        ensures openings_kept { result ≢ Arrival.Failed → failed_openings self.new ≡ failed_openings self.old };

    /// Ends the session before, and opens one with this role.
    fn dial(&mut self, role: u16) -> Dialed
        requires { role < 64 }
        ensures open { (is_open self.new ≡ true) ↔ (result ≡ Dialed.Opened) }
        ensures content { Both (Dials role result) (content self.old) (content self.new) }
        ensures never_falls { faults self.old ≤ faults self.new }
        ensures openings_never_fall { failed_openings self.old ≤ failed_openings self.new }
        ensures cause { result ≡ Dialed.Failed → Rose (faults self.old) (faults self.new) }
        ensures opening_cause { result ≡ Dialed.Failed → Rose (failed_openings self.old) (failed_openings self.new) }
        ensures kept { result ≢ Dialed.Failed → faults self.new ≡ faults self.old }
        ensures openings_kept { result ≢ Dialed.Failed → failed_openings self.new ≡ failed_openings self.old };

    /// Reads some bytes of the open session into the buffer, which has room for at least one.
    fn read(&mut self, buf: &mut [u8]) -> Got
        requires room { 0 < length buf.old }
        requires open { is_open self.old ≡ true }
        ensures open { is_open self.new ≡ true }
        ensures count { FitsBuffer result buf.new }
        ensures content { Both (ReadsInSession result buf.new) (content self.old) (content self.new) }
        ensures never_falls { faults self.old ≤ faults self.new }
        ensures same_openings { failed_openings self.new ≡ failed_openings self.old }
        ensures cause { result ≡ Got.Failed → Rose (faults self.old) (faults self.new) }
        ensures kept { result ≢ Got.Failed → faults self.new ≡ faults self.old };

    /// Writes a prefix of the bytes, of which there is at least one, in the open session.
    fn write(&mut self, b: &[u8]) -> Put
        requires some { 0 < length b.now }
        requires open { is_open self.old ≡ true }
        ensures open { is_open self.new ≡ true }
        ensures count { FitsBytes result b.now }
        ensures content { Both (WritesInSession result b.now) (content self.old) (content self.new) }
        ensures never_falls { faults self.old ≤ faults self.new }
        ensures same_openings { failed_openings self.new ≡ failed_openings self.old }
        ensures cause { result ≡ Put.Failed → Rose (faults self.old) (faults self.new) }
        ensures kept { result ≢ Put.Failed → faults self.new ≡ faults self.old };
}
