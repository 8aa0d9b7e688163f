//! The trusted edge of sockets, whose bytes no contract sees.
ghost use Rattle.std.specs.Prelude.{◌≡◌, ◌<◌, None, IfSome, is_some};
ghost use Rattle.std.specs.Io.{ReadsAtMost, WritesAtMost};

use aw_out::{Arrival, Dialed, Got, Put, Wire};
use std::io;
use std::io::{ErrorKind, Read, Write};
use std::net::{
    Ipv4Addr, Net, OpenListener, OpenStream, SocketAddr, SocketAddrV4, TcpListener, TcpStream,
};
use std::time::Duration;

/// The port of the first role. Each role has its own, by its number.
const FIRST_PORT: u16 = 7400;

/// How long a session of a node waits for its peer to send a byte, in seconds. Others wait behind it.
const SILENT_PEER: u64 = 60;

/// How long a write waits for a peer of a node, in seconds. The system has room for millions of bytes before one waits, and lets a peer that reads
/// nothing take a few bytes again and again, each of which begins the time anew.
const UNREAD_REPLIES: u64 = 20;

/// How long either waits where this program dialed, in seconds: a node may be busy with those before.
const BUSY_NODE: u64 = 600;

/// How often a call is made again that a signal broke off: for ever, as far as anybody lives to see it.
const TRIES: u64 = u64::MAX;

/// The address of a role on this machine.
fn address(role: u16) -> SocketAddr
    requires { role < 64 }
{
    SocketAddr::V4(SocketAddrV4::new(Ipv4Addr::LOCALHOST, FIRST_PORT + role))
}

/// A socket that waits for the peers of one role.
#[derive(Drop)]
struct Bound<L> {
    role: u16,
    listener: L,
}

/// Sessions over this machine's network: the node of a role waits at port 7400 and its number. What the system refuses counts as a fault of the
/// session, or of opening one; so does a peer that is silent for too long.
#[derive(Drop)]
pub struct NetWire<'a, R: Net> {
    net: &'a R,
    bound: Option<Bound<R::Listener>>,
    stream: Option<R::Stream>,
    faults: u64,
    failed_openings: u64,
}

impl<'a, R: Net> NetWire<'a, R> {
    /// A wire of which no call has failed. It takes no memory, and waits at no port before it is asked to.
    pub fn new(net: &'a R) -> NetWire<'a, R>
        ensures faults { ⟦<NetWire<'a, R> as Wire>⟧.faults result ≡ 0 }
        ensures failed_openings { ⟦<NetWire<'a, R> as Wire>⟧.failed_openings result ≡ 0 }
    {
        NetWire {
            net,
            bound: None,
            stream: None,
            faults: 0,
            failed_openings: 0,
        }
    }

    /// The same, which waits for the peers of this role from now on; `None` where the system refuses that.
    pub fn listen(net: &'a R, role: u16) -> Option<NetWire<'a, R>>
        requires { role < 64 }
        ensures faults { IfSome result (λ wire. ⟦<NetWire<'a, R> as Wire>⟧.faults wire ≡ 0) }
        ensures failed_openings { IfSome result (λ wire. ⟦<NetWire<'a, R> as Wire>⟧.failed_openings wire ≡ 0) }
    {
        let mut wire = NetWire::new(net);
        wire.bound = Some(bind(net, role)?);
        Some(wire)
    }
}

/// A socket at this role's port. A program that is started without one of its standard streams is given that stream's number for the first socket
/// that it makes, and would write its answers into it; a clone's number is past theirs.
fn bind_above<R: Net>(net: &R, role: u16) -> io::Result<R::Listener>
    requires { role < 64 }
{
    TcpListener::bind(net, address(role))?.try_clone()
}

/// A socket that waits for the peers of this role.
fn bind<R: Net>(net: &R, role: u16) -> Option<Bound<R::Listener>>
    requires { role < 64 }
{
    match bind_above(net, role) {
        Ok(listener) => Some(Bound { role, listener }),
        Err(_) => None,
    }
}

/// The next peer of this role. Small replies go out at once.
fn accept<R: Net>(net: &R, bound: &mut Option<Bound<R::Listener>>, role: u16) -> Option<R::Stream>
    requires { role < 64 }
{
    if !bound.as_ref().is_some_and(|b| b.role == role) {
        *bound = None;
        *bound = Some(bind(net, role)?);
    }
    match bound.as_ref()?.listener.accept() {
        Ok((stream, _)) => prepared(&stream, SILENT_PEER, UNREAD_REPLIES).ok(),
        Err(_) => None,
    }
}

/// A session with this role's node.
fn dialed<R: Net>(net: &R, role: u16) -> Option<R::Stream>
    requires { role < 64 }
{
    match TcpStream::connect(net, address(role)) {
        Ok(stream) => prepared(&stream, BUSY_NODE, BUSY_NODE).ok(),
        Err(_) => None,
    }
}

/// The stream by a number past those of the standard streams. Its reads and its writes wait so many seconds for the peer, and small pieces are sent at
/// once where the system lets it.
fn prepared<S: OpenStream + Drop>(stream: &S, reads: u64, writes: u64) -> io::Result<S> {
    let stream = stream.try_clone()?;
    stream.set_read_timeout(Some(Duration::from_secs(reads)))?;
    stream.set_write_timeout(Some(Duration::from_secs(writes)))?;
    match stream.set_nodelay(true) {
        Ok(()) | Err(_) => Ok(stream),
    }
}

/// One read, made again where a signal broke it off.
fn read_some<S: Read>(stream: &mut S, buf: &mut [u8]) -> io::Result<usize>
    ensures { ReadsAtMost result buf.new }
{
    for _ in 0..TRIES {
        match stream.read(buf) {
            Err(error) if error.kind() == ErrorKind::Interrupted => {}
            answer => return answer,
        }
    }
    Err(io::Error::from(ErrorKind::Interrupted))
}

/// One write, made again where a signal broke it off.
fn write_some<S: Write>(stream: &mut S, b: &[u8]) -> io::Result<usize>
    ensures { WritesAtMost result b.now }
{
    for _ in 0..TRIES {
        match stream.write(b) {
            Err(error) if error.kind() == ErrorKind::Interrupted => {}
            answer => return answer,
        }
    }
    Err(io::Error::from(ErrorKind::Interrupted))
}

impl<R: Net> Wire for NetWire<'_, R> {
    ghost content = { λ _. None };

    ghost is_open = { λ w. is_some w.stream };

    ghost faults = { λ w. w.faults };

    ghost failed_openings = { λ w. w.failed_openings };

    fn next_session(&mut self, role: u16) -> Arrival {
        self.stream = None;
        self.stream = accept(self.net, &mut self.bound, role);
        if self.stream.is_some() {
            return Arrival::Session;
        }
        self.faults = self.faults.saturating_add(1);
        self.failed_openings = self.failed_openings.saturating_add(1);
        Arrival::Failed
    }

    fn dial(&mut self, role: u16) -> Dialed {
        self.stream = None;
        self.stream = dialed(self.net, role);
        if self.stream.is_some() {
            return Dialed::Opened;
        }
        self.faults = self.faults.saturating_add(1);
        self.failed_openings = self.failed_openings.saturating_add(1);
        Dialed::Failed
    }

    fn read(&mut self, buf: &mut [u8]) -> Got {
        match read_some(self.stream.as_mut().unwrap(), buf) {
            Ok(0) => Got::End,
            Ok(n) => Got::Read(n),
            Err(_) => {
                self.faults = self.faults.saturating_add(1);
                Got::Failed
            }
        }
    }

    fn write(&mut self, b: &[u8]) -> Put {
        match write_some(self.stream.as_mut().unwrap(), b) {
            Ok(0) | Err(_) => {
                self.faults = self.faults.saturating_add(1);
                Put::Failed
            }
            Ok(n) => Put::Took(n),
        }
    }
}
