//! Sessions of a node over sockets, asked and served in turn.
ghost use Rattle.std.specs.Prelude.{◌≡◌, true};
ghost use Rattle.aw_grammar.specs.GrammarOf.{grammar_of};
ghost use Rattle.aw_typed.specs.Typing.{IsMadeFor};

use crate::entry::Entry;
use crate::peer::{PORT_ROLE, ending_peer, listen, replies_to};
use crate::whole::{read_whole, write_whole};
use aw_accept::Accepted;
use aw_cells::CellFacts;
use aw_list::Text;
use aw_net::NetWire;
use aw_node::{ServeFault, serve_workspace};
use aw_out::{Dialed, Texts, Wire};
use aw_session::Log;
use aw_site::Site;
use aw_typed::Typed;
use std::alloc::{AllocError, AllocFailed, Global};
use std::io::{self, ErrorKind, Read};
use std::net::Net;
use std::rt::Clock;

/// The role of the node: the second one of the specification.
const ROLE: u16 = 1;

/// What the peers read, and what is told of the sessions.
#[derive(Drop)]
pub struct Served {
    pub replies: Texts,
    pub log: Log,
}

/// Why sessions are not told.
#[derive(Clone, Copy)]
pub enum ServedFault {
    /// A call of a peer failed.
    Peer,
    /// The node could not open a session.
    Net,
    NoMemory,
}

impl From<AllocError> for ServedFault {
    fn from(_failed: AllocError) -> ServedFault {
        ServedFault::NoMemory
    }
}

impl<T: Drop> From<AllocFailed<T>> for ServedFault {
    fn from(_failed: AllocFailed<T>) -> ServedFault {
        ServedFault::NoMemory
    }
}

impl From<ServeFault> for ServedFault {
    fn from(fault: ServeFault) -> ServedFault {
        match fault {
            ServeFault::NetFault => ServedFault::Net,
            ServeFault::NoMemory => ServedFault::NoMemory,
        }
    }
}

impl From<io::Error> for ServedFault {
    fn from(error: io::Error) -> ServedFault {
        match error.kind() {
            ErrorKind::OutOfMemory => ServedFault::NoMemory,
            _ => ServedFault::Peer,
        }
    }
}

/// Serves a node that holds nothing at first. It stands apart, over any wire, since what `serve_workspace` promises of sockets takes long
/// to prove and is asked for by nobody here.
fn serve_over<W: Wire>(
    alloc: Global,
    g: &Accepted,
    t: &Typed,
    sessions: u32,
    wire: &mut W,
) -> Result<Log, ServeFault>
    requires { IsMadeFor (grammar_of g.now.grammar) t.now }
{
    let site = Site::new(alloc, g, ROLE, CellFacts::new(alloc), true);
    serve_workspace(alloc, g, t, site, PORT_ROLE, sessions, wire)
}

/// Serves a node that holds nothing at first, and then closes its sockets, so that each peer comes to the end of what it reads.
fn serve_node<R: Net>(
    alloc: Global,
    g: &Accepted,
    t: &Typed,
    sessions: u32,
    mut wire: NetWire<'_, R>,
) -> Result<Log, ServeFault>
    requires { IsMadeFor (grammar_of g.now.grammar) t.now }
{
    serve_over(alloc, g, t, sessions, &mut wire)
}

/// Peers that have written the bytes of their sessions and ended their writing sides.
fn ending_peers<R: Net>(
    alloc: Global,
    net: &R,
    sessions: &Texts,
) -> Result<Vec<R::Stream>, ServedFault> {
    let mut peers = Vec::new(alloc);
    for bytes in sessions.as_slice() {
        peers.push(ending_peer(net, bytes.as_slice())?)?;
    }
    Ok(peers)
}

/// All that each peer reads.
fn replies_of<S: Read>(alloc: Global, peers: &mut [S]) -> Result<Texts, ServedFault> {
    let mut replies = Vec::new(alloc);
    for peer in peers.iter_mut() {
        replies.push(replies_to(alloc, peer)?)?;
    }
    Ok(Texts::from_vec(replies))
}

/// Serves peers that have asked, and takes what each of them reads then.
fn serve_peers<R: Net, S: Read>(
    alloc: Global,
    g: &Accepted,
    t: &Typed,
    wire: NetWire<'_, R>,
    peers: &mut [S],
) -> Result<Served, ServedFault>
    requires { IsMadeFor (grammar_of g.now.grammar) t.now }
{
    let count = u32::try_from(peers.len()).unwrap_or(u32::MAX);
    let log = serve_node(alloc, g, t, count, wire)?;
    match replies_of(alloc, peers) {
        Ok(replies) => Ok(Served { replies, log }),
        Err(fault) => Err(fault),
    }
}

/// Peers that end their writing sides.
fn serve_ending<R: Net + Clock>(
    alloc: Global,
    rt: &R,
    g: &Accepted,
    t: &Typed,
    sessions: &Texts,
) -> Result<Served, ServedFault>
    requires { IsMadeFor (grammar_of g.now.grammar) t.now }
{
    let Some(wire) = listen(rt) else {
        return Err(ServedFault::Net);
    };
    let mut peers = ending_peers(alloc, rt, sessions)?;
    serve_peers(alloc, g, t, wire, peers.as_mut_slice())
}

/// Whether a peer comes to the node and writes these bytes.
fn has_asked<W: Wire>(peer: &mut W, bytes: &[u8]) -> bool
    ensures { result ≡ true → W.is_open peer.new ≡ true }
{
    match peer.dial(PORT_ROLE) {
        Dialed::Opened => write_whole(peer, bytes),
        Dialed::Failed => false,
    }
}

/// What a peer reads, as the only one.
fn read_alone<W: Wire>(alloc: Global, peer: &mut W) -> Result<Texts, ServedFault>
    requires { W.is_open peer.old ≡ true }
{
    let Some(read) = read_whole(alloc, peer)? else {
        return Err(ServedFault::Peer);
    };
    let mut replies = Texts::new(alloc);
    replies.push(read)?;
    Ok(replies)
}

/// Serves a peer that has asked and waits for the node to end the session, and takes what it reads then.
fn serve_asked<R: Net, W: Wire>(
    alloc: Global,
    g: &Accepted,
    t: &Typed,
    wire: NetWire<'_, R>,
    peer: &mut W,
) -> Result<Served, ServedFault>
    requires types { IsMadeFor (grammar_of g.now.grammar) t.now }
    requires open { W.is_open peer.old ≡ true }
{
    let log = serve_node(alloc, g, t, 1, wire)?;
    match read_alone(alloc, peer) {
        Ok(replies) => Ok(Served { replies, log }),
        Err(fault) => Err(fault),
    }
}

/// One peer that waits for the node to end the session.
fn serve_staying<R: Net + Clock>(
    alloc: Global,
    rt: &R,
    g: &Accepted,
    t: &Typed,
    bytes: &Text,
) -> Result<Served, ServedFault>
    requires { IsMadeFor (grammar_of g.now.grammar) t.now }
{
    let Some(wire) = listen(rt) else {
        return Err(ServedFault::Net);
    };
    let mut peer = NetWire::new(rt);
    if has_asked(&mut peer, bytes.as_slice()) {
        return serve_asked(alloc, g, t, wire, &mut peer);
    }
    Err(ServedFault::Peer)
}

/// The sessions of an entry, at a node that holds nothing at first.
pub fn serve_entry<R: Net + Clock>(
    alloc: Global,
    rt: &R,
    g: &Accepted,
    t: &Typed,
    entry: &Entry,
) -> Result<Served, ServedFault>
    requires { IsMadeFor (grammar_of g.now.grammar) t.now }
{
    match entry {
        Entry::Ending(sessions) => serve_ending(alloc, rt, g, t, sessions),
        Entry::Staying(bytes) => serve_staying(alloc, rt, g, t, bytes),
    }
}
