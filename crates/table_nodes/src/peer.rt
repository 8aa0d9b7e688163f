//! The sockets of a node and of its peers.
use aw_list::Text;
use aw_net::NetWire;
use std::alloc::Global;
use std::io::{self, Read, Write};
use std::net::{Ipv4Addr, Net, OpenStream, Shutdown, SocketAddr, SocketAddrV4, TcpStream};
use std::rt::Clock;
use std::thread::sleep;
use std::time::Duration;

/// The node waits at the port of the last role, where few nodes are.
pub const PORT_ROLE: u16 = 63;

/// The port of that role.
const PORT: u16 = 7463;

/// How often it is tried to wait there, since another run may be at the port for a while.
const TRIES: u32 = 200;

/// The pause between two tries, in milliseconds.
const PAUSE: u64 = 100;

/// A wire that waits for peers.
pub fn listen<R: Net + Clock>(rt: &R) -> Option<NetWire<'_, R>> {
    for _ in 0..TRIES {
        let wire = NetWire::listen(rt, PORT_ROLE);
        if wire.is_some() {
            return wire;
        }
        sleep(rt, Duration::from_millis(PAUSE));
    }
    None
}

/// A peer that has written these bytes and ended its writing side.
pub fn ending_peer<R: Net>(net: &R, bytes: &[u8]) -> io::Result<R::Stream> {
    let address = SocketAddr::V4(SocketAddrV4::new(Ipv4Addr::LOCALHOST, PORT));
    let mut stream = TcpStream::connect(net, address)?;
    stream.write_all(bytes)?;
    stream.shutdown(Shutdown::Write)?;
    Ok(stream)
}

/// All that a peer reads.
pub fn replies_to<S: Read>(alloc: Global, peer: &mut S) -> io::Result<Text> {
    let mut replies = Vec::new(alloc);
    peer.read_to_end(&mut replies)?;
    Ok(Text::from_vec(replies))
}
