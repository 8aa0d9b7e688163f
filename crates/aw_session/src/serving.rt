//! Sessions one after the other.
ghost use Rattle.std.specs.Prelude.{◌≡◌, ◌⊎◌, ◌<◌, ◌≤◌, [], ◌∷◌, ◌++◌, length, vec_len, vec_capacity, IfOk, IfErr, OnOk, IsErrOf};
ghost use Rattle.aw_session.specs.Sessions.{IsServing, NoneComes, StopsServing, ServesNext, StopsNext};

use crate::handles::Handles;
use crate::log::{Log, SessionLog};
use crate::session::serve_session;
use aw_out::{Arrival, Wire};
use std::alloc::Global;

/// Why no further session was served.
#[derive(Debug, Drop)]
pub enum Stopped<X> {
    /// The next session could not be opened.
    NetFault,
    /// A frame got no reply, or there was no memory to note one more session.
    Node(X),
}

/// Notes a session, for which there is memory.
fn note(log: &mut Vec<SessionLog>, entry: SessionLog)
    requires { vec_len log.old < vec_capacity log.old }
    ensures { log.new.items ≡ log.old.items ++ entry ∷ [] }
{
    log.push(entry).unwrap();
}

/// Serves the next session and notes it, if one comes.
fn serve_next<W: Wire, H: Handles>(
    alloc: Global,
    node: &mut H,
    role: u16,
    log: &mut Vec<SessionLog>,
    wire: &mut W,
) -> Result<bool, Stopped<H::Fault>>
    requires ready { H.ready node.old }
    requires role { role < 64 }
    ensures ready { OnOk result (H.ready node.new) }
    ensures ok { IfOk result (ServesNext H.answers W.content W.faults W.failed_openings role node.old node.new wire.old wire.new log.old.items log.new.items) }
    ensures err { IfErr result (StopsNext H.answers H.breaks W.content W.failed_openings role node.old node.new wire.old wire.new) }
    ensures openings_kept { (IsErrOf result Stopped.NetFault → ⊥) → W.failed_openings wire.new ≡ W.failed_openings wire.old }
{
    if let Err(fault) = log.reserve(1) {
        return Err(Stopped::Node(H::Fault::from(fault)));
    }
    match wire.next_session(role) {
        Arrival::Session => match serve_session(alloc, node, wire) {
            Ok(entry) => {
                note(log, entry);
                Ok(true)
            }
            Err(fault) => Err(Stopped::Node(fault)),
        },
        Arrival::End => Ok(false),
        Arrival::Failed => Err(Stopped::NetFault),
    }
}

/// Serves so many sessions, or as many as come, and notes each.
fn serve_some<W: Wire, H: Handles>(
    alloc: Global,
    node: &mut H,
    role: u16,
    sessions: u32,
    log: &mut Vec<SessionLog>,
    wire: &mut W,
) -> Result<(), Stopped<H::Fault>>
    requires ready { H.ready node.old }
    requires role { role < 64 }
    requires none { log.old.items ≡ [] }
    ensures ready { OnOk result (H.ready node.new) }
    ensures ok { OnOk result (IsServing H.answers W.content W.faults W.failed_openings role node.old node.new wire.old wire.new log.new.items) }
    ensures most { OnOk result (length log.new.items ≤ sessions) }
    ensures all { OnOk result ((length log.new.items ≡ sessions) ⊎ NoneComes (W.content wire.new)) }
    ensures err { IfErr result (StopsServing H.answers H.breaks W.content W.failed_openings role node.old node.new wire.old wire.new) }
    ensures openings_kept { (IsErrOf result Stopped.NetFault → ⊥) → W.failed_openings wire.new ≡ W.failed_openings wire.old }
{
    while log.len() < sessions as usize {
        if !serve_next(alloc, node, role, log, wire)? {
            return Ok(());
        }
    }
    Ok(())
}

/// Serves so many sessions, or as many as come, and tells of each. The workspace stays as it is from one session to the next.
pub fn serve_sessions<W: Wire, H: Handles>(
    alloc: Global,
    node: &mut H,
    role: u16,
    sessions: u32,
    wire: &mut W,
) -> Result<Log, Stopped<H::Fault>>
    requires ready { H.ready node.old }
    requires role { role < 64 }
    ensures ready { OnOk result (H.ready node.new) }
    ensures ok { IfOk result (IsServing H.answers W.content W.faults W.failed_openings role node.old node.new wire.old wire.new) }
    ensures most { IfOk result (λ log. length log ≤ sessions) }
    ensures all { IfOk result (λ log. (length log ≡ sessions) ⊎ NoneComes (W.content wire.new)) }
    ensures err { IfErr result (StopsServing H.answers H.breaks W.content W.failed_openings role node.old node.new wire.old wire.new) }
    // A session that could not be opened is told; after any other answer each was opened.
    ensures openings_kept { (IsErrOf result Stopped.NetFault → ⊥) → W.failed_openings wire.new ≡ W.failed_openings wire.old }
{
    let mut log = Vec::new(alloc);
    serve_some(alloc, node, role, sessions, &mut log, wire)?;
    Ok(Log::from_vec(log))
}
