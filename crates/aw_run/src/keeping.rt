//! The command that serves the workspace of a role over a wire and keeps it on a disk.
ghost use Rattle.std.specs.Prelude.{◌≡◌, ◌≢◌, ◌≤◌, ◌<◌, [], IfOk, IfErr, length};
ghost use Rattle.aw_grammar.specs.GrammarOf.{grammar_of};
ghost use Rattle.aw_typed.specs.Typing.{IsMadeFor};
ghost use Rattle.aw_out.specs.Causes.{Rose};
ghost use Rattle.aw_out.specs.Edge.{IsUsedUp, GivesSome};
ghost use Rattle.aw_run.specs.Devices.{around};
ghost use Rattle.aw_run.specs.Keeping.{IsKeepingOutputOf, KeepsNamed, KeepsRole, StopsKeeping, StopsNamed, StopsRole};
ghost use Rattle.aw_run.specs.OfInputs.{RepliesTo, StopsBy, StopsFor};
ghost use Rattle.aw_run.specs.Opening.{ForWritten};
ghost use Rattle.aw_front.specs.Replies.{Replies};
ghost use Rattle.aw_run.specs.Statuses.{IsReply, IsSilent, IsPastReading, IsRefusal, status_of_stop};

use crate::reply::Stop;
use crate::sessions::session_lines;
use crate::source::unread;
use aw_accept::Accepted;
use aw_disk::Disk;
use aw_front::{Front, INPUT_LIMIT, Reply, Status, front_of_input};
use aw_kept_node::serve_kept;
use aw_out::{Source, Wire, read_all};
use aw_typed::Typed;
use std::alloc::Global;

/// Serves a role that is kept, and tells its sessions.
fn keep_role<W: Wire, D: Disk>(
    alloc: Global,
    accepted: &Accepted,
    typed: &Typed,
    text: &[u8],
    role: u16,
    sessions: u32,
    wire: &mut W,
    disk: &mut D,
) -> Result<Reply, Stop>
    requires role { role < (grammar_of accepted.now.grammar).roles }
    requires made { IsMadeFor (grammar_of accepted.now.grammar) typed.now }
    ensures reply { IfOk result (λ reply. ForWritten accepted.now.grammar typed.now.types text.now (λ s.
        Replies (KeepsRole s role sessions (around ⟦<W as Wire>⟧ ⟦<D as Disk>⟧ wire.old wire.new disk.old disk.new)) reply)) }
    ensures done { IfOk result (λ reply. reply.status ≡ Status.Done) }
    ensures stopped { IfErr result (λ stop. ForWritten accepted.now.grammar typed.now.types text.now (λ s.
        StopsBy (StopsRole s role sessions (around ⟦<W as Wire>⟧ ⟦<D as Disk>⟧ wire.old wire.new disk.old disk.new)) stop)) }
    ensures net_cause { result ≡ Err Stop.NetFault → Rose (W.failed_openings wire.old) (W.failed_openings wire.new) }
    ensures net_kept { result ≢ Err Stop.NetFault → W.failed_openings wire.new ≡ W.failed_openings wire.old }
    ensures disk_cause { result ≡ Err Stop.DiskFault → Rose (D.faults disk.old) (D.faults disk.new) }
    ensures disk_kept { result ≢ Err Stop.DiskFault → D.faults disk.new ≡ D.faults disk.old }
    ensures no_read_fault { result ≢ Err Stop.ReadFault }
{
    match serve_kept(alloc, accepted, typed, role, sessions, text, wire, disk) {
        Ok(log) => Ok(Reply {
            status: Status::Done,
            text: session_lines(alloc, log.as_slice())?,
        }),
        Err(fault) => Err(Stop::from(fault)),
    }
}

/// Serves the role of the name that was asked for and keeps it, where one is declared.
fn keep_named<W: Wire, D: Disk>(
    alloc: Global,
    accepted: &Accepted,
    typed: &Typed,
    text: &[u8],
    name: &[u8],
    sessions: u32,
    wire: &mut W,
    disk: &mut D,
) -> Result<Reply, Stop>
    requires made { IsMadeFor (grammar_of accepted.now.grammar) typed.now }
    ensures reply { IfOk result (λ reply. ForWritten accepted.now.grammar typed.now.types text.now (λ s.
        Replies (KeepsNamed name.now sessions (around ⟦<W as Wire>⟧ ⟦<D as Disk>⟧ wire.old wire.new disk.old disk.new) s) reply)) }
    ensures refused { IfOk result (λ reply. IsRefusal reply.status → (wire.new ≡ wire.old) × (disk.new ≡ disk.old)) }
    ensures stopped { IfErr result (λ stop. ForWritten accepted.now.grammar typed.now.types text.now (λ s.
        StopsBy (StopsNamed name.now sessions (around ⟦<W as Wire>⟧ ⟦<D as Disk>⟧ wire.old wire.new disk.old disk.new) s) stop)) }
    ensures net_cause { result ≡ Err Stop.NetFault → Rose (W.failed_openings wire.old) (W.failed_openings wire.new) }
    ensures net_kept { result ≢ Err Stop.NetFault → W.failed_openings wire.new ≡ W.failed_openings wire.old }
    ensures disk_cause { result ≡ Err Stop.DiskFault → Rose (D.faults disk.old) (D.faults disk.new) }
    ensures disk_kept { result ≢ Err Stop.DiskFault → D.faults disk.new ≡ D.faults disk.old }
    ensures no_read_fault { result ≢ Err Stop.ReadFault }
{
    match accepted.grammar().role_named(name) {
        Some(role) => keep_role(alloc, accepted, typed, text, role, sessions, wire, disk),
        None => Ok(Reply::line(alloc, Status::Usage, b"usage\n")?),
    }
}

/// Serves a role of an input that is within its limit, and keeps it.
fn keep_input<W: Wire, D: Disk>(
    alloc: Global,
    input: &[u8],
    name: &[u8],
    sessions: u32,
    wire: &mut W,
    disk: &mut D,
) -> Result<Reply, Stop>
    requires within { length input.now ≤ INPUT_LIMIT }
    ensures reply { IfOk result (Replies (IsKeepingOutputOf name.now sessions (around ⟦<W as Wire>⟧ ⟦<D as Disk>⟧ wire.old wire.new disk.old disk.new) input.now)) }
    ensures refused { IfOk result (λ reply. IsRefusal reply.status → (wire.new ≡ wire.old) × (disk.new ≡ disk.old)) }
    ensures stopped { IfErr result (StopsBy (StopsKeeping name.now sessions (around ⟦<W as Wire>⟧ ⟦<D as Disk>⟧ wire.old wire.new disk.old disk.new) input.now)) }
    ensures net_cause { result ≡ Err Stop.NetFault → Rose (W.failed_openings wire.old) (W.failed_openings wire.new) }
    ensures net_kept { result ≢ Err Stop.NetFault → W.failed_openings wire.new ≡ W.failed_openings wire.old }
    ensures disk_cause { result ≡ Err Stop.DiskFault → Rose (D.faults disk.old) (D.faults disk.new) }
    ensures disk_kept { result ≢ Err Stop.DiskFault → D.faults disk.new ≡ D.faults disk.old }
    ensures no_read_fault { result ≢ Err Stop.ReadFault }
{
    match front_of_input(alloc, input, true)? {
        Front::Ready(opened) => {
            let (accepted, typed) = (&opened.accepted, &opened.typed);
            let came = keep_named(
                alloc,
                accepted,
                typed,
                opened.text.as_slice(),
                name,
                sessions,
                wire,
                disk,
            );
            drop(opened);
            came
        }
        Front::Refused(reply) => Ok(reply),
    }
}

/// Reads the source to its end, and serves a role of what was read, which is kept on the disk.
pub fn keep_source<S: Source, W: Wire, D: Disk>(
    alloc: Global,
    name: &[u8],
    sessions: u32,
    src: &mut S,
    wire: &mut W,
    disk: &mut D,
) -> Result<Reply, Stop>
    ensures reply { IfOk result (RepliesTo (S.left src.old)
        (IsKeepingOutputOf name.now sessions (around ⟦<W as Wire>⟧ ⟦<D as Disk>⟧ wire.old wire.new disk.old disk.new))) }
    ensures is_reply { IfOk result (λ reply. IsReply reply.status) }
    ensures silent { IfOk result (λ reply. IsSilent reply.status → reply.text ≡ []) }
    ensures end { IfOk result (λ reply. IsPastReading reply.status → IsUsedUp (S.left src.new)) }
    ensures cause { result ≡ Err Stop.ReadFault → Rose (S.faults src.old) (S.faults src.new) }
    ensures kept { result ≢ Err Stop.ReadFault → S.faults src.new ≡ S.faults src.old }
    ensures read_before { result ≡ Err Stop.ReadFault → GivesSome (S.left src.old) (S.left src.new) (λ bytes. length bytes ≤ INPUT_LIMIT) }
    ensures refused { IfOk result (λ reply. IsRefusal reply.status → (wire.new ≡ wire.old) × (disk.new ≡ disk.old)) }
    ensures stopped { IfErr result (StopsFor (S.left src.old)
        (StopsKeeping name.now sessions (around ⟦<W as Wire>⟧ ⟦<D as Disk>⟧ wire.old wire.new disk.old disk.new))) }
    ensures unread { result ≡ Err Stop.ReadFault → (wire.new ≡ wire.old) × (disk.new ≡ disk.old) }
    ensures stop_end { IfErr result (λ stop. IsPastReading (status_of_stop stop) → IsUsedUp (S.left src.new)) }
    ensures net_cause { result ≡ Err Stop.NetFault → Rose (W.failed_openings wire.old) (W.failed_openings wire.new) }
    ensures net_kept { result ≢ Err Stop.NetFault → W.failed_openings wire.new ≡ W.failed_openings wire.old }
    ensures disk_cause { result ≡ Err Stop.DiskFault → Rose (D.faults disk.old) (D.faults disk.new) }
    ensures disk_kept { result ≢ Err Stop.DiskFault → D.faults disk.new ≡ D.faults disk.old }
    ensures never_falls { S.faults src.old ≤ S.faults src.new }
{
    match read_all(alloc, src, INPUT_LIMIT) {
        Ok(input) => keep_input(alloc, input.as_slice(), name, sessions, wire, disk),
        Err(error) => unread(alloc, error),
    }
}
