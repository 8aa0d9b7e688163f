//! The command that serves the workspace of a role over a wire.
ghost use Rattle.std.specs.Prelude.{◌≡◌, ◌≢◌, ◌≤◌, ◌<◌, [], IfOk, IfErr, length};
ghost use Rattle.aw_grammar.specs.GrammarOf.{grammar_of};
ghost use Rattle.aw_typed.specs.Typing.{IsMadeFor};
ghost use Rattle.aw_out.specs.Causes.{Rose};
ghost use Rattle.aw_out.specs.Edge.{IsUsedUp, GivesSome};
ghost use Rattle.aw_run.specs.Devices.{wired};
ghost use Rattle.aw_run.specs.OfInputs.{RepliesTo, StopsBy, StopsFor};
ghost use Rattle.aw_run.specs.Opening.{ForTyped};
ghost use Rattle.aw_front.specs.Replies.{Replies};
ghost use Rattle.aw_run.specs.Serving.{IsServingOutputOf, ServesNamed, ServesRole};
ghost use Rattle.aw_run.specs.Statuses.{IsReply, IsSilent, IsPastReading, IsRefusal, IsJournalStop, status_of_stop};
ghost use Rattle.aw_run.specs.Unserved.{StopsNode, StopsNodeNamed, StopsServing};

use crate::reply::Stop;
use crate::sessions::session_lines;
use crate::source::unread;
use aw_accept::Accepted;
use aw_front::{Front, INPUT_LIMIT, Reply, Status, front_of_input};
use aw_node::{ServeFault, serve};
use aw_out::{Source, Wire, read_all};
use aw_typed::Typed;
use std::alloc::Global;

/// Serves a role, and tells its sessions.
fn serve_role<W: Wire>(
    alloc: Global,
    accepted: &Accepted,
    typed: &Typed,
    role: u16,
    sessions: u32,
    wire: &mut W,
) -> Result<Reply, Stop>
    requires role { role < (grammar_of accepted.now.grammar).roles }
    requires made { IsMadeFor (grammar_of accepted.now.grammar) typed.now }
    ensures reply { IfOk result (λ reply. ForTyped accepted.now.grammar typed.now.types (λ s.
        Replies (ServesRole s role sessions (wired ⟦<W as Wire>⟧ wire.old wire.new)) reply)) }
    ensures stopped { IfErr result (λ stop. ForTyped accepted.now.grammar typed.now.types (λ s.
        StopsBy (StopsNode s role sessions (wired ⟦<W as Wire>⟧ wire.old wire.new)) stop)) }
    ensures net_cause { result ≡ Err Stop.NetFault → Rose (W.failed_openings wire.old) (W.failed_openings wire.new) }
    ensures net_kept { result ≢ Err Stop.NetFault → W.failed_openings wire.new ≡ W.failed_openings wire.old }
    ensures done { IfOk result (λ reply. reply.status ≡ Status.Done) }
    ensures no_read_fault { result ≢ Err Stop.ReadFault }
    ensures no_journal { IfErr result (λ stop. IsJournalStop (status_of_stop stop) → ⊥) }
{
    match serve(alloc, accepted, typed, role, sessions, wire) {
        Ok(log) => Ok(Reply {
            status: Status::Done,
            text: session_lines(alloc, log.as_slice())?,
        }),
        Err(ServeFault::NetFault) => Err(Stop::NetFault),
        Err(ServeFault::NoMemory) => Err(Stop::NoMemory),
    }
}

/// Serves the role of the name that was asked for, where one is declared.
fn serve_named<W: Wire>(
    alloc: Global,
    accepted: &Accepted,
    typed: &Typed,
    name: &[u8],
    sessions: u32,
    wire: &mut W,
) -> Result<Reply, Stop>
    requires made { IsMadeFor (grammar_of accepted.now.grammar) typed.now }
    ensures reply { IfOk result (λ reply. ForTyped accepted.now.grammar typed.now.types (λ s.
        Replies (ServesNamed name.now sessions (wired ⟦<W as Wire>⟧ wire.old wire.new) s) reply)) }
    ensures stopped { IfErr result (λ stop. ForTyped accepted.now.grammar typed.now.types (λ s.
        StopsBy (StopsNodeNamed name.now sessions (wired ⟦<W as Wire>⟧ wire.old wire.new) s) stop)) }
    ensures net_cause { result ≡ Err Stop.NetFault → Rose (W.failed_openings wire.old) (W.failed_openings wire.new) }
    ensures net_kept { result ≢ Err Stop.NetFault → W.failed_openings wire.new ≡ W.failed_openings wire.old }
    ensures refused { IfOk result (λ reply. IsRefusal reply.status → wire.new ≡ wire.old) }
    ensures no_read_fault { result ≢ Err Stop.ReadFault }
    ensures no_journal { IfErr result (λ stop. IsJournalStop (status_of_stop stop) → ⊥) }
{
    match accepted.grammar().role_named(name) {
        Some(role) => serve_role(alloc, accepted, typed, role, sessions, wire),
        None => Ok(Reply::line(alloc, Status::Usage, b"usage\n")?),
    }
}

/// Serves a role of an input that is within its limit.
fn serve_input<W: Wire>(
    alloc: Global,
    input: &[u8],
    name: &[u8],
    sessions: u32,
    wire: &mut W,
) -> Result<Reply, Stop>
    requires within { length input.now ≤ INPUT_LIMIT }
    ensures reply { IfOk result (λ reply.
        Replies (IsServingOutputOf name.now sessions (wired ⟦<W as Wire>⟧ wire.old wire.new) input.now) reply) }
    ensures stopped { IfErr result (λ stop. StopsServing name.now sessions (wired ⟦<W as Wire>⟧ wire.old wire.new) input.now (status_of_stop stop)) }
    ensures refused { IfOk result (λ reply. IsRefusal reply.status → wire.new ≡ wire.old) }
    ensures net_cause { result ≡ Err Stop.NetFault → Rose (W.failed_openings wire.old) (W.failed_openings wire.new) }
    ensures net_kept { result ≢ Err Stop.NetFault → W.failed_openings wire.new ≡ W.failed_openings wire.old }
    ensures no_read_fault { result ≢ Err Stop.ReadFault }
    ensures no_journal { IfErr result (λ stop. IsJournalStop (status_of_stop stop) → ⊥) }
{
    match front_of_input(alloc, input, false)? {
        Front::Ready(opened) => {
            let (accepted, typed) = (&opened.accepted, &opened.typed);
            let came = serve_named(alloc, accepted, typed, name, sessions, wire);
            drop(opened);
            came
        }
        Front::Refused(reply) => Ok(reply),
    }
}

/// Reads the source to its end, and serves a role of what was read.
pub fn serve_source<S: Source, W: Wire>(
    alloc: Global,
    name: &[u8],
    sessions: u32,
    src: &mut S,
    wire: &mut W,
) -> Result<Reply, Stop>
    ensures reply { IfOk result (RepliesTo (S.left src.old) (IsServingOutputOf name.now sessions (wired ⟦<W as Wire>⟧ wire.old wire.new))) }
    ensures stopped { IfErr result (StopsFor (S.left src.old) (StopsServing name.now sessions (wired ⟦<W as Wire>⟧ wire.old wire.new))) }
    ensures is_reply { IfOk result (λ reply. IsReply reply.status) }
    ensures silent { IfOk result (λ reply. IsSilent reply.status → reply.text ≡ []) }
    ensures end { IfOk result (λ reply. IsPastReading reply.status → IsUsedUp (S.left src.new)) }
    ensures cause { result ≡ Err Stop.ReadFault → Rose (S.faults src.old) (S.faults src.new) }
    ensures kept { result ≢ Err Stop.ReadFault → S.faults src.new ≡ S.faults src.old }
    ensures read_before { result ≡ Err Stop.ReadFault → GivesSome (S.left src.old) (S.left src.new) (λ bytes. length bytes ≤ INPUT_LIMIT) }
    ensures net_cause { result ≡ Err Stop.NetFault → Rose (W.failed_openings wire.old) (W.failed_openings wire.new) }
    ensures net_kept { result ≢ Err Stop.NetFault → W.failed_openings wire.new ≡ W.failed_openings wire.old }
    ensures net_end { result ≡ Err Stop.NetFault → IsUsedUp (S.left src.new) }
    ensures refused { IfOk result (λ reply. IsRefusal reply.status → wire.new ≡ wire.old) }
    ensures unread { result ≡ Err Stop.ReadFault → wire.new ≡ wire.old }
    ensures no_journal { IfErr result (λ stop. IsJournalStop (status_of_stop stop) → ⊥) }
    ensures never_falls { S.faults src.old ≤ S.faults src.new }
{
    match read_all(alloc, src, INPUT_LIMIT) {
        Ok(input) => serve_input(alloc, input.as_slice(), name, sessions, wire),
        Err(error) => unread(alloc, error),
    }
}
