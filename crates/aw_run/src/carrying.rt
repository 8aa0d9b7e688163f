//! The command that carries messages between the nodes of all roles.
ghost use Rattle.std.specs.Prelude.{◌≡◌, ◌≢◌, ◌≤◌, [], IfOk, IfErr, length};
ghost use Rattle.aw_out.specs.Causes.{Rose};
ghost use Rattle.aw_out.specs.Edge.{IsUsedUp, GivesSome};
ghost use Rattle.aw_run.specs.Devices.{wired};
ghost use Rattle.aw_run.specs.Carrying.{CarriesOver, IsCarryingOutputOf, StopsCarrying, StopsCourier, carried_line};
ghost use Rattle.aw_run.specs.OfInputs.{RepliesTo, StopsBy, StopsFor};
ghost use Rattle.aw_run.specs.Opening.{ForDeclared};
ghost use Rattle.aw_front.specs.Replies.{Replies};
ghost use Rattle.aw_run.specs.Statuses.{IsReply, IsSilent, IsPastReading, IsRefusal, IsJournalStop, status_of_stop};

use crate::reply::Stop;
use crate::source::unread;
use aw_accept::Accepted;
use aw_courier::{Carried, CarryFault, carry};
use aw_front::{Front, INPUT_LIMIT, Reply, Status, bad_reply, front_of_input};
use aw_out::{Source, Wire, read_all};
use std::alloc::Global;

/// How a courier came to its end, in a line.
fn carried_line(carried: Carried) -> &'static [u8]
    ensures { result.now ≡ carried_line carried }
{
    match carried {
        Carried::Quiet => b"quiet\n",
        Carried::RoundsSpent => b"rounds spent\n",
    }
}

/// Carries messages between the nodes of an accepted specification, and tells how that ended.
fn carry_accepted<W: Wire>(
    alloc: Global,
    accepted: &Accepted,
    rounds: u64,
    wire: &mut W,
) -> Result<Reply, Stop>
    ensures reply { IfOk result (λ reply. ForDeclared accepted.now.grammar (λ s.
        Replies (CarriesOver rounds (wired ⟦<W as Wire>⟧ wire.old wire.new) s) reply)) }
    ensures is_reply { IfOk result (λ reply. IsReply reply.status) }
    ensures never_refused { IfOk result (λ reply. IsRefusal reply.status → ⊥) }
    ensures never_silent { IfOk result (λ reply. IsSilent reply.status → ⊥) }
    ensures stopped { IfErr result (λ stop. ForDeclared accepted.now.grammar (λ s.
        StopsBy (StopsCourier s rounds (wired ⟦<W as Wire>⟧ wire.old wire.new)) stop)) }
    ensures net_cause { result ≡ Err Stop.NetFault → Rose (W.faults wire.old) (W.faults wire.new) }
    ensures net_kept { result ≢ Err Stop.NetFault → W.faults wire.new ≡ W.faults wire.old }
    ensures no_read_fault { result ≢ Err Stop.ReadFault }
    ensures no_journal { IfErr result (λ stop. IsJournalStop (status_of_stop stop) → ⊥) }
{
    match carry(alloc, accepted, wire, rounds) {
        Ok(carried) => Ok(Reply::line(alloc, Status::Done, carried_line(carried))?),
        Err(CarryFault::BadReply { role }) => Ok(bad_reply(alloc, accepted.grammar(), role)?),
        Err(CarryFault::NetFault { .. }) => Err(Stop::NetFault),
        Err(CarryFault::NoMemory) => Err(Stop::NoMemory),
    }
}

/// Carries messages between the nodes of an input that is within its limit.
fn carry_input<W: Wire>(
    alloc: Global,
    input: &[u8],
    rounds: u64,
    wire: &mut W,
) -> Result<Reply, Stop>
    requires within { length input.now ≤ INPUT_LIMIT }
    ensures reply { IfOk result (λ reply.
        Replies (IsCarryingOutputOf rounds (wired ⟦<W as Wire>⟧ wire.old wire.new) input.now) reply) }
    ensures refused { IfOk result (λ reply. IsRefusal reply.status → wire.new ≡ wire.old) }
    ensures stopped { IfErr result (λ stop.
        StopsCarrying rounds (wired ⟦<W as Wire>⟧ wire.old wire.new) input.now (status_of_stop stop)) }
    ensures net_cause { result ≡ Err Stop.NetFault → Rose (W.faults wire.old) (W.faults wire.new) }
    ensures net_kept { result ≢ Err Stop.NetFault → W.faults wire.new ≡ W.faults wire.old }
    ensures no_read_fault { result ≢ Err Stop.ReadFault }
    ensures no_journal { IfErr result (λ stop. IsJournalStop (status_of_stop stop) → ⊥) }
{
    match front_of_input(alloc, input, false)? {
        Front::Ready(opened) => {
            let came = carry_accepted(alloc, &opened.accepted, rounds, wire);
            drop(opened);
            came
        }
        Front::Refused(reply) => Ok(reply),
    }
}

/// Reads the source to its end, and carries messages between the nodes of what was read.
pub fn carry_source<S: Source, W: Wire>(
    alloc: Global,
    rounds: u64,
    src: &mut S,
    wire: &mut W,
) -> Result<Reply, Stop>
    ensures reply { IfOk result (RepliesTo (S.left src.old) (IsCarryingOutputOf rounds (wired ⟦<W as Wire>⟧ wire.old wire.new))) }
    ensures is_reply { IfOk result (λ reply. IsReply reply.status) }
    ensures silent { IfOk result (λ reply. IsSilent reply.status → reply.text ≡ []) }
    ensures end { IfOk result (λ reply. IsPastReading reply.status → IsUsedUp (S.left src.new)) }
    ensures cause { result ≡ Err Stop.ReadFault → Rose (S.faults src.old) (S.faults src.new) }
    ensures kept { result ≢ Err Stop.ReadFault → S.faults src.new ≡ S.faults src.old }
    ensures read_before { result ≡ Err Stop.ReadFault → GivesSome (S.left src.old) (S.left src.new) (λ bytes. length bytes ≤ INPUT_LIMIT) }
    ensures refused { IfOk result (λ reply. IsRefusal reply.status → wire.new ≡ wire.old) }
    ensures stopped { IfErr result (StopsFor (S.left src.old) (StopsCarrying rounds (wired ⟦<W as Wire>⟧ wire.old wire.new))) }
    ensures unread { result ≡ Err Stop.ReadFault → wire.new ≡ wire.old }
    ensures stop_end { IfErr result (λ stop. IsPastReading (status_of_stop stop) → IsUsedUp (S.left src.new)) }
    ensures net_cause { result ≡ Err Stop.NetFault → Rose (W.faults wire.old) (W.faults wire.new) }
    ensures net_kept { result ≢ Err Stop.NetFault → W.faults wire.new ≡ W.faults wire.old }
    ensures no_journal { IfErr result (λ stop. IsJournalStop (status_of_stop stop) → ⊥) }
    ensures never_falls { S.faults src.old ≤ S.faults src.new }
{
    match read_all(alloc, src, INPUT_LIMIT) {
        Ok(input) => carry_input(alloc, input.as_slice(), rounds, wire),
        Err(error) => unread(alloc, error),
    }
}
