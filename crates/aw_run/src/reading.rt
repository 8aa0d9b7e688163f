//! The commands that read the source to its end, and reply to what was read.
ghost use Rattle.std.specs.Prelude.{◌≡◌, ◌≢◌, ◌≤◌, ◌+◌, ◌<◌, ◌^◌, [], IfOk, IfErr, None, length};
ghost use Rattle.aw_lex.specs.Lines.{lines_of};
ghost use Rattle.aw_grammar.specs.GrammarOf.{grammar_of};
ghost use Rattle.aw_typed.specs.Types.{AreFor};
ghost use Rattle.aw_typed.specs.Typing.{types_of, IsMadeFor, NumbersInRange};
ghost use Rattle.aw_face.specs.Faces.{face_fault};
ghost use Rattle.aw_spec.specs.TypesFit.{TypesFit};
ghost use Rattle.aw_spec.specs.Views.{spec_seen};
ghost use Rattle.aw_out.specs.Causes.{Rose};
ghost use Rattle.aw_out.specs.Edge.{IsUsedUp, GivesSome};
ghost use Rattle.aw_run.specs.Output.{IsOutputOf, Makes, MakesTyped};
ghost use Rattle.aw_run.specs.Promises.{IfTells, OfEvents, OfSchedule, Promises, RepliesKeeping};
ghost use Rattle.aw_run.specs.Statuses.{IsReply, IsSilent, IsPastReading, IsJournalStop, status_of_stop};
ghost use Rattle.aw_run.specs.Replies.{ForInput};
ghost use Rattle.aw_front.specs.Replies.{Replies};

use crate::check::check;
use crate::reply::Stop;
use crate::schedule::tell_schedule;
use crate::source::unread;
use crate::words::Job;
use aw_front::{INPUT_LIMIT, Reply, Status, bad_specification, bad_types};
use aw_out::{Source, read_all};
use aw_spec::{SpecFault, SpecText, read_spec};
use aw_typed::{Typed, type_check};
use std::alloc::{AllocError, Global};

/// The reply to a good specification whose types have no fault, and to what stands behind it.
fn reply_to_typed(
    alloc: Global,
    job: Job,
    spec: SpecText,
    typed: &Typed,
    schedule: &[u8],
) -> Result<Reply, AllocError>
    requires lines { spec.lines + length (lines_of schedule.now) < 2 ^ 64 }
    requires types { typed.now.types ≡ spec.types }
    requires made { IsMadeFor (grammar_of spec.grammar) typed.now }
    requires faces { face_fault (grammar_of spec.grammar) spec.faces.offers spec.faces.uses ≡ None }
    requires fits { TypesFit (spec_seen spec) }
    ensures reply { IfOk result (λ reply. Replies (MakesTyped job (spec_seen spec) spec.lines spec.loads (lines_of schedule.now)) reply) }
    ensures promises { IfOk result (λ reply. reply.status ≡ Status.Done → IfTells job (OfSchedule Promises (spec_seen spec) spec.loads (lines_of schedule.now))) }
{
    match job {
        Job::Check => check(alloc, spec),
        Job::Tells(telling) => tell_schedule(alloc, telling, spec, typed, schedule),
    }
}

/// The reply to a good specification, and to what stands behind it.
fn reply_to_specification(
    alloc: Global,
    job: Job,
    spec: SpecText,
    schedule: &[u8],
) -> Result<Reply, AllocError>
    requires lines { spec.lines + length (lines_of schedule.now) < 2 ^ 64 }
    requires sizes { AreFor (grammar_of spec.grammar) (types_of spec.types) }
    requires numbers { NumbersInRange (types_of spec.types) }
    requires faces { face_fault (grammar_of spec.grammar) spec.faces.offers spec.faces.uses ≡ None }
    requires fits { TypesFit (spec_seen spec) }
    ensures reply { IfOk result (λ reply. Replies (Makes job (spec_seen spec) spec.lines spec.loads (lines_of schedule.now)) reply) }
    ensures promises { IfOk result (λ reply. reply.status ≡ Status.Done → IfTells job (OfSchedule Promises (spec_seen spec) spec.loads (lines_of schedule.now))) }
{
    match type_check(alloc, &spec.grammar, &spec.types) {
        Ok(typed) => {
            let reply = reply_to_typed(alloc, job, spec, &typed, schedule);
            drop(typed);
            reply
        }
        Err(fault) => {
            let reply = bad_types(alloc, &spec.grammar, fault);
            drop(spec);
            reply
        }
    }
}

/// The reply to an input that is within its limit.
fn reply_to(alloc: Global, job: Job, input: &[u8]) -> Result<Reply, AllocError>
    requires { length input.now ≤ INPUT_LIMIT }
    ensures reply { IfOk result (λ reply. Replies (IsOutputOf job input.now) reply) }
    ensures promises { IfOk result (λ reply. reply.status ≡ Status.Done → IfTells job (OfEvents Promises input.now)) }
{
    match read_spec(alloc, input) {
        Ok(spec) => {
            let (_, schedule) = input.split_at(spec.rest);
            reply_to_specification(alloc, job, spec, schedule)
        }
        Err(SpecFault::Bad { line, kind }) => bad_specification(alloc, line, kind),
        Err(SpecFault::NoMemory) => Err(AllocError),
    }
}

/// Reads the source to its end, and makes the reply.
pub fn reply_to_source<S: Source>(alloc: Global, job: Job, src: &mut S) -> Result<Reply, Stop>
    ensures reply { IfOk result (λ reply. ForInput (S.left src.old) (λ input. Replies (IsOutputOf job input) reply)) }
    ensures promises { IfOk result (λ reply. ForInput (S.left src.old) (λ input. RepliesKeeping job input reply)) }
    ensures is_reply { IfOk result (λ reply. IsReply reply.status) }
    ensures silent { IfOk result (λ reply. IsSilent reply.status → reply.text ≡ []) }
    ensures end { IfOk result (λ reply. IsPastReading reply.status → IsUsedUp (S.left src.new)) }
    ensures cause { result ≡ Err Stop.ReadFault → Rose (S.faults src.old) (S.faults src.new) }
    ensures kept { result ≢ Err Stop.ReadFault → S.faults src.new ≡ S.faults src.old }
    ensures read_before { result ≡ Err Stop.ReadFault → GivesSome (S.left src.old) (S.left src.new) (λ bytes. length bytes ≤ INPUT_LIMIT) }
    ensures no_net_fault { result ≢ Err Stop.NetFault }
    ensures no_journal { IfErr result (λ stop. IsJournalStop (status_of_stop stop) → ⊥) }
    ensures never_falls { S.faults src.old ≤ S.faults src.new }
{
    match read_all(alloc, src, INPUT_LIMIT) {
        Ok(input) => Ok(reply_to(alloc, job, input.as_slice())?),
        Err(error) => unread(alloc, error),
    }
}
