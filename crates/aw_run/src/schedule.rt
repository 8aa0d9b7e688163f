//! Telling the schedule behind a specification.
ghost use Rattle.std.specs.Prelude.{◌≡◌, ◌+◌, ◌<◌, ◌^◌, IfOk, length};
ghost use Rattle.aw_lex.specs.Lines.{lines_of};
ghost use Rattle.aw_grammar.specs.GrammarOf.{grammar_of};
ghost use Rattle.aw_typed.specs.Typing.{IsMadeFor};
ghost use Rattle.aw_spec.specs.Views.{spec_seen};
ghost use Rattle.aw_sched.specs.Readers.{IsReading};
ghost use Rattle.aw_front.specs.Output.{IfAccepted};
ghost use Rattle.aw_run.specs.Output.{TellsSchedule};
ghost use Rattle.aw_run.specs.Promises.{OfSchedule, Promises};
ghost use Rattle.aw_front.specs.Replies.{Replies};
ghost use Rattle.aw_run.specs.Scheduled.{KeepsPromises, RepliesTo, TellsLeft};

use crate::words::Telling;
use aw_accept::{Accepted, accept};
use aw_front::{Reply, Status, bad_schedule, grammar_alone, not_accepted};
use aw_out::Report;
use aw_replay::{Kept, ReplayFault, replay_schedule, run_schedule};
use aw_sched::ScheduleReader;
use aw_spec::SpecText;
use aw_typed::Typed;
use aw_world::SiteWorld;
use std::alloc::{AllocError, Global};
use std::mem;

/// What is told of the events that are left of a schedule, which are replayed in a world in which nothing happened yet.
///
/// The memory of the world is not given back: the program ends then, and to take apart what each site holds, piece by piece, takes long.
fn replay_left(
    alloc: Global,
    accepted: &Accepted,
    loads: bool,
    reader: &mut ScheduleReader<'_>,
) -> Result<Report, ReplayFault>
    requires reading { IsReading reader.old }
    requires same { reader.old.grammar.now ≡ accepted.now.grammar }
    ensures { TellsLeft Telling.Replayed accepted.now loads reader.old result }
{
    let mut world = SiteWorld::new(alloc, accepted, loads)?;
    let told = replay_schedule(&mut world, Kept::All, reader);
    mem::forget(world);
    told
}

/// What is told of the events that are left of a schedule.
fn tell_left(
    alloc: Global,
    telling: Telling,
    accepted: &Accepted,
    loads: bool,
    reader: &mut ScheduleReader<'_>,
) -> Result<Report, ReplayFault>
    requires reading { IsReading reader.old }
    requires same { reader.old.grammar.now ≡ accepted.now.grammar }
    ensures { TellsLeft telling accepted.now loads reader.old result }
{
    match telling {
        Telling::Undivided => run_schedule(alloc, accepted, reader),
        Telling::Replayed => replay_left(alloc, accepted, loads, reader),
    }
}

/// The reply to an accepted specification of so many lines, and to the schedule behind it, which is told while it is read.
fn reply_to_schedule(
    alloc: Global,
    telling: Telling,
    accepted: &Accepted,
    typed: &Typed,
    before: u64,
    loads: bool,
    schedule: &[u8],
) -> Result<Reply, AllocError>
    requires lines { before + length (lines_of schedule.now) < 2 ^ 64 }
    requires made { IsMadeFor (grammar_of accepted.now.grammar) typed.now }
    ensures reply { IfOk result (λ reply. RepliesTo telling accepted.now typed.now before loads (lines_of schedule.now) reply) }
    ensures promises { IfOk result (λ reply. KeepsPromises accepted.now typed.now loads (lines_of schedule.now)) }
{
    let g = accepted.grammar();
    let mut reader = ScheduleReader::new(alloc, g, typed, schedule);
    match tell_left(alloc, telling, accepted, loads, &mut reader) {
        Ok(report) => Ok(Reply {
            status: Status::Done,
            text: report.into_text(),
        }),
        Err(ReplayFault::TooLarge) => Ok(Reply::silent(alloc, Status::TooLarge)),
        Err(ReplayFault::Bad { line, kind }) => bad_schedule(alloc, before + line, kind),
        Err(ReplayFault::NoMemory) => Err(AllocError),
    }
}

/// The reply to a good specification with these types, and to the schedule behind it.
pub fn tell_schedule(
    alloc: Global,
    telling: Telling,
    spec: SpecText,
    typed: &Typed,
    schedule: &[u8],
) -> Result<Reply, AllocError>
    requires lines { spec.lines + length (lines_of schedule.now) < 2 ^ 64 }
    requires types { typed.now.types ≡ spec.types }
    requires made { IsMadeFor (grammar_of spec.grammar) typed.now }
    ensures reply { IfOk result (Replies (IfAccepted (spec_seen spec) (TellsSchedule telling (spec_seen spec) spec.lines spec.loads (lines_of schedule.now)))) }
    ensures promises { IfOk result (λ reply. reply.status ≡ Status.Done → OfSchedule Promises (spec_seen spec) spec.loads (lines_of schedule.now)) }
{
    let lines = spec.lines;
    let loads = spec.loads;
    match accept(alloc, grammar_alone(spec)) {
        Ok(accepted) => {
            let reply = reply_to_schedule(alloc, telling, &accepted, typed, lines, loads, schedule);
            drop(accepted);
            reply
        }
        Err(refused) => not_accepted(alloc, refused),
    }
}
