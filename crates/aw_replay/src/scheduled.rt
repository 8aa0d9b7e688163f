//! A schedule that is replayed while it is read.
ghost use Rattle.std.specs.Prelude.{◌≡◌, Err, OnErr, OnOk, true};
ghost use Rattle.aw_grammar.specs.GrammarOf.{grammar_of};
ghost use Rattle.aw_sched.specs.Answers.{MayCome};
ghost use Rattle.aw_sched.specs.Readers.{IsReading};
ghost use Rattle.aw_world.specs.WorldView.{plain_of};
ghost use Rattle.aw_replay.specs.Replays.{EndsWhole, IsKeptPastLimit, IsNamed, MakesSomeKept, MakesSomeLeft, MayReplay};
ghost use Rattle.aw_replay.specs.Replays.{Replays, ReplaysSome, StopsWith, TellsKept, TellsLeft, is_kept};
ghost use Rattle.aw_replay.specs.Telling.{IsNew};

use crate::stepwise::Replay;
use aw_out::{PrintFault, Report};
use aw_sched::{Event, SchedFault, SchedKind, ScheduleReader};
use aw_world::{Workspace, World};
use std::alloc::AllocError;

/// Which events of a schedule are replayed. The others are read for their faults alone.
#[derive(Clone, Copy, Debug, PartialEq, Eq)]
pub enum Kept {
    All,
    Choices,
}

/// Whether an event is replayed.
fn is_kept(kept: Kept, event: &Event) -> bool
    ensures { result ≡ is_kept kept event.now }
{
    match kept {
        Kept::All => true,
        Kept::Choices => matches!(event, Event::Choose(_)),
    }
}

/// Why a schedule is not replayed.
#[derive(Clone, Copy, Debug, PartialEq, Eq)]
pub enum ReplayFault {
    /// The first faulty line of the schedule, counted from 1, and the first kind of fault there.
    Bad { line: u64, kind: SchedKind },
    /// The output would be longer than an output may be.
    TooLarge,
    NoMemory,
}

impl From<SchedFault> for ReplayFault {
    ghost use Rattle.std.specs.Prelude.{◌≡◌};
    ghost use Rattle.aw_replay.specs.Faults.{of_schedule};

    ghost from_gives = { λ fault e. e ≡ of_schedule fault };

    fn from(fault: SchedFault) -> ReplayFault {
        match fault {
            SchedFault::Bad { line, kind } => ReplayFault::Bad { line, kind },
            SchedFault::NoMemory => ReplayFault::NoMemory,
        }
    }
}

impl From<PrintFault> for ReplayFault {
    ghost use Rattle.std.specs.Prelude.{◌≡◌};
    ghost use Rattle.aw_replay.specs.Faults.{of_printing};

    ghost from_gives = { λ fault e. e ≡ of_printing fault };

    fn from(fault: PrintFault) -> ReplayFault {
        match fault {
            PrintFault::TooLarge => ReplayFault::TooLarge,
            PrintFault::NoMemory => ReplayFault::NoMemory,
        }
    }
}

impl From<AllocError> for ReplayFault {
    ghost use Rattle.std.specs.Prelude.{◌≡◌};
    ghost use Rattle.aw_replay.specs.declared.scheduled.ReplayFault.TheVariants.{NoMemory};

    ghost from_gives = { λ _ e. e ≡ NoMemory };

    fn from(_failed: AllocError) -> ReplayFault {
        ReplayFault::NoMemory
    }
}

/// Replays an event where it is kept.
fn tell_kept<W: Workspace>(
    kept: Kept,
    event: &Event,
    world: &mut World<W>,
    replay: &mut Replay<'_>,
) -> Result<(), PrintFault>
    requires named { IsNamed ⟦<W as Workspace>⟧ (world.old, replay.old) }
    requires may { is_kept kept event.now ≡ true → MayCome (plain_of world.old) event.now }
    ensures named { IsNamed ⟦<W as Workspace>⟧ (world.new, replay.new) }
    ensures accepted { world.new.accepted.now ≡ world.old.accepted.now }
    ensures loads { world.new.loads ≡ world.old.loads }
    ensures tells { OnOk result (TellsKept ⟦<W as Workspace>⟧ kept (world.old, replay.old) (world.new, replay.new) event.now) }
    ensures too_large { result ≡ Err PrintFault.TooLarge → IsKeptPastLimit ⟦<W as Workspace>⟧ kept (world.old, replay.old) event.now }
    ensures some { OnErr result (MakesSomeKept ⟦<W as Workspace>⟧ kept (world.old, replay.old) (world.new, replay.new) event.now) }
{
    if is_kept(kept, event) {
        replay.tell(world, event)
    } else {
        Ok(())
    }
}

/// Reads the events that are left, and replays each that is kept before the next is read. It stops where a line is faulty, or all
/// lines together would be longer than an output may be.
fn tell_left<W: Workspace>(
    reader: &mut ScheduleReader<'_>,
    kept: Kept,
    world: &mut World<W>,
    replay: &mut Replay<'_>,
) -> Result<(), ReplayFault>
    requires reading { IsReading reader.old }
    requires named { IsNamed ⟦<W as Workspace>⟧ (world.old, replay.old) }
    requires may { MayReplay kept (grammar_of reader.old.grammar.now) (plain_of world.old) }
    ensures reading { IsReading reader.new }
    ensures grammar { reader.new.grammar.now ≡ reader.old.grammar.now }
    ensures typed { reader.new.typed.now ≡ reader.old.typed.now }
    ensures named { IsNamed ⟦<W as Workspace>⟧ (world.new, replay.new) }
    ensures accepted { world.new.accepted.now ≡ world.old.accepted.now }
    ensures loads { world.new.loads ≡ world.old.loads }
    ensures tells { TellsLeft ⟦<W as Workspace>⟧ kept reader.old (world.old, replay.old) reader.new (world.new, replay.new) result }
    ensures some { OnErr result (MakesSomeLeft ⟦<W as Workspace>⟧ kept reader.old (world.old, replay.old) (world.new, replay.new)) }
{
    while let Some(event) = reader.next()? {
        let told = tell_kept(kept, &event, world, replay);
        drop(event);
        told?;
    }
    Ok(())
}

/// Ends a replay: the whole output of what was replayed.
fn finish<W: Workspace>(world: &World<W>, replay: Replay<'_>) -> Result<Report, ReplayFault>
    requires { IsNamed ⟦<W as Workspace>⟧ (world.now, replay) }
    ensures { EndsWhole ⟦<W as Workspace>⟧ (world.now, replay.entry) result }
{
    Ok(replay.finish(world)?)
}

/// Why a schedule is not replayed whose telling stopped with this fault. An output that would be too long comes after a faulty line,
/// wherever that stands, and so what is left is read.
fn fault_with_left(reader: &mut ScheduleReader<'_>, fault: ReplayFault) -> ReplayFault
    requires { IsReading reader.old }
    ensures { StopsWith reader.old fault result }
{
    match fault {
        ReplayFault::TooLarge => match reader.pass() {
            Ok(()) => ReplayFault::TooLarge,
            Err(fault) => ReplayFault::from(fault),
        },
        other => other,
    }
}

/// Replays the events that are left of a schedule and are kept, in a world in which nothing happened yet: the lines of all events, and
/// then the artifacts where every message was delivered, and otherwise how many were not. An event is dropped before the next is read, so
/// that beside its text a schedule takes memory for the tokens of one line and the names that were read last. Where a line is faulty,
/// nothing else is told, whatever stands before it. The world is then that behind the events that are told. After an error some first
/// choices and deliveries of events that are kept were made in it.
pub fn replay_schedule<W: Workspace>(
    world: &mut World<W>,
    kept: Kept,
    reader: &mut ScheduleReader<'_>,
) -> Result<Report, ReplayFault>
    requires reading { IsReading reader.old }
    requires new { IsNew ⟦<W as Workspace>⟧ world.old }
    requires may { MayReplay kept (grammar_of reader.old.grammar.now) (plain_of world.old) }
    ensures accepted { world.new.accepted.now ≡ world.old.accepted.now }
    ensures loads { world.new.loads ≡ world.old.loads }
    ensures replays { Replays ⟦<W as Workspace>⟧ kept reader.old world.old world.new result }
    ensures some { OnErr result (ReplaysSome ⟦<W as Workspace>⟧ kept reader.old world.old world.new) }
{
    let mut replay = Replay::new(world);
    match tell_left(reader, kept, world, &mut replay) {
        Ok(()) => finish(world, replay),
        Err(fault) => Err(fault_with_left(reader, fault)),
    }
}
