//! The undivided run of the choices among events.
ghost use Rattle.std.specs.Prelude.{◌≡◌, ◌<◌, length, map, Err, IfOk};
ghost use Rattle.aw_grammar.specs.GrammarOf.{grammar_of, words_of};
ghost use Rattle.aw_sched.specs.Answers.{event_seen, MayCome};
ghost use Rattle.aw_term.specs.WellFormed.{Each};
ghost use Rattle.aw_sched.specs.Readers.{IsReading};
ghost use Rattle.aw_replay.specs.ChoicesIn.{undivided_text};
ghost use Rattle.aw_replay.specs.Scheduled.{RunsUndivided};
ghost use Rattle.aw_replay.specs.United.{united, united_words};

use crate::between_sites::replay_between_sites;
use crate::choosing::choices_among;
use crate::laws::undivided_laws;
use crate::scheduled::{Kept, ReplayFault, replay_schedule};
use crate::united::united_laws;
use crate::uniting::unite_accepted;
use aw_accept::Accepted;
use aw_out::{OUTPUT_LIMIT, PrintFault, Report};
use aw_sched::{Event, ScheduleReader};
use aw_world::SiteWorld;
use std::alloc::Global;
use std::mem;

/// Tells the choices among events between the sites of the grammar with one role.
fn run_united(
    alloc: Global,
    accepted: &Accepted,
    one: &Accepted,
    events: &[Event],
) -> Result<Report, PrintFault>
    requires words { words_of one.now.grammar ≡ united_words (words_of accepted.now.grammar) }
    requires grammar { grammar_of one.now.grammar ≡ united (grammar_of accepted.now.grammar) }
    requires events { Each (MayCome (grammar_of accepted.now.grammar)) events.now }
    ensures output { IfOk result (λ report. report.text ≡ undivided_text accepted.now.grammar (map event_seen events.now)) }
    ensures limit { IfOk result (λ report. report.limit ≡ OUTPUT_LIMIT) }
    ensures too_large { result ≡ Err PrintFault.TooLarge → OUTPUT_LIMIT < length (undivided_text accepted.now.grammar (map event_seen events.now)) }
{
    let choices = choices_among(alloc, events)?;
    united_laws();
    undivided_laws();
    replay_between_sites(alloc, one, false, choices.as_slice())
}

/// What the undivided run tells of the choices among events: the line of each, and then the artifacts. Deliveries, settlings and
/// worklists are passed over. It is too large exactly where the text would be longer than an output may be.
pub fn run_undivided(
    alloc: Global,
    accepted: &Accepted,
    events: &[Event],
) -> Result<Report, PrintFault>
    requires { Each (MayCome (grammar_of accepted.now.grammar)) events.now }
    ensures output { IfOk result (λ report. report.text ≡ undivided_text accepted.now.grammar (map event_seen events.now)) }
    ensures limit { IfOk result (λ report. report.limit ≡ OUTPUT_LIMIT) }
    ensures too_large { result ≡ Err PrintFault.TooLarge → OUTPUT_LIMIT < length (undivided_text accepted.now.grammar (map event_seen events.now)) }
{
    let one = unite_accepted(alloc, accepted)?;
    run_united(alloc, accepted, &one, events)
}

/// What the undivided run tells of the choices among the events that are left of a schedule, which is read while it is told.
///
/// The memory of the world is not given back: a program that replays ends then, and to take apart what each site holds, piece by piece,
/// takes long.
pub fn run_schedule(
    alloc: Global,
    accepted: &Accepted,
    reader: &mut ScheduleReader<'_>,
) -> Result<Report, ReplayFault>
    requires reading { IsReading reader.old }
    requires same { reader.old.grammar.now ≡ accepted.now.grammar }
    ensures { RunsUndivided accepted.now reader.old result }
{
    let one = unite_accepted(alloc, accepted)?;
    united_laws();
    undivided_laws();
    let mut world = SiteWorld::new(alloc, &one, false)?;
    let told = replay_schedule(&mut world, Kept::Choices, reader);
    mem::forget(world);
    told
}
