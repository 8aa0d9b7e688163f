//! Events replayed between the sites of the program.
ghost use Rattle.std.specs.Prelude.{◌≡◌, ◌<◌, length, map, Err, IfOk};
ghost use Rattle.aw_grammar.specs.GrammarOf.{grammar_of, words_of};
ghost use Rattle.aw_law_worlds.specs.Headline.{HeadlineHolds};
ghost use Rattle.aw_law_sites.specs.Outputs.{output_of};
ghost use Rattle.aw_replay.specs.Telling.{SettlingEnds};
ghost use Rattle.aw_sched.specs.Answers.{event_seen, MayCome};
ghost use Rattle.aw_term.specs.WellFormed.{Each};

use crate::replaying::replay;
use aw_accept::Accepted;
use aw_out::{OUTPUT_LIMIT, PrintFault, Report};
use aw_sched::Event;
use aw_world::SiteWorld;
use std::alloc::Global;
use std::mem;

/// Replays events between sites that hold nothing, one for each role: the lines of all events, and then the artifacts where every
/// message was delivered, and otherwise how many were not. Messages carry loads, or none does. It is too large exactly where the text
/// would be longer than an output may be.
///
/// The memory of the world is not given back: a program that replays ends then, and to take apart what each site holds, piece by piece,
/// takes long.
pub fn replay_between_sites(
    alloc: Global,
    accepted: &Accepted,
    loads: bool,
    events: &[Event],
) -> Result<Report, PrintFault>
    requires { Each (MayCome (grammar_of accepted.now.grammar)) events.now }
    ensures output { IfOk result (λ report. report.text ≡ output_of (words_of accepted.now.grammar) (grammar_of accepted.now.grammar) loads (map event_seen events.now)) }
    ensures limit { IfOk result (λ report. report.limit ≡ OUTPUT_LIMIT) }
    ensures too_large { result ≡ Err PrintFault.TooLarge → OUTPUT_LIMIT < length (output_of (words_of accepted.now.grammar) (grammar_of accepted.now.grammar) loads (map event_seen events.now)) }
    ensures settles { SettlingEnds (grammar_of accepted.now.grammar) loads (map event_seen events.now) }
    ensures headline { ∥ HeadlineHolds (words_of accepted.now.grammar) (grammar_of accepted.now.grammar) loads (map event_seen events.now) ∥₁ }
{
    let mut world = SiteWorld::new(alloc, accepted, loads)?;
    let told = replay(&mut world, events);
    mem::forget(world);
    told
}
