//! A whole trial.
ghost use Rattle.std.specs.Prelude.{◌≡◌, ◌<◌, ◌≤◌, List, true, false, None, Err, IfOk, map, slice_get};
ghost use Rattle.aw_base.specs.NodeNames.{is_start};
ghost use Rattle.aw_choice.specs.Events.{Event};
ghost use Rattle.aw_choice.specs.ChoiceView.{choice_of};
ghost use Rattle.aw_grammar.specs.GrammarOf.{grammar_of, words_of};
ghost use Rattle.aw_law_sites.specs.Worlds as V;
ghost use Rattle.aw_world.specs.Shown.{Shows, first_open};
ghost use Rattle.aw_world.specs.WorldView.{plain_of, named_by};
ghost use Rattle.aw_trial.specs.Comes.{AreUpTo};
ghost use Rattle.aw_trial.specs.Counts.{counted, counted_from, trial_in, trial};
ghost use Rattle.aw_trial.specs.Told.{CountsLines, Tells};

use crate::making::trial_accepted;
use crate::summary::Summary;
use crate::tally::Tally;
use crate::turning::turns;
use aw_accept::Accepted;
use aw_out::{OUTPUT_LIMIT, PrintFault, Report};
use aw_world::{SiteWorld, Workspace, World, settle};
use std::alloc::Global;

/// How many turns a trial has.
const TURNS: u64 = 2000;

/// How many artifact lines a quiet world has, and how many bytes they are.
fn count_lines<W: Workspace>(world: &World<W>) -> Result<(u64, u64), PrintFault>
    requires { first_open world.now ≡ None }
    ensures { CountsLines (named_by world.now) (plain_of world.now) (map choice_of world.now.taken.items) result }
{
    let mut report = Report::new(world.allocator(), OUTPUT_LIMIT);
    let spots = world.in_order()?;
    world.print_rows(spots.as_slice(), &mut report)?;
    Ok((spots.len() as u64, report.bytes().len() as u64))
}

/// The counts of a tally and of a quiet world.
fn count_all<W: Workspace>(world: &World<W>, tally: &Tally) -> Result<Summary, PrintFault>
    requires { first_open world.now ≡ None }
    ensures { (v : V.World) → Shows ⟦<W as Workspace>⟧ world.now v → Tells (counted (named_by world.now) (plain_of world.now) tally.now v) result }
{
    let (artifacts, bytes) = count_lines(world)?;
    Ok(Summary {
        starts: tally.starts,
        choices: tally.choices,
        taken: tally.taken,
        messages: world.messages().len() as u64,
        repeats: tally.repeats,
        artifacts,
        bytes,
    })
}

/// All turns of a trial in a world, and its settling; then it is counted.
fn run_trial<W: Workspace>(world: &mut World<W>, tally: &mut Tally) -> Result<Summary, PrintFault>
    requires start { is_start (slice_get (plain_of world.old).sorts 0) ≡ true }
    requires new { AreUpTo 0 tally.old }
    ensures { (v : V.World) (es : List Event) → Shows ⟦<W as Workspace>⟧ world.old v → Tells (counted_from (named_by world.old) (plain_of world.old) 2000 tally.old v es) result }
{
    turns(world, tally, TURNS)?;
    settle(world)?;
    count_all(world, tally)
}

/// A trial in a world in which nothing happened yet.
fn try_in<W: Workspace>(world: &mut World<W>, n: u64) -> Result<Summary, PrintFault>
    requires start { is_start (slice_get (plain_of world.old).sorts 0) ≡ true }
    requires empty { Shows ⟦<W as Workspace>⟧ world.old (V.empty_world (plain_of world.old) false) }
    ensures { Tells (trial_in (named_by world.old) (plain_of world.old) 2000 n) result }
{
    let mut tally = Tally {
        seed: n,
        starts: 0,
        choices: 0,
        taken: 0,
        repeats: 0,
    };
    run_trial(world, &mut tally)
}

/// A trial in the world of an accepted grammar.
fn trial_in(alloc: Global, accepted: &Accepted, n: u64) -> Result<Summary, PrintFault>
    requires { is_start (slice_get (grammar_of accepted.now.grammar).sorts 0) ≡ true }
    ensures { Tells (trial_in (words_of accepted.now.grammar) (grammar_of accepted.now.grammar) 2000 n) result }
{
    let mut world = SiteWorld::new(alloc, accepted, false)?;
    try_in(&mut world, n)
}

/// A trial in the world of the trial's grammar, which is dropped then.
fn try_once(alloc: Global, n: u64) -> Result<Summary, PrintFault>
    ensures { Tells (trial n) result }
{
    let accepted = trial_accepted(alloc)?;
    trial_in(alloc, &accepted, n)
}

/// A trial: 2,000 turns that are drawn from a number, each of which starts a case, makes a choice or delivers a message; then everything
/// is settled and counted. It is too large exactly where the artifact lines would be longer than an output may be.
pub fn trial(alloc: Global, n: u64) -> Result<Summary, PrintFault>
    ensures summary { IfOk result (λ s. s ≡ trial n) }
    ensures within { IfOk result (λ s. s.bytes ≤ OUTPUT_LIMIT) }
    ensures too_large { result ≡ Err PrintFault.TooLarge → OUTPUT_LIMIT < (trial n).bytes }
{
    try_once(alloc, n)
}
