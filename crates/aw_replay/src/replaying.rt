//! Events replayed in a world.
ghost use Rattle.std.specs.Prelude.{◌≡◌, ◌<◌, true, length, map, Err, IfOk, OnOk, OnErr};
ghost use Rattle.aw_base.specs.ChoiceFits.{choice_ok};
ghost use Rattle.aw_choice.specs.ChoiceView.{choice_of};
ghost use Rattle.aw_choice.specs.Events as E;
ghost use Rattle.aw_law_worlds.specs.Headline.{HeadlineHolds};
ghost use Rattle.aw_out.specs.Report.{Prints};
ghost use Rattle.aw_law_sites.specs.Outputs.{output_of};
ghost use Rattle.aw_sched.specs.Answers.{event_seen, MayCome};
ghost use Rattle.aw_term.specs.WellFormed.{Each};
ghost use Rattle.aw_world.specs.WorldView.{plain_of, named_by};
ghost use Rattle.aw_replay.specs.Telling.{Does, DoesSome, PrintsEvent, DoesAll, DoesFirst, PrintsAll, IsNew, SettlingEnds};

use crate::ending::print_ending;
use crate::settling::{print_delivery, print_settling};
use crate::telling::{choice_lines, list_lines};
use aw_base::NameWriter;
use aw_choice::Choice;
use aw_list::{Counted, Text};
use aw_out::{OUTPUT_LIMIT, PrintFault, Report};
use aw_sched::Event;
use aw_world::{Workspace, World};
use std::alloc::Global;

/// The room of a text to begin with: what one event tells mostly fits.
const USUAL: usize = 512;

/// A text, with room for the lines of a usual event where there is memory for it.
pub(crate) fn roomy_text(alloc: Global) -> Text {
    match Vec::with_capacity(alloc, USUAL) {
        Ok(bytes) => Text::from_vec(bytes),
        Err(_) => Text::new(alloc),
    }
}

/// Makes a choice, and prints its lines, which are gathered in a text. After an error it was made or not.
fn print_choice<W: Workspace>(
    world: &mut World<W>,
    choice: &Counted<Choice>,
    names: &mut NameWriter<'_>,
    text: &mut Text,
    report: &mut Report,
) -> Result<(), PrintFault>
    requires named { names.old.grammar.now ≡ world.old.accepted.now.grammar }
    requires ok { choice_ok (plain_of world.old) (choice_of choice.now) ≡ true }
    ensures accepted { world.new.accepted.now ≡ world.old.accepted.now }
    ensures loads { world.new.loads ≡ world.old.loads }
    ensures does { OnOk result (Does ⟦<W as Workspace>⟧ world.old world.new (E.Chooses (choice_of choice.now))) }
    ensures prints { PrintsEvent ⟦<W as Workspace>⟧ world.old (E.Chooses (choice_of choice.now)) report.old report.new result }
    ensures some { OnErr result (DoesSome ⟦<W as Workspace>⟧ world.old world.new (E.Chooses (choice_of choice.now))) }
    ensures names { names.new.grammar.now ≡ names.old.grammar.now }
{
    text.truncate(0);
    choice_lines(world, choice, names, text)?;
    report.push(text.as_slice())
}

/// Prints the lines of a worklist, which are gathered in a text.
fn print_list<W: Workspace>(
    world: &World<W>,
    role: u16,
    names: &mut NameWriter<'_>,
    text: &mut Text,
    report: &mut Report,
) -> Result<(), PrintFault>
    requires named { names.old.grammar.now ≡ world.now.accepted.now.grammar }
    requires role { role < (plain_of world.now).roles }
    ensures prints { PrintsEvent ⟦<W as Workspace>⟧ world.now (E.Lists role) report.old report.new result }
    ensures names { names.new.grammar.now ≡ names.old.grammar.now }
{
    text.truncate(0);
    list_lines(world, role, names, text)?;
    report.push(text.as_slice())
}

/// Does what an event asks for, and prints its lines. They are gathered in a text that serves one step after another, as do the names
/// that were written. After an error some first choices and deliveries of it were made.
pub(crate) fn tell_event<W: Workspace>(
    world: &mut World<W>,
    event: &Event,
    names: &mut NameWriter<'_>,
    text: &mut Text,
    report: &mut Report,
) -> Result<(), PrintFault>
    requires may_come { MayCome (plain_of world.old) event.now }
    requires named { names.old.grammar.now ≡ world.old.accepted.now.grammar }
    ensures accepted { world.new.accepted.now ≡ world.old.accepted.now }
    ensures loads { world.new.loads ≡ world.old.loads }
    ensures does { OnOk result (Does ⟦<W as Workspace>⟧ world.old world.new (event_seen event.now)) }
    ensures prints { PrintsEvent ⟦<W as Workspace>⟧ world.old (event_seen event.now) report.old report.new result }
    ensures some { OnErr result (DoesSome ⟦<W as Workspace>⟧ world.old world.new (event_seen event.now)) }
    ensures names { names.new.grammar.now ≡ names.old.grammar.now }
{
    match event {
        Event::Choose(choice) => print_choice(world, choice, names, text, report),
        Event::Deliver(number) => print_delivery(world, *number, names, text, report),
        Event::Settle => print_settling(world, names, text, report),
        Event::List(role) => print_list(world, *role, names, text, report),
    }
}

/// Does what all events ask for, in order, and prints their lines. After an error some first choices and deliveries were made.
pub fn tell_events<W: Workspace>(
    world: &mut World<W>,
    events: &[Event],
    report: &mut Report,
) -> Result<(), PrintFault>
    requires { Each (MayCome (plain_of world.old)) events.now }
    ensures accepted { world.new.accepted.now ≡ world.old.accepted.now }
    ensures loads { world.new.loads ≡ world.old.loads }
    ensures does { OnOk result (DoesAll ⟦<W as Workspace>⟧ world.old world.new (map event_seen events.now)) }
    ensures prints { PrintsAll ⟦<W as Workspace>⟧ world.old (map event_seen events.now) report.old report.new result }
    ensures some { OnErr result (DoesFirst ⟦<W as Workspace>⟧ world.old world.new (map event_seen events.now)) }
{
    let alloc = world.allocator();
    let mut names = NameWriter::new(alloc, world.accepted().grammar());
    let mut text = roomy_text(alloc);
    for event in events {
        tell_event(world, event, &mut names, &mut text, report)?;
    }
    Ok(())
}

/// Replays events into a report.
fn replay_into<W: Workspace>(
    world: &mut World<W>,
    events: &[Event],
    report: &mut Report,
) -> Result<(), PrintFault>
    requires may_come { Each (MayCome (plain_of world.old)) events.now }
    requires new { IsNew ⟦<W as Workspace>⟧ world.old }
    ensures accepted { world.new.accepted.now ≡ world.old.accepted.now }
    ensures loads { world.new.loads ≡ world.old.loads }
    ensures prints { Prints (output_of (named_by world.old) (plain_of world.old) world.old.loads (map event_seen events.now)) report.old report.new result }
    ensures does { OnOk result (DoesAll ⟦<W as Workspace>⟧ world.old world.new (map event_seen events.now)) }
    ensures some { OnErr result (DoesFirst ⟦<W as Workspace>⟧ world.old world.new (map event_seen events.now)) }
{
    tell_events(world, events, report)?;
    print_ending(world, report)
}

/// Replays events in a world in which nothing happened yet: the lines of all events, and then the artifacts where every message was
/// delivered, and otherwise how many were not. It is too large exactly where the text would be longer than an output may be. After an
/// error some first choices and deliveries of the events were made in the world.
pub fn replay<W: Workspace>(world: &mut World<W>, events: &[Event]) -> Result<Report, PrintFault>
    requires may_come { Each (MayCome (plain_of world.old)) events.now }
    requires new { IsNew ⟦<W as Workspace>⟧ world.old }
    ensures accepted { world.new.accepted.now ≡ world.old.accepted.now }
    ensures loads { world.new.loads ≡ world.old.loads }
    ensures output { IfOk result (λ report. report.text ≡ output_of (named_by world.old) (plain_of world.old) world.old.loads (map event_seen events.now)) }
    ensures limit { IfOk result (λ report. report.limit ≡ OUTPUT_LIMIT) }
    ensures too_large { result ≡ Err PrintFault.TooLarge → OUTPUT_LIMIT < length (output_of (named_by world.old) (plain_of world.old) world.old.loads (map event_seen events.now)) }
    ensures does { OnOk result (DoesAll ⟦<W as Workspace>⟧ world.old world.new (map event_seen events.now)) }
    ensures some { OnErr result (DoesFirst ⟦<W as Workspace>⟧ world.old world.new (map event_seen events.now)) }
    ensures settles { SettlingEnds (plain_of world.old) world.old.loads (map event_seen events.now) }
    ensures headline { ∥ HeadlineHolds (named_by world.old) (plain_of world.old) world.old.loads (map event_seen events.now) ∥₁ }
{
    let mut report = Report::new(world.allocator(), OUTPUT_LIMIT);
    replay_into(world, events, &mut report)?;
    let _text = report.bytes();
    Ok(report)
}
