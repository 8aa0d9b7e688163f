//! A replay, event by event.
ghost use Rattle.std.specs.Prelude.{◌≡◌, [], Err, OnErr, OnOk};
ghost use Rattle.aw_sched.specs.Answers.{event_seen, MayCome};
ghost use Rattle.aw_world.specs.WorldView.{plain_of};
ghost use Rattle.aw_replay.specs.Replays.{Ends, HasHeadline, HasTold, IsNamed, IsPastLimit, MakesSome, TellsMore};
ghost use Rattle.aw_replay.specs.Telling.{EndsReport, IsNew};

use crate::ending::print_ending;
use crate::replaying::{roomy_text, tell_event};
use aw_base::NameWriter;
use aw_list::Text;
use aw_out::{OUTPUT_LIMIT, PrintFault, Report};
use aw_sched::Event;
use aw_world::{Workspace, World};

/// What a replay that is under way has told of its world, and what serves one event after another, the text of an event's lines and the
/// names that were written last.
#[derive(Drop)]
pub struct Replay<'g> {
    names: NameWriter<'g>,
    text: Text,
    report: Report,
}

/// A report with the ending of a world behind what it has.
fn print_ended<W: Workspace>(world: &World<W>, mut report: Report) -> Result<Report, PrintFault>
    ensures { EndsReport ⟦<W as Workspace>⟧ world.now report result }
{
    print_ending(world, &mut report)?;
    Ok(report)
}

impl<'g> Replay<'g> {
    /// No event was replayed, in a world in which nothing happened yet.
    pub fn new<W: Workspace>(world: &World<'g, W>) -> Replay<'g>
        requires { IsNew ⟦<W as Workspace>⟧ world.now }
        ensures named { IsNamed ⟦<W as Workspace>⟧ (world.now, result) }
        ensures told { HasTold ⟦<W as Workspace>⟧ (world.now, result) world.now.accepted.now world.now.loads [] }
    {
        let alloc = world.allocator();
        Replay {
            names: NameWriter::new(alloc, world.accepted().grammar()),
            text: roomy_text(alloc),
            report: Report::new(alloc, OUTPUT_LIMIT),
        }
    }

    /// Does in its world what an event asks for, and tells its lines. It is too large only where all lines together would be longer than
    /// an output may be. After an error some first choices and deliveries of the event were made, and it is no good for more events.
    pub fn tell<W: Workspace>(
        &mut self,
        world: &mut World<W>,
        event: &Event,
    ) -> Result<(), PrintFault>
        requires named { IsNamed ⟦<W as Workspace>⟧ (world.old, self.old) }
        requires may_come { MayCome (plain_of world.old) event.now }
        ensures named { IsNamed ⟦<W as Workspace>⟧ (world.new, self.new) }
        ensures accepted { world.new.accepted.now ≡ world.old.accepted.now }
        ensures loads { world.new.loads ≡ world.old.loads }
        ensures tells { OnOk result (TellsMore ⟦<W as Workspace>⟧ (world.old, self.old) (world.new, self.new) (event_seen event.now)) }
        ensures too_large { result ≡ Err PrintFault.TooLarge → IsPastLimit ⟦<W as Workspace>⟧ (world.old, self.old) (event_seen event.now) }
        ensures some { OnErr result (MakesSome ⟦<W as Workspace>⟧ (world.old, self.old) (world.new, self.new) (event_seen event.now)) }
    {
        tell_event(
            world,
            event,
            &mut self.names,
            &mut self.text,
            &mut self.report,
        )
    }

    /// Tells the ending behind the lines of all events: the artifacts where every message was delivered, and otherwise how many were
    /// not. It is too large exactly where the text would be longer than an output may be.
    pub fn finish<W: Workspace>(self, world: &World<W>) -> Result<Report, PrintFault>
        requires { IsNamed ⟦<W as Workspace>⟧ (world.now, self) }
        ensures ends { Ends ⟦<W as Workspace>⟧ (world.now, self.entry) result }
        ensures headline { HasHeadline ⟦<W as Workspace>⟧ (world.now, self.entry) }
    {
        let Replay { report, .. } = self;
        print_ended(world, report)
    }
}
