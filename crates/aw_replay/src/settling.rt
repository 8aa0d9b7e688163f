//! Settling a world: what each delivery tells goes into the report before the next one is made.
ghost use Rattle.std.specs.Prelude.{◌≡◌, OnOk, OnErr, codes, ◌++◌, decimal};
ghost use Rattle.aw_choice.specs.Events as E;
ghost use Rattle.aw_law_sites.specs.Worlds as V;
ghost use Rattle.aw_out.specs.Report.{Prints};
ghost use Rattle.aw_replay.specs.Telling.{Steps, PrintsStep, StepsOrNot, Does, PrintsEvent, DoesSome};

use crate::lines::push_settled;
use crate::telling::tell_delivery;
use aw_base::NameWriter;
use aw_list::Text;
use aw_out::{PrintFault, Report};
use aw_world::{Workspace, World};

/// Delivers a message, and prints its lines, which are gathered in a text. After an error it was delivered or not.
pub(crate) fn print_delivery<W: Workspace>(
    world: &mut World<W>,
    number: u64,
    names: &mut NameWriter<'_>,
    text: &mut Text,
    report: &mut Report,
) -> Result<(), PrintFault>
    requires named { names.old.grammar.now ≡ world.old.accepted.now.grammar }
    ensures accepted { world.new.accepted.now ≡ world.old.accepted.now }
    ensures loads { world.new.loads ≡ world.old.loads }
    ensures stepped { OnOk result (Steps ⟦<W as Workspace>⟧ world.old world.new (V.Delivers number)) }
    ensures prints { PrintsStep ⟦<W as Workspace>⟧ world.old (V.Delivers number) report.old report.new result }
    ensures some { OnErr result (StepsOrNot ⟦<W as Workspace>⟧ world.old world.new (V.Delivers number)) }
    ensures names { names.new.grammar.now ≡ names.old.grammar.now }
{
    text.truncate(0);
    tell_delivery(world, number, names, text)?;
    report.push(text.as_slice())
}

/// Prints the line that ends a settling.
fn print_settled(text: &mut Text, count: u64, report: &mut Report) -> Result<(), PrintFault>
    ensures { Prints (codes "settled " ++ (decimal count ++ codes "\n")) report.old report.new result }
{
    text.truncate(0);
    push_settled(text, count)?;
    report.push(text.as_slice())
}

/// Delivers the first message that was not delivered, again and again, and prints the lines of each delivery behind it. After an error
/// some of these deliveries were made.
pub(crate) fn print_settling<W: Workspace>(
    world: &mut World<W>,
    names: &mut NameWriter<'_>,
    text: &mut Text,
    report: &mut Report,
) -> Result<(), PrintFault>
    requires named { names.old.grammar.now ≡ world.old.accepted.now.grammar }
    ensures accepted { world.new.accepted.now ≡ world.old.accepted.now }
    ensures loads { world.new.loads ≡ world.old.loads }
    ensures does { OnOk result (Does ⟦<W as Workspace>⟧ world.old world.new E.Settles) }
    ensures prints { PrintsEvent ⟦<W as Workspace>⟧ world.old E.Settles report.old report.new result }
    ensures some { OnErr result (DoesSome ⟦<W as Workspace>⟧ world.old world.new E.Settles) }
    ensures names { names.new.grammar.now ≡ names.old.grammar.now }
{
    let before = world.delivered();
    while let Some(number) = world.quiet() {
        print_delivery(world, number, names, text, report)?;
    }
    print_settled(text, world.delivered() - before, report)
}
