//! What is written behind the lines of all events.
ghost use Rattle.std.specs.Prelude.{◌≡◌, None, IfOk};
ghost use Rattle.aw_out.specs.Report.{Prints};
ghost use Rattle.aw_law_sites.specs.Worlds as V;
ghost use Rattle.aw_world.specs.Marks.{marks};
ghost use Rattle.aw_world.specs.Shown.{first_open};
ghost use Rattle.aw_replay.specs.Telling.{PrintsEnding, PrintsQuiet, undelivered_line, artifacts_line};

use aw_base::push_artifacts_line;
use aw_list::Text;
use aw_out::{PrintFault, Report};
use aw_spelling::push_number;
use aw_world::{Workspace, World};
use std::alloc::{AllocError, Global};

/// How many messages were never delivered.
fn undelivered_line(alloc: Global, count: u64) -> Result<Text, AllocError>
    ensures { IfOk result (λ text. text ≡ undelivered_line count) }
{
    let mut text = Text::from_bytes(alloc, b"undelivered ")?;
    push_number(&mut text, count)?;
    text.push(b'\n')?;
    Ok(text)
}

/// Prints how many messages were never delivered.
fn print_undelivered<W: Workspace>(world: &World<W>, report: &mut Report) -> Result<(), PrintFault>
    ensures { Prints (undelivered_line (V.count_open (marks world.now.messages world.now.marks.delivered.items))) report.old report.new result }
{
    let text = undelivered_line(world.allocator(), world.undelivered())?;
    report.push(text.as_slice())
}

/// The line that stands before so many artifacts.
fn artifacts_line(alloc: Global, count: usize) -> Result<Text, AllocError>
    ensures { IfOk result (λ text. text ≡ artifacts_line count) }
{
    let mut text = Text::new(alloc);
    push_artifacts_line(&mut text, count)?;
    Ok(text)
}

/// Prints the artifacts of a world in which every message was delivered.
fn print_artifacts<W: Workspace>(world: &World<W>, report: &mut Report) -> Result<(), PrintFault>
    requires { first_open world.now ≡ None }
    ensures { PrintsQuiet ⟦<W as Workspace>⟧ world.now report.old report.new result }
{
    let spots = world.in_order()?;
    let line = artifacts_line(world.allocator(), spots.len())?;
    report.push(line.as_slice())?;
    world.print_rows(spots.as_slice(), report)
}

/// Prints the artifacts where every message was delivered, and otherwise how many were not.
pub(crate) fn print_ending<W: Workspace>(
    world: &World<W>,
    report: &mut Report,
) -> Result<(), PrintFault>
    ensures { PrintsEnding ⟦<W as Workspace>⟧ world.now report.old report.new result }
{
    match world.quiet() {
        Some(_) => print_undelivered(world, report),
        None => print_artifacts(world, report),
    }
}
