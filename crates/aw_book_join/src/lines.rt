//! The lines of tasks, which are printed one after the other and written as they come.
ghost use Rattle.std.specs.Prelude.{◌≡◌, ◌<◌, ◌≤◌, [], true, length, OnOk};
ghost use Rattle.aw_grammar.specs.GrammarOf.{grammar_of};
ghost use Rattle.aw_print.specs.Stacks.{IsNew};
ghost use Rattle.aw_term.specs.SameGrammar.{same_grammar};
ghost use Rattle.aw_book_join.specs.Handing.{Hands, CountsWrites};
ghost use Rattle.aw_book_join.specs.Lines.{IsReady, IsNoLine, IsNoWrite, TellsFault, PrintsTask, HandsTask, HandsTasks, WritesLines};

use crate::fault::TasksFault;
use crate::view::{View, is_asked};
use aw_accept::Accepted;
use aw_base::NameWriter;
use aw_grammar::Grammar;
use aw_name::copy_node;
use aw_node_list::Held;
use aw_out::{PrintFault, Report, Sink, write_all};
use aw_print::Printer;
use aw_world::Workspace;
use std::alloc::Global;

/// A line of so many bytes is printed for certain.
pub const LINE_LIMIT: usize = 67_108_864;

/// So many bytes are gathered before they are written.
pub(crate) const PIECE: usize = 1_048_576;

/// Room for both.
const ROOM: usize = LINE_LIMIT + PIECE;

// The definitions cite them by number.
const _: () = prove!(LINE_LIMIT == 67_108_864 && PIECE == 1_048_576 && ROOM == 68_157_440);

/// What prints the lines of one workspace, and the text that is left to be written.
#[derive(Drop)]
pub(crate) struct Lines<'g> {
    pub(crate) alloc: Global,
    pub(crate) names: NameWriter<'g>,
    pub(crate) printer: Printer,
    pub(crate) report: Report,
}

impl<'g> Lines<'g> {
    /// Nothing was printed. It takes no memory.
    pub(crate) fn new(alloc: Global, grammar: &'g Grammar) -> Lines<'g>
        ensures named { result.names.grammar.now ≡ grammar.now }
        ensures printer { IsNew result.printer }
        ensures report { result.report ≡ record { text = []; limit = 68157440 } }
    {
        Lines {
            alloc,
            names: NameWriter::new(alloc, grammar),
            printer: Printer::new(alloc),
            report: Report::new(alloc, ROOM),
        }
    }
}

/// Why a line was not printed: where it is too long, it is that of this node.
fn fault_at(held: &Held, fault: PrintFault) -> TasksFault
    ensures { TellsFault held.now fault result }
{
    match fault {
        PrintFault::TooLarge => match copy_node(&held.node) {
            Ok(task) => TasksFault::TooLong(task),
            Err(_) => TasksFault::NoMemory,
        },
        PrintFault::NoMemory => TasksFault::NoMemory,
    }
}

/// Prints the line of the task at a place.
fn print_task<W: Workspace>(
    site: &W,
    accepted: &Accepted,
    place: usize,
    lines: &mut Lines<'_>,
) -> Result<(), TasksFault>
    requires grammar { same_grammar (W.its_grammar site.now) (grammar_of accepted.now.grammar) ≡ true }
    requires place { place < length (W.its_nodes site.now) }
    requires ready { IsReady ⟦<W as Workspace>⟧ site.now accepted.now.grammar lines.old }
    ensures named { lines.new.names.grammar.now ≡ lines.old.names.grammar.now }
    ensures keeps { W.keeps site.now accepted.now.grammar lines.new.report lines.new.printer }
    ensures limit { lines.new.report.limit ≡ lines.old.report.limit }
    ensures prints { PrintsTask ⟦<W as Workspace>⟧ site.now accepted.now.grammar place lines.old.report lines.new.report result }
    ensures no_write { IsNoWrite result }
{
    let printed = site.print_row(
        lines.alloc,
        accepted,
        place,
        &mut lines.names,
        &mut lines.printer,
        &mut lines.report,
    );
    match printed {
        Ok(()) => Ok(()),
        Err(fault) => Err(fault_at(site.nodes().at(place), fault)),
    }
}

/// Writes what is left, if it is much, and begins anew.
fn pass_on<W: Workspace, K: Sink>(
    site: &W,
    accepted: &Accepted,
    lines: &mut Lines<'_>,
    out: &mut K,
) -> Result<(), TasksFault>
    requires keeps { W.keeps site.now accepted.now.grammar lines.old.report lines.old.printer }
    ensures named { lines.new.names.grammar.now ≡ lines.old.names.grammar.now }
    ensures keeps { OnOk result (W.keeps site.now accepted.now.grammar lines.new.report lines.new.printer) }
    ensures limit { lines.new.report.limit ≡ lines.old.report.limit }
    ensures short { OnOk result (length lines.new.report.text ≤ 1048576) }
    ensures hands { Hands (K.written out.old) (K.written out.new) lines.old.report.text lines.new.report.text result }
    ensures counts { CountsWrites (K.faults out.old) (K.faults out.new) result }
    ensures no_line { IsNoLine result }
{
    if lines.report.bytes().len() <= PIECE {
        return Ok(());
    }
    write_all(out, lines.report.bytes())?;
    lines.report = Report::new(lines.alloc, lines.report.limit());
    lines.printer = Printer::new(lines.alloc);
    Ok(())
}

/// Prints the line of the task at a place, if it is asked for, and writes what is left, if it is much.
fn print_next<W: Workspace, K: Sink>(
    site: &W,
    accepted: &Accepted,
    view: &View,
    place: usize,
    lines: &mut Lines<'_>,
    out: &mut K,
) -> Result<(), TasksFault>
    requires grammar { same_grammar (W.its_grammar site.now) (grammar_of accepted.now.grammar) ≡ true }
    requires place { place < length (W.its_nodes site.now) }
    requires ready { IsReady ⟦<W as Workspace>⟧ site.now accepted.now.grammar lines.old }
    ensures ready { OnOk result (IsReady ⟦<W as Workspace>⟧ site.now accepted.now.grammar lines.new) }
    ensures hands { HandsTask ⟦<W as Workspace>⟧ site.now accepted.now.grammar view.now place
        lines.old.report.text lines.new.report.text (K.written out.old) (K.written out.new) result }
    ensures counts { CountsWrites (K.faults out.old) (K.faults out.new) result }
{
    if !is_asked(view, site.nodes().at(place)) {
        return Ok(());
    }
    print_task(site, accepted, place, lines)?;
    pass_on(site, accepted, lines, out)
}

/// Prints the lines of all tasks that are asked for, and writes all of them but the last.
fn print_each<W: Workspace, K: Sink>(
    site: &W,
    accepted: &Accepted,
    view: &View,
    lines: &mut Lines<'_>,
    out: &mut K,
) -> Result<(), TasksFault>
    requires grammar { same_grammar (W.its_grammar site.now) (grammar_of accepted.now.grammar) ≡ true }
    requires ready { IsReady ⟦<W as Workspace>⟧ site.now accepted.now.grammar lines.old }
    ensures hands { HandsTasks ⟦<W as Workspace>⟧ site.now accepted.now.grammar view.now
        lines.old.report.text lines.new.report.text (K.written out.old) (K.written out.new) result }
    ensures counts { CountsWrites (K.faults out.old) (K.faults out.new) result }
{
    for place in 0..site.nodes().len() {
        print_next(site, accepted, view, place, lines, out)?;
    }
    Ok(())
}

/// Writes the lines of all tasks that are asked for.
pub(crate) fn write_lines<W: Workspace, K: Sink>(
    alloc: Global,
    accepted: &Accepted,
    site: &W,
    view: &View,
    out: &mut K,
) -> Result<(), TasksFault>
    requires { same_grammar (W.its_grammar site.now) (grammar_of accepted.now.grammar) ≡ true }
    ensures writes { WritesLines ⟦<W as Workspace>⟧ site.now accepted.now.grammar view.now (K.written out.old) (K.written out.new) result }
    ensures counts { CountsWrites (K.faults out.old) (K.faults out.new) result }
{
    let mut lines = Lines::new(alloc, accepted.grammar());
    print_each(site, accepted, view, &mut lines, out)?;
    write_all(out, lines.report.bytes())?;
    Ok(())
}
