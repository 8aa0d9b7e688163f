//! The tasks of a workspace.
ghost use Rattle.std.specs.Prelude.{◌≡◌, true};
ghost use Rattle.aw_grammar.specs.GrammarOf.{grammar_of};
ghost use Rattle.aw_term.specs.SameGrammar.{same_grammar};
ghost use Rattle.aw_book_join.specs.Handing.{CountsWrites};
ghost use Rattle.aw_book_join.specs.Writing.{WritesTasks};

use crate::fault::TasksFault;
use crate::items::write_items;
use crate::lines::write_lines;
use crate::view::View;
use aw_accept::Accepted;
use aw_out::Sink;
use aw_world::Workspace;
use std::alloc::Global;

/// Writes the tasks of a workspace that are asked for: a line for each as artifacts are written, its values unfolded over the equations of
/// the workspace, where `?visit#1:r1` stands for what has not come. Behind them stands how each rule stands at the open ones. The memory
/// that it takes is that of one line beside the worklist.
///
/// # Errors
/// `WriteFault` where the sink failed; `TooLong` where the line of a task is longer than `LINE_LIMIT`, and which task that is; `NoMemory`.
/// What was written is then the front of the text.
pub fn write_tasks<W: Workspace, K: Sink>(
    alloc: Global,
    accepted: &Accepted,
    site: &W,
    view: &View,
    out: &mut K,
) -> Result<(), TasksFault>
    requires { same_grammar (W.its_grammar site.now) (grammar_of accepted.now.grammar) ≡ true }
    ensures writes { WritesTasks accepted.now.grammar view.now (W.seen site.now) (K.written out.old) (K.written out.new) result }
    ensures counts { CountsWrites (K.faults out.old) (K.faults out.new) result }
{
    write_lines(alloc, accepted, site, view, out)?;
    let items = site.list()?;
    write_items(alloc, accepted.grammar(), &view.case, items.as_slice(), out)
}
