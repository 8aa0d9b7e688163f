//! The lines of the events of a journal.
ghost use Rattle.std.specs.Prelude.{◌≡◌, ◌++◌, OnOk};
ghost use Rattle.aw_grammar.specs.GrammarOf.{grammar_of, words_of};
ghost use Rattle.aw_journal.specs.Events.{Got};
ghost use Rattle.aw_journal.specs.EventView.{event_of};
ghost use Rattle.aw_book_read.specs.EventLines.{event_line};

use aw_base::NameWriter;
use aw_journal::NodeEvent;
use aw_list::Text;
use aw_msg::Message;
use aw_msg_print::push_kind;
use aw_sched_writer::push_asked_line;
use std::alloc::AllocError;

/// Adds the line of a message that came, as `got ask visit#1:p2 from lab`.
fn push_got_line(
    text: &mut Text,
    names: &mut NameWriter<'_>,
    message: &Message,
) -> Result<(), AllocError>
    ensures text { OnOk result (text.new ≡ text.old ++ event_line (words_of names.old.grammar.now) (grammar_of names.old.grammar.now) (Got message.now)) }
    ensures grammar { names.new.grammar.now ≡ names.old.grammar.now }
{
    text.push_array(b"got")?;
    push_kind(text, names, message.kind.get())?;
    text.push(b'\n')
}

/// Adds the line of an event of a journal. An error may leave a part of it.
pub fn push_event(
    text: &mut Text,
    names: &mut NameWriter<'_>,
    event: &NodeEvent,
) -> Result<(), AllocError>
    ensures text { OnOk result (text.new ≡ text.old ++ event_line (words_of names.old.grammar.now) (grammar_of names.old.grammar.now) (event_of event.now)) }
    ensures grammar { names.new.grammar.now ≡ names.old.grammar.now }
{
    match event {
        NodeEvent::Took(choice) => push_asked_line(text, names, choice),
        NodeEvent::Got(message) => push_got_line(text, names, message),
    }
}
