//! The lines of events.
ghost use Rattle.std.specs.Prelude.{◌≡◌, ◌++◌, [], codes, decimal, OnOk};
ghost use Rattle.aw_choice.specs.ChoiceView.{choice_of};
ghost use Rattle.aw_choice.specs.Events.{Chooses, Lists};
ghost use Rattle.aw_grammar.specs.GrammarOf.{words_of};
ghost use Rattle.aw_sched.specs.Answers.{event_seen};
ghost use Rattle.aw_sched_writer.specs.EventTexts.{asked_text, event_line};

use crate::arguments::push_args;
use aw_base::{Choice, NameWriter, push_choice, role_name};
use aw_list::Text;
use aw_sched::Event;
use aw_spelling::push_number;
use std::alloc::AllocError;

/// Adds a choice as a schedule asks for it, with its arguments: `choose visit#1 admit {"Ada"}`. An error may leave a part of it.
pub fn push_asked(
    text: &mut Text,
    names: &mut NameWriter<'_>,
    choice: &Choice,
) -> Result<(), AllocError>
    ensures text { OnOk result (text.new ≡ text.old ++ asked_text (words_of names.old.grammar.now) (choice_of choice.now)) }
    ensures grammar { names.new.grammar.now ≡ names.old.grammar.now }
{
    push_choice(text, names, choice)?;
    match choice {
        Choice::Start { .. } => Ok(()),
        Choice::Develop { args, .. } => push_args(text, names.grammar(), args.as_slice()),
    }
}

/// Adds the line that asks for a choice. An error may leave a part of it.
pub fn push_asked_line(
    text: &mut Text,
    names: &mut NameWriter<'_>,
    choice: &Choice,
) -> Result<(), AllocError>
    ensures text { OnOk result (text.new ≡ text.old ++ event_line (words_of names.old.grammar.now) (Chooses (choice_of choice.now))) }
    ensures grammar { names.new.grammar.now ≡ names.old.grammar.now }
{
    push_asked(text, names, choice)?;
    text.push(b'\n')
}

/// Adds the line of a delivery, as `deliver 3`. An error may leave a part of it.
pub fn push_deliver_line(text: &mut Text, message: u64) -> Result<(), AllocError>
    ensures { OnOk result (text.new ≡ text.old ++ (codes "deliver " ++ (decimal message ++ codes "\n"))) }
{
    text.push_array(b"deliver ")?;
    push_number(text, message)?;
    text.push(b'\n')
}

/// Adds the line that asks for the worklist of a role, as `list lab`.
fn push_list_line(text: &mut Text, names: &mut NameWriter<'_>, role: u16) -> Result<(), AllocError>
    ensures text { OnOk result (text.new ≡ text.old ++ event_line (words_of names.old.grammar.now) (Lists role)) }
    ensures grammar { names.new.grammar.now ≡ names.old.grammar.now }
{
    text.push_array(b"list ")?;
    text.push_bytes(role_name(names.grammar(), role))?;
    text.push(b'\n')
}

/// Adds the line of an event of a schedule. An error may leave a part of it.
pub fn push_event_line(
    text: &mut Text,
    names: &mut NameWriter<'_>,
    event: &Event,
) -> Result<(), AllocError>
    ensures text { OnOk result (text.new ≡ text.old ++ event_line (words_of names.old.grammar.now) (event_seen event.now)) }
    ensures grammar { names.new.grammar.now ≡ names.old.grammar.now }
{
    match event {
        Event::Choose(choice) => push_asked_line(text, names, choice.get()),
        Event::Deliver(message) => push_deliver_line(text, *message),
        Event::Settle => text.push_array(b"settle\n"),
        Event::List(role) => push_list_line(text, names, *role),
    }
}
