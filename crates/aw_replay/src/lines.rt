//! The lines of events.
ghost use Rattle.std.specs.Prelude.{◌≡◌, ◌++◌, codes, decimal, OnOk};
ghost use Rattle.aw_choice.specs.ChoiceView.{choice_of};
ghost use Rattle.aw_grammar.specs.GrammarOf.{words_of};
ghost use Rattle.aw_law_sites.specs.Transcripts.{answered, deliver_line};
ghost use Rattle.aw_term.specs.Runs.{answer_line};
ghost use Rattle.aw_world.specs.MoveView.{reply_of};
ghost use Rattle.aw_replay.specs.Telling.{sent_after};

use aw_base::{NameWriter, push_choice_line};
use aw_choice::{Answer, Choice};
use aw_list::Text;
use aw_msg::Message;
use aw_msg_print::push_sent;
use aw_spelling::push_number;
use aw_world::Reply;
use std::alloc::AllocError;

/// Adds the line of a choice and what it was answered.
fn push_answered(
    text: &mut Text,
    names: &mut NameWriter<'_>,
    choice: &Choice,
    reply: &Reply,
) -> Result<(), AllocError>
    ensures text { OnOk result (text.new ≡ text.old ++ answer_line (words_of names.old.grammar.now) (choice_of choice.now) (answered (reply_of reply.now))) }
    ensures grammar { names.new.grammar.now ≡ names.old.grammar.now }
{
    match reply {
        Reply::Choice(answer) => push_choice_line(text, names, choice, answer),
        _ => push_choice_line(text, names, choice, &Answer::NotHere),
    }
}

/// Adds what was replied to a delivery.
fn push_with<const N: usize>(
    text: &mut Text,
    number: u64,
    reply: &[u8; N],
) -> Result<(), AllocError>
    ensures { OnOk result (text.new ≡ text.old ++ (codes "deliver " ++ (decimal number ++ reply.now))) }
{
    text.push_array(b"deliver ")?;
    push_number(text, number)?;
    text.push_array(reply)
}

/// Adds the line of a delivery.
fn push_delivered(text: &mut Text, number: u64, reply: &Reply) -> Result<(), AllocError>
    ensures { OnOk result (text.new ≡ text.old ++ deliver_line number (reply_of reply.now)) }
{
    match reply {
        Reply::Choice(_) => Ok(()),
        Reply::New => push_with(text, number, b": new\n"),
        Reply::Again => push_with(text, number, b": again\n"),
        Reply::NoMessage => push_with(text, number, b": no message\n"),
    }
}

/// Adds the line that ends a settling.
pub(crate) fn push_settled(text: &mut Text, count: u64) -> Result<(), AllocError>
    ensures { OnOk result (text.new ≡ text.old ++ (codes "settled " ++ (decimal count ++ codes "\n"))) }
{
    text.push_array(b"settled ")?;
    push_number(text, count)?;
    text.push(b'\n')
}

/// Adds the lines of a delivery and of what it sent.
pub(crate) fn push_delivery(
    text: &mut Text,
    names: &mut NameWriter<'_>,
    number: u64,
    reply: Reply,
    messages: &[Message],
    before: usize,
) -> Result<(), AllocError>
    ensures text { OnOk result (text.new ≡ text.old ++ (deliver_line number (reply_of reply) ++ sent_after names.old.grammar.now before messages.now)) }
    ensures grammar { names.new.grammar.now ≡ names.old.grammar.now }
{
    push_delivered(text, number, &reply)?;
    push_sent(text, names, messages, before)
}

/// Adds the lines of a choice and of what it sent.
pub(crate) fn push_chosen(
    text: &mut Text,
    names: &mut NameWriter<'_>,
    choice: &Choice,
    reply: Reply,
    messages: &[Message],
    before: usize,
) -> Result<(), AllocError>
    ensures text { OnOk result (text.new ≡ text.old ++ (answer_line (words_of names.old.grammar.now) (choice_of choice.now) (answered (reply_of reply)) ++ sent_after names.old.grammar.now before messages.now)) }
    ensures grammar { names.new.grammar.now ≡ names.old.grammar.now }
{
    push_answered(text, names, choice, &reply)?;
    push_sent(text, names, messages, before)
}
