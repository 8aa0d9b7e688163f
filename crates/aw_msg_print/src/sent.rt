//! The lines of messages that were sent.
ghost use Rattle.std.specs.Prelude.{◌≡◌, ◌++◌, [], codes, flat_map, map, drop, OnOk};
ghost use Rattle.aw_grammar.specs.GrammarOf.{grammar_of, words_of};
ghost use Rattle.aw_store.specs.EquationView.{equation_of};
ghost use Rattle.aw_msg.specs.MessageView.{kind_with, message_of, sort_or_zero};
ghost use Rattle.aw_msg_print.specs.CallTexts.{call_text};
ghost use Rattle.aw_law_sites.specs.Transcripts.{equation_text, load_text, kind_text, sent_line, sent_lines};

use aw_base::{NameWriter, push_ref, push_refs, role_name};
use aw_list::Text;
use aw_msg::{Message, MsgKind};
use aw_name::{Node, Refs};
use aw_spelling::push_number;
use aw_store::{Equation, push_body};
use std::alloc::AllocError;

/// Adds an equation, as `visit#1:p1 = "Ada"`.
fn push_equation(
    text: &mut Text,
    names: &mut NameWriter<'_>,
    e: &Equation,
) -> Result<(), AllocError>
    ensures text { OnOk result (text.new ≡ text.old ++ equation_text (words_of names.old.grammar.now) (equation_of e.now)) }
    ensures grammar { names.new.grammar.now ≡ names.old.grammar.now }
{
    push_ref(text, names, &e.left)?;
    text.push_array(b" = ")?;
    push_body(text, names, &e.body)
}

/// Adds equations, each behind a separator.
fn push_following(
    text: &mut Text,
    names: &mut NameWriter<'_>,
    es: &[Equation],
) -> Result<(), AllocError>
    ensures text { OnOk result (text.new ≡ text.old ++ flat_map (λ e. codes "; " ++ equation_text (words_of names.old.grammar.now) (equation_of e)) es.now) }
    ensures grammar { names.new.grammar.now ≡ names.old.grammar.now }
{
    for e in es {
        text.push_array(b"; ")?;
        push_equation(text, names, e)?;
    }
    Ok(())
}

/// Adds the equations that a message carries, where there are any.
fn push_load(text: &mut Text, names: &mut NameWriter<'_>, es: &[Equation]) -> Result<(), AllocError>
    ensures text { OnOk result (text.new ≡ text.old ++ load_text (words_of names.old.grammar.now) (map equation_of es.now)) }
    ensures grammar { names.new.grammar.now ≡ names.old.grammar.now }
{
    match es {
        [] => Ok(()),
        [first, rest @ ..] => {
            text.push_array(b" with ")?;
            push_equation(text, names, first)?;
            push_following(text, names, rest)
        }
    }
}

/// Adds a blank and a call, as `call visit#1/admit.1 (visit#1:p2)`, without its load.
fn push_call(
    text: &mut Text,
    names: &mut NameWriter<'_>,
    node: &Node,
    inherited: &Refs,
) -> Result<(), AllocError>
    ensures text { OnOk result (text.new ≡ text.old ++ (codes " " ++ call_text (words_of names.old.grammar.now) node.now inherited.now)) }
    ensures grammar { names.new.grammar.now ≡ names.old.grammar.now }
{
    text.push_array(b" call ")?;
    names.push_node(text, node)?;
    text.push_array(b" (")?;
    push_refs(text, names, inherited.as_slice())?;
    text.push(b')')
}

/// Adds a blank and what a message says.
pub fn push_kind(
    text: &mut Text,
    names: &mut NameWriter<'_>,
    kind: &MsgKind,
) -> Result<(), AllocError>
    ensures text { OnOk result (text.new ≡ text.old ++ (codes " " ++ kind_text (words_of names.old.grammar.now) (kind_with (sort_or_zero (grammar_of names.old.grammar.now)) kind.now))) }
    ensures grammar { names.new.grammar.now ≡ names.old.grammar.now }
{
    match kind {
        MsgKind::Call {
            node,
            inherited,
            load,
        } => {
            push_call(text, names, node, inherited)?;
            push_load(text, names, load.as_slice())
        }
        MsgKind::Ask { reference, from } => {
            text.push_array(b" ask ")?;
            push_ref(text, names, reference)?;
            text.push_array(b" from ")?;
            text.push_bytes(role_name(names.grammar(), *from))
        }
        MsgKind::Tell { equation, load } => {
            text.push_array(b" tell ")?;
            push_equation(text, names, equation)?;
            push_load(text, names, load.as_slice())
        }
    }
}

/// Adds the line of a message, as `sent 1 to lab ask visit#1/admit.1:r1 from clinic`.
fn push_message(
    text: &mut Text,
    names: &mut NameWriter<'_>,
    number: usize,
    message: &Message,
) -> Result<(), AllocError>
    ensures text { OnOk result (text.new ≡ text.old ++ sent_line (words_of names.old.grammar.now) number (message_of (grammar_of names.old.grammar.now) message.now)) }
    ensures grammar { names.new.grammar.now ≡ names.old.grammar.now }
{
    text.push_array(b"sent ")?;
    push_number(text, number as u64)?;
    text.push_array(b" to ")?;
    text.push_bytes(role_name(names.grammar(), message.to))?;
    push_kind(text, names, message.kind.get())?;
    text.push(b'\n')
}

/// Adds the lines of the messages from a number on.
pub fn push_sent(
    text: &mut Text,
    names: &mut NameWriter<'_>,
    messages: &[Message],
    from: usize,
) -> Result<(), AllocError>
    ensures text { OnOk result (text.new ≡ text.old ++ sent_lines (words_of names.old.grammar.now) from (drop from (map (message_of (grammar_of names.old.grammar.now)) messages.now))) }
    ensures grammar { names.new.grammar.now ≡ names.old.grammar.now }
{
    for number in from..messages.len() {
        push_message(text, names, number, &messages[number])?;
    }
    Ok(())
}
