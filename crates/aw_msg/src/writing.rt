//! Writers of messages: each adds the one spelling of a value at the end of a text, and what was written has the sizes of the program's types.
ghost use Rattle.std.specs.Prelude.{◌≡◌, ◌++◌, OnOk, OnErr, IfOk, flat_map, map};
ghost use Rattle.std.specs.Io.{StartsWith};
ghost use Rattle.aw_term.specs.WellFormed.{Each};
ghost use Rattle.aw_store.specs.EquationView.{body_of, equation_of};
ghost use Rattle.aw_msg.specs.Spelling.{spelled_body, spelled_equation, spelled_load, spelled_kind, is_loaded};
ghost use Rattle.aw_msg.specs.MessageRanges.{BodySized, BodyInRange, EquationSized, EquationInRange, LoadSized, LoadInRange, KindSized, KindInRange};
ghost use Rattle.aw_msg.specs.MessageView.{plain_kind};
ghost use Rattle.aw_msg.specs.Messages.{spelled_message, MessageSized, MessageInRange};

use crate::equations::{CON_KIND, NUM_KIND, SAME_KIND, TEXT_KIND};
use crate::message::{Message, MsgKind};
use crate::reading::{ASK_KIND, BARE, CALL_KIND, LOADED, TELL_KIND};
use aw_codec::writing::{add_byte, add_u16, add_u64};
use aw_codec::{add_node, add_ref, add_refs, add_text};
use aw_list::Text;
use aw_store::{Body, Equation, Equations};
use std::alloc::{AllocError, Global};

fn add_body(text: &mut Text, body: &Body) -> Result<(), AllocError>
    requires { BodyInRange (body_of body.now) }
    ensures ok { OnOk result (text.new ≡ text.old ++ spelled_body (body_of body.now)) }
    ensures err { OnErr result (StartsWith text.new text.old) }
    ensures sized { OnOk result (BodySized (body_of body.now)) }
{
    match body {
        Body::Same(reference) => {
            add_byte(text, SAME_KIND)?;
            add_ref(text, reference)
        }
        Body::Con(con, parts) => {
            add_byte(text, CON_KIND)?;
            add_u16(text, *con)?;
            add_refs(text, parts.as_slice())
        }
        Body::Num(number) => {
            add_byte(text, NUM_KIND)?;
            add_u64(text, *number)
        }
        Body::Text(content) => {
            add_byte(text, TEXT_KIND)?;
            add_text(text, content.as_slice())
        }
    }
}

fn add_equation(text: &mut Text, equation: &Equation) -> Result<(), AllocError>
    requires { EquationInRange (equation_of equation.now) }
    ensures ok { OnOk result (text.new ≡ text.old ++ spelled_equation (equation_of equation.now)) }
    ensures err { OnErr result (StartsWith text.new text.old) }
    ensures sized { OnOk result (EquationSized (equation_of equation.now)) }
{
    add_ref(text, &equation.left)?;
    add_body(text, &equation.body)
}

fn add_each_equation(text: &mut Text, equations: &[Equation]) -> Result<(), AllocError>
    requires { Each EquationInRange (map equation_of equations.now) }
    ensures ok { OnOk result (text.new ≡ text.old ++ flat_map spelled_equation (map equation_of equations.now)) }
    ensures err { OnErr result (StartsWith text.new text.old) }
    ensures sized { OnOk result (LoadSized (map equation_of equations.now)) }
{
    for equation in equations {
        add_equation(text, equation)?;
    }
    Ok(())
}

/// Adds equations, few, behind their number. Where there are none nothing is added.
fn add_load(text: &mut Text, load: &Equations) -> Result<(), AllocError>
    requires { LoadInRange (map equation_of load.now) }
    ensures ok { OnOk result (text.new ≡ text.old ++ spelled_load (map equation_of load.now)) }
    ensures err { OnErr result (StartsWith text.new text.old) }
    ensures sized { OnOk result (LoadSized (map equation_of load.now)) }
{
    if load.is_empty() {
        return Ok(());
    }
    add_byte(text, load.len() as u8)?;
    add_each_equation(text, load.as_slice())
}

fn add_kind(text: &mut Text, kind: &MsgKind) -> Result<(), AllocError>
    requires { KindInRange (plain_kind kind.now) }
    ensures ok { OnOk result (text.new ≡ text.old ++ spelled_kind (plain_kind kind.now)) }
    ensures err { OnErr result (StartsWith text.new text.old) }
    ensures sized { OnOk result (KindSized (plain_kind kind.now)) }
{
    match kind {
        MsgKind::Call {
            node,
            inherited,
            load,
        } => {
            add_byte(text, CALL_KIND)?;
            add_node(text, node)?;
            add_refs(text, inherited.as_slice())?;
            add_load(text, load)
        }
        MsgKind::Ask { reference, from } => {
            add_byte(text, ASK_KIND)?;
            add_ref(text, reference)?;
            add_u16(text, *from)
        }
        MsgKind::Tell { equation, load } => {
            add_byte(text, TELL_KIND)?;
            add_equation(text, equation)?;
            add_load(text, load)
        }
    }
}

/// Whether a message of this kind has a load.
fn has_load(kind: &MsgKind) -> bool
    ensures { result ≡ is_loaded (plain_kind kind.now) }
{
    match kind {
        MsgKind::Call { load, .. } => !load.is_empty(),
        MsgKind::Ask { .. } => false,
        MsgKind::Tell { load, .. } => !load.is_empty(),
    }
}

/// Adds a message at the end of a text: version 2 where it has a load, and else version 1. After an error what stood in the text still stands
/// at its front.
pub fn add_message(text: &mut Text, m: &Message) -> Result<(), AllocError>
    requires { MessageInRange m.now }
    ensures ok { OnOk result (text.new ≡ text.old ++ spelled_message m.now) }
    ensures err { OnErr result (StartsWith text.new text.old) }
    ensures sized { OnOk result (MessageSized m.now) }
{
    add_byte(text, if has_load(m.kind.get()) { LOADED } else { BARE })?;
    add_u16(text, m.to)?;
    add_kind(text, m.kind.get())
}

/// The one spelling of a message.
pub fn encode(alloc: Global, m: &Message) -> Result<Text, AllocError>
    requires { MessageInRange m.now }
    ensures spelled { IfOk result (λ text. text ≡ spelled_message m.now) }
    ensures sized { OnOk result (MessageSized m.now) }
{
    let mut text = Text::new(alloc);
    add_message(&mut text, m)?;
    Ok(text)
}
