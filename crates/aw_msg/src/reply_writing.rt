//! The bytes of replies.
ghost use Rattle.std.specs.Prelude.{◌≡◌, ◌++◌, ◌∷◌, codes, length, map, IfOk, OnOk};
ghost use Rattle.std.specs.Int.{w32, to_be_bytes};
ghost use Rattle.aw_term.specs.Artifacts.{listed, ref_text};
ghost use Rattle.aw_term.specs.Rules.{Grammar as PlainGrammar};
ghost use Rattle.aw_grammar.specs.GrammarOf.{grammar_of, words_of};
ghost use Rattle.aw_msg.specs.Replies as spec;
ghost use Rattle.aw_msg.specs.ReplyRanges.{ReplyInRange};
ghost use Rattle.aw_msg.specs.MessageView.{content_of};
ghost use Rattle.aw_msg.specs.ResponseView.{response_of};

use crate::reply::Answered;
use crate::writing::add_message;
use aw_base::{NameWriter, push_answer, push_item, push_refs};
use aw_codec::writing::{add_byte, add_u64};
use aw_grammar::Grammar;
use aw_list::Text;
use aw_name::Ref;
use aw_store::{Content, push_body};
use std::alloc::{AllocError, Global};

/// The kind of the reply that the message was new.
pub const NEW: u8 = 1;

/// The kind of the reply that the message was held already.
pub const AGAIN: u8 = 2;

/// The kind of the reply that the message contradicts what is held.
pub const CONFLICT: u8 = 3;

/// The kind of the reply that what is named belongs to another role.
pub const NOT_MINE: u8 = 4;

/// The kind of the reply that what is named is not valid.
pub const BAD_NAME: u8 = 5;

/// The kind of the reply that answers a choice.
pub const ANSWER: u8 = 6;

/// The kind of the reply with a message of the outbox.
pub const MESSAGE: u8 = 7;

/// The kind of the reply that more bytes came than a session may have.
pub const TOO_LONG: u8 = 8;

/// The kind of the reply that no frame stands there.
pub const BAD_FRAME: u8 = 9;

/// The kind of the reply that there is no more.
pub const NOTHING: u8 = 10;

/// The kind of the reply with an item of the worklist.
pub const ITEM: u8 = 11;

/// Adds references in parentheses.
fn add_inherited(
    text: &mut Text,
    names: &mut NameWriter<'_>,
    refs: &[Ref],
) -> Result<(), AllocError>
    ensures text { OnOk result (text.new ≡ text.old ++ (codes "(" ++ (listed (map (ref_text (words_of names.old.grammar.now)) refs.now) ++ codes ")"))) }
    ensures grammar { names.new.grammar.now ≡ names.old.grammar.now }
{
    text.push_bytes(b"(")?;
    push_refs(text, names, refs)?;
    text.push_bytes(b")")
}

/// Adds references in parentheses, or a body.
fn add_content(
    text: &mut Text,
    names: &mut NameWriter<'_>,
    content: &Content,
) -> Result<(), AllocError>
    ensures text { OnOk result (text.new ≡ text.old ++ spec.content_text (words_of names.old.grammar.now) (content_of content.now)) }
    ensures grammar { names.new.grammar.now ≡ names.old.grammar.now }
{
    match content {
        Content::Inherited(refs) => add_inherited(text, names, refs.as_slice()),
        Content::Body(body) => push_body(text, names, body),
    }
}

fn add_conflict(
    text: &mut Text,
    names: &mut NameWriter<'_>,
    kept: &Content,
    came: &Content,
) -> Result<(), AllocError>
    ensures { OnOk result (text.new ≡ text.old ++ spec.conflict_text (words_of names.old.grammar.now) (content_of kept.now) (content_of came.now)) }
{
    text.push_bytes(b"kept ")?;
    add_content(text, names, kept)?;
    text.push_bytes(b" came ")?;
    add_content(text, names, came)
}

fn kind_of(r: &Answered) -> u8
    ensures { (plain : PlainGrammar) → result ≡ spec.reply_kind (response_of plain r.now) }
{
    match r {
        Answered::New => NEW,
        Answered::Again => AGAIN,
        Answered::Conflict { .. } => CONFLICT,
        Answered::NotMine => NOT_MINE,
        Answered::BadName => BAD_NAME,
        Answered::Answer(_) => ANSWER,
        Answered::Message(_) => MESSAGE,
        Answered::TooLong => TOO_LONG,
        Answered::BadFrame => BAD_FRAME,
        Answered::Nothing(_) => NOTHING,
        Answered::Item(_) => ITEM,
    }
}

/// Adds what a reply says, the names in it by a writer.
fn add_told(text: &mut Text, names: &mut NameWriter<'_>, r: &Answered) -> Result<(), AllocError>
    requires { ReplyInRange r.now }
    ensures { OnOk result (text.new ≡ text.old ++ spec.reply_payload (words_of names.old.grammar.now) (response_of (grammar_of names.old.grammar.now) r.now)) }
{
    match r {
        Answered::Conflict { kept, came } => add_conflict(text, names, kept, came),
        Answered::Answer(answer) => push_answer(text, names, answer),
        Answered::Message(m) => add_message(text, m),
        Answered::Nothing(number) => add_u64(text, *number),
        Answered::Item(item) => push_item(text, names, item),
        Answered::New | Answered::Again | Answered::NotMine => Ok(()),
        Answered::BadName | Answered::TooLong | Answered::BadFrame => Ok(()),
    }
}

/// Adds what a reply says.
fn add_payload(text: &mut Text, g: &Grammar, r: &Answered) -> Result<(), AllocError>
    requires { ReplyInRange r.now }
    ensures { OnOk result (text.new ≡ text.old ++ spec.reply_payload (words_of g.now) (response_of (grammar_of g.now) r.now)) }
{
    let mut names = NameWriter::new(text.allocator(), g);
    let added = add_told(text, &mut names, r);
    drop(names);
    added
}

/// The length of a payload. One of more than 4 GiB is as if there were no memory for it.
fn length_of(payload: &Text) -> Result<u32, AllocError>
    ensures { IfOk result (λ n. n ≡ length payload.now) }
{
    match u32::try_from(payload.len()) {
        Ok(length) => Ok(length),
        Err(_) => Err(AllocError),
    }
}

/// Adds the kind of a reply, the length of its payload, and the payload.
fn add_parts(text: &mut Text, kind: u8, payload: &Text) -> Result<(), AllocError>
    ensures { OnOk result (text.new ≡ text.old ++ kind ∷ (to_be_bytes w32 (length payload.now) ++ payload.now)) }
{
    add_byte(text, kind)?;
    text.push_bytes(&length_of(payload)?.to_be_bytes())?;
    text.push_bytes(payload.as_slice())
}

/// The bytes of a reply: its kind, the length of its payload, and the payload.
pub fn reply_bytes(alloc: Global, g: &Grammar, r: &Answered) -> Result<Text, AllocError>
    requires { ReplyInRange r.now }
    ensures { IfOk result (λ text. text ≡ spec.spelled_reply (words_of g.now) (response_of (grammar_of g.now) r.now)) }
{
    let mut payload = Text::new(alloc);
    add_payload(&mut payload, g, r)?;
    let mut text = Text::new(alloc);
    add_parts(&mut text, kind_of(r), &payload)?;
    Ok(text)
}
