//! Replies that are named in words, as bytes. Nodes, references and messages in them are given by their bytes.
ghost use Rattle.std.specs.Prelude.{IfOk};
ghost use Rattle.aw_msg.specs.ReplyRanges.{ReplyInRange};

use crate::fault::EntryFault;
use aw_base::{Answer, Grammar, Item};
use aw_choice::{Path, Place, Standing};
use aw_codec::{node_at, ref_at, refs_at};
use aw_list::Text;
use aw_msg::equations::body_at;
use aw_msg::{Answered, decode, reply_bytes};
use aw_name::{Node, Ref};
use aw_spelling::number_value;
use aw_store::Content;
use bstr::ByteSlice;
use std::alloc::Global;
use table_common::bytes_of;

/// The first word of some text, and what stands behind the blank.
fn first_word(text: &[u8]) -> (&[u8], &[u8]) {
    text.split_once_str(b" ").unwrap_or((text, b""))
}

fn reference_of(alloc: Global, digits: &[u8]) -> Result<Ref, EntryFault> {
    let bytes = bytes_of(alloc, digits)?;
    let (reference, _) = ref_at(alloc, bytes.as_slice())?;
    Ok(reference)
}

/// A list of references as `(..)`, or else a body.
fn content_of(alloc: Global, word: &[u8], digits: &[u8]) -> Result<Content, EntryFault> {
    let bytes = bytes_of(alloc, digits)?;
    if word == b"lists".as_slice() {
        let (refs, _) = refs_at(alloc, bytes.as_slice())?;
        return Ok(Content::Inherited(refs));
    }
    let (body, _) = body_at(alloc, bytes.as_slice())?;
    Ok(Content::Body(body))
}

/// `bodies KEPT CAME` or `lists KEPT CAME`.
fn conflict_of(alloc: Global, text: &[u8]) -> Result<Answered, EntryFault>
    ensures { IfOk result (λ reply. ReplyInRange reply) }
{
    let (word, rest) = first_word(text);
    let (kept, came) = first_word(rest);
    Ok(Answered::Conflict {
        kept: content_of(alloc, word, kept)?,
        came: content_of(alloc, word, came)?,
    })
}

/// A number from 0 to 255.
fn byte_of(digits: &[u8]) -> Result<u8, EntryFault> {
    u8::try_from(number_of(digits)?).map_err(|_| EntryFault::Unreadable)
}

/// `ATTRIBUTE` or `ATTRIBUTE.PART`.
fn place_of(text: &[u8]) -> Result<Place, EntryFault> {
    let (attribute, part) = text.split_once_str(b".").unwrap_or((text, b""));
    let mut path = Path::new();
    if !part.is_empty() {
        path.push(byte_of(part)?);
    }
    Ok(Place {
        attribute: byte_of(attribute)?,
        path,
    })
}

/// An answer that is one of the words alone.
fn plain_answer(text: &[u8]) -> Result<Answer, EntryFault> {
    if text == b"known".as_slice() {
        Ok(Answer::Known)
    } else if text == b"unknown".as_slice() {
        Ok(Answer::NotHere)
    } else if text == b"developed".as_slice() {
        Ok(Answer::Developed)
    } else if text == b"wrong rule".as_slice() {
        Ok(Answer::NotItsRule)
    } else if text == b"arguments".as_slice() {
        Ok(Answer::Arguments)
    } else if text == b"deep".as_slice() {
        Ok(Answer::TooDeep)
    } else if text == b"taken".as_slice() {
        Ok(Answer::Taken)
    } else {
        Err(EntryFault::Unreadable)
    }
}

/// `waits REFERENCE`, `mismatch PLACE`, `circle REFERENCE`, or an answer that is one of the words alone.
fn answer_of(alloc: Global, text: &[u8]) -> Result<Answer, EntryFault> {
    let (word, rest) = first_word(text);
    if word == b"waits".as_slice() {
        return Ok(Answer::Waits(reference_of(alloc, rest)?));
    }
    if word == b"mismatch".as_slice() {
        return Ok(Answer::Differs(place_of(rest)?));
    }
    if word == b"circle".as_slice() {
        return Ok(Answer::Circle(reference_of(alloc, rest)?));
    }
    plain_answer(text)
}

/// `ready`, `waits REFERENCE`, `mismatch PLACE`, `circle REFERENCE` or `deep`.
fn state_of(alloc: Global, text: &[u8]) -> Result<Standing, EntryFault> {
    let (word, rest) = first_word(text);
    if word == b"ready".as_slice() {
        return Ok(Standing::Ready);
    }
    if word == b"waits".as_slice() {
        return Ok(Standing::Waits(reference_of(alloc, rest)?));
    }
    if word == b"mismatch".as_slice() {
        return Ok(Standing::Differs(place_of(rest)?));
    }
    if word == b"circle".as_slice() {
        return Ok(Standing::Circle(reference_of(alloc, rest)?));
    }
    if word == b"deep".as_slice() {
        return Ok(Standing::TooDeep);
    }
    Err(EntryFault::Unreadable)
}

fn number_of(digits: &[u8]) -> Result<u64, EntryFault> {
    number_value(digits).ok_or(EntryFault::Unreadable)
}

fn node_of(alloc: Global, digits: &[u8]) -> Result<Node, EntryFault> {
    let bytes = bytes_of(alloc, digits)?;
    let (node, _) = node_at(alloc, bytes.as_slice())?;
    Ok(node)
}

/// `NODE RULE STATE`.
fn item_of(alloc: Global, text: &[u8]) -> Result<Item, EntryFault> {
    let (digits, rest) = first_word(text);
    let (rule, rest) = first_word(rest);
    let Ok(rule) = u16::try_from(number_of(rule)?) else {
        return Err(EntryFault::Unreadable);
    };
    let state = state_of(alloc, rest)?;
    Ok(Item {
        node: node_of(alloc, digits)?,
        rule,
        state,
    })
}

/// A reply without fields.
fn plain_reply(line: &[u8]) -> Result<Answered, EntryFault>
    ensures { IfOk result (λ reply. ReplyInRange reply) }
{
    if line == b"new".as_slice() {
        Ok(Answered::New)
    } else if line == b"again".as_slice() {
        Ok(Answered::Again)
    } else if line == b"not mine".as_slice() {
        Ok(Answered::NotMine)
    } else if line == b"bad name".as_slice() {
        Ok(Answered::BadName)
    } else if line == b"too long".as_slice() {
        Ok(Answered::TooLong)
    } else if line == b"bad frame".as_slice() {
        Ok(Answered::BadFrame)
    } else {
        Err(EntryFault::Unreadable)
    }
}

/// A message, as its bytes.
fn message_reply(alloc: Global, digits: &[u8]) -> Result<Answered, EntryFault>
    ensures { IfOk result (λ reply. ReplyInRange reply) }
{
    let bytes = bytes_of(alloc, digits)?;
    match decode(alloc, bytes.as_slice()) {
        Ok((message, _)) => Ok(Answered::Message(message)),
        Err(fault) => Err(fault.into()),
    }
}

/// The reply that a line names.
fn reply_of(alloc: Global, line: &[u8]) -> Result<Answered, EntryFault>
    ensures { IfOk result (λ reply. ReplyInRange reply) }
{
    let (word, rest) = first_word(line);
    if word == b"conflict".as_slice() {
        return conflict_of(alloc, rest);
    }
    if word == b"answer".as_slice() {
        return Ok(Answered::Answer(answer_of(alloc, rest)?));
    }
    if word == b"message".as_slice() {
        return message_reply(alloc, rest);
    }
    if word == b"none".as_slice() {
        return Ok(Answered::Nothing(number_of(rest)?));
    }
    if word == b"item".as_slice() {
        return Ok(Answered::Item(item_of(alloc, rest)?));
    }
    plain_reply(line)
}

/// Adds the bytes of a reply, in hexadecimal.
fn push_reply(
    alloc: Global,
    told: &mut Text,
    g: &Grammar,
    reply: &Answered,
) -> Result<(), EntryFault>
    requires { ReplyInRange reply.now }
{
    let bytes = reply_bytes(alloc, g, reply)?;
    let digits = hex::encode(alloc, bytes.as_slice())?;
    Ok(told.push_bytes(digits.as_bytes())?)
}

/// Adds the bytes of the reply that a line names.
fn push_line(alloc: Global, told: &mut Text, g: &Grammar, line: &[u8]) -> Result<(), EntryFault> {
    let reply = reply_of(alloc, line)?;
    let pushed = push_reply(alloc, told, g, &reply);
    drop(reply);
    pushed
}

/// Adds the bytes of the replies that the lines name, in hexadecimal.
pub fn push_replies(
    alloc: Global,
    told: &mut Text,
    g: &Grammar,
    lines: &[u8],
) -> Result<(), EntryFault> {
    for line in lines.lines() {
        push_line(alloc, told, g, line)?;
    }
    told.push_bytes(b"\n")?;
    Ok(())
}
