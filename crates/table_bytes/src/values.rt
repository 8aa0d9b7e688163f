//! What stands at the front of some bytes, and that it is written again as it was read.
ghost use Rattle.aw_choice.specs.ChoiceView.{choice_of};
ghost use Rattle.aw_msg.specs.Messages.{MessageInRange};
ghost use Rattle.aw_codec.specs.Ranges.{ChoiceInRange};

use crate::fault::EntryFault;
use crate::fields::{push_choice, push_message};
use aw_choice::Choice;
use aw_list::Text;
use aw_msg::{Message, MsgFault, decode, decode_choice, encode, encode_choice};
use aw_spelling::push_number;
use std::alloc::{AllocError, Global};

/// Adds the number of bytes that were taken, and whether what was read is written as these bytes.
fn push_taken(
    told: &mut Text,
    bytes: &[u8],
    count: usize,
    written: &Text,
) -> Result<(), AllocError> {
    push_number(told, count as u64)?;
    if bytes.get(..count) == Some(written.as_slice()) {
        told.push_bytes(b" bytes: ")
    } else {
        told.push_bytes(b" bytes, written otherwise: ")
    }
}

fn push_fault(told: &mut Text, fault: MsgFault) -> Result<(), EntryFault> {
    match fault {
        MsgFault::Short => told.push_bytes(b"short")?,
        MsgFault::Bad { at } => {
            told.push_bytes(b"bad at ")?;
            push_number(told, at as u64)?;
        }
        MsgFault::NoMemory => return Err(EntryFault::NoMemory),
    }
    Ok(())
}

/// Adds a message that was read from so many of these bytes.
fn push_read(
    alloc: Global,
    told: &mut Text,
    bytes: &[u8],
    message: &Message,
    count: usize,
) -> Result<(), EntryFault>
    requires { MessageInRange message.now }
{
    let written = encode(alloc, message)?;
    push_taken(told, bytes, count, &written)?;
    Ok(push_message(told, message)?)
}

/// Adds the message at the front of some bytes, or the fault.
pub fn push_decoded(alloc: Global, told: &mut Text, bytes: &[u8]) -> Result<(), EntryFault> {
    match decode(alloc, bytes) {
        Ok((message, count)) => {
            let pushed = push_read(alloc, told, bytes, &message, count);
            drop(message);
            pushed
        }
        Err(fault) => push_fault(told, fault),
    }?;
    Ok(told.push_bytes(b"\n")?)
}

/// Adds a choice that was read from so many of these bytes.
fn push_read_choice(
    alloc: Global,
    told: &mut Text,
    bytes: &[u8],
    choice: &Choice,
    count: usize,
) -> Result<(), EntryFault>
    requires { ChoiceInRange (choice_of choice.now) }
{
    let written = encode_choice(alloc, choice)?;
    push_taken(told, bytes, count, &written)?;
    Ok(push_choice(told, choice)?)
}

/// Adds the choice at the front of some bytes, or the fault.
pub fn push_decoded_choice(alloc: Global, told: &mut Text, bytes: &[u8]) -> Result<(), EntryFault> {
    match decode_choice(alloc, bytes) {
        Ok((choice, count)) => {
            let pushed = push_read_choice(alloc, told, bytes, &choice, count);
            drop(choice);
            pushed
        }
        Err(fault) => push_fault(told, fault),
    }?;
    Ok(told.push_bytes(b"\n")?)
}
