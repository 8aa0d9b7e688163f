//! The message at the front of some bytes.
ghost use Rattle.aw_codec.specs.Placed.{placed, Decodes, Finds, IsFound};
ghost use Rattle.aw_codec.specs.OneSpelling.{ReadsSpelled, SpelledIfRead, NoneBeginsAnother, CutIsShort};
ghost use Rattle.aw_msg.specs.Messages.{message, spelled_message, MessageSized, MessageInRange};

use crate::message::Message;
use crate::reading::message_at;
use aw_codec::MsgFault;
use aw_codec::fault::fault_at;
use std::alloc::Global;

fn placed_message(alloc: Global, bytes: &[u8]) -> Result<(Message, usize), MsgFault>
    ensures { Decodes (λ m. m) result (placed bytes.now (message bytes.now)) }
{
    match message_at(alloc, bytes) {
        Ok((found, rest)) => Ok((found, bytes.len().saturating_sub(rest.len()))),
        Err(unread) => Err(fault_at(bytes.len(), unread)),
    }
}

/// The message at the front of some bytes, and how many bytes it has. `Short` where fewer bytes are left than the next item has,
/// `Bad` where an item breaks its rule, with the place of its first byte.
pub fn decode(alloc: Global, bytes: &[u8]) -> Result<(Message, usize), MsgFault>
    // What is read is spelled so.
    ensures found { Finds (λ m. m) spelled_message MessageInRange bytes.now result }
    // What is spelled so is read, unless memory runs out.
    ensures only { IsFound (λ m. m) spelled_message MessageSized MessageInRange bytes.now result }
    // Which fault it is.
    ensures exact { Decodes (λ m. m) result (placed bytes.now (message bytes.now)) }
{
    placed_message(alloc, bytes)
}

/// Messages are read as they are spelled, and no spelling begins another one.
pub fn messages_have_one_spelling()
    ensures again { ReadsSpelled message spelled_message MessageSized MessageInRange }
    ensures spelled { SpelledIfRead message spelled_message MessageSized MessageInRange }
    ensures apart { NoneBeginsAnother spelled_message MessageSized MessageInRange }
    // What is cut short needs more bytes.
    ensures cut { CutIsShort message spelled_message MessageSized MessageInRange }
{}
