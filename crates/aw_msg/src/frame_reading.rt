//! The reader of one frame.
ghost use Rattle.std.specs.Prelude.{◌≡◌, option_map, IfOk};
ghost use Rattle.std.specs.Int.{w32, w64};
ghost use Rattle.aw_choice.specs.ChoiceView.{choice_of};
ghost use Rattle.aw_codec.specs.Gives.{Gives};
ghost use Rattle.aw_codec.specs.Reading.{number, such_that};
ghost use Rattle.aw_codec.specs.Choices.{choice};
ghost use Rattle.aw_msg.specs.Messages.{message};
ghost use Rattle.aw_msg.specs.Frames as spec;
ghost use Rattle.aw_msg.specs.FrameView.{frame_of};

use crate::frame::Frame;
use crate::message::Message;
use crate::reading::message_at;
use aw_choice::Choice;
use aw_codec::items::{position_at, u32_at, u64_at};
use aw_codec::{Unread, choice_at};
use std::alloc::{AllocError, Global};

/// The most bytes of a payload.
pub const MOST_OF_PAYLOAD: u32 = 1048576;

/// How many bytes the payload has that is a place.
const PLACE_BYTES: u32 = 8;

/// The kind of a frame that brings a message.
pub const PUSH_KIND: u8 = 1;

/// The kind of a frame that brings a choice.
pub const CHOOSE_KIND: u8 = 2;

/// The kind of a frame that asks for the message at a place.
pub const PULL_KIND: u8 = 3;

/// The kind of a frame that asks for the item at a place. It is the last one.
pub const LIST_KIND: u8 = 4;

/// The message that all of the bytes are, where they are one.
pub fn whole_message(alloc: Global, bytes: &[u8]) -> Result<Option<Message>, AllocError>
    ensures { IfOk result (λ found. spec.whole message bytes.now ≡ found) }
{
    match message_at(alloc, bytes) {
        Ok((message, [])) => Ok(Some(message)),
        Err(Unread::NoMemory) => Err(AllocError),
        Ok(_) | Err(Unread::Short) | Err(Unread::Bad { .. }) => Ok(None),
    }
}

/// The choice that all of the bytes are, where they are one.
pub fn whole_choice(alloc: Global, bytes: &[u8]) -> Result<Option<Choice>, AllocError>
    ensures { IfOk result (λ found. spec.whole choice bytes.now ≡ option_map choice_of found) }
{
    match choice_at(alloc, bytes) {
        Ok((choice, [])) => Ok(Some(choice)),
        Err(Unread::NoMemory) => Err(AllocError),
        Ok(_) | Err(Unread::Short) | Err(Unread::Bad { .. }) => Ok(None),
    }
}

fn whole_number(bytes: &[u8]) -> Result<Option<u64>, AllocError>
    ensures { IfOk result (λ found. spec.whole (number w64) bytes.now ≡ found) }
{
    match u64_at(bytes) {
        Ok((number, [])) => Ok(Some(number)),
        Err(Unread::NoMemory) => Err(AllocError),
        Ok(_) | Err(Unread::Short) | Err(Unread::Bad { .. }) => Ok(None),
    }
}

/// The frame of a kind from 1 to 4 with this payload, where it is one.
#[tactic(auto, unfolding(crate::specs::Frames::payload))]
fn payload_of(alloc: Global, kind: u8, bytes: &[u8]) -> Result<Option<Frame>, AllocError>
    ensures { IfOk result (λ found. spec.payload kind bytes.now ≡ option_map frame_of found) }
{
    match kind {
        PUSH_KIND => match whole_message(alloc, bytes)? {
            Some(found) => Ok(Some(Frame::Push(found))),
            None => Ok(None),
        },
        CHOOSE_KIND => match whole_choice(alloc, bytes)? {
            Some(found) => Ok(Some(Frame::Choose(found))),
            None => Ok(None),
        },
        PULL_KIND => match whole_number(bytes)? {
            Some(place) => Ok(Some(Frame::Pull(place))),
            None => Ok(None),
        },
        LIST_KIND => match whole_number(bytes)? {
            Some(place) => Ok(Some(Frame::List(place))),
            None => Ok(None),
        },
        _ => Ok(None),
    }
}

fn has_length(kind: u8, length: u32) -> bool
    ensures { result ≡ spec.has_length kind length }
{
    if kind <= CHOOSE_KIND {
        length <= MOST_OF_PAYLOAD
    } else {
        length == PLACE_BYTES
    }
}

fn length_at(kind: u8, bytes: &[u8]) -> Result<(u32, &[u8]), Unread>
    ensures { Gives (λ x. (x.0, x.1.now)) result (such_that (spec.has_length kind) (number w32) bytes.now) }
{
    let (length, rest) = u32_at(bytes)?;
    if has_length(kind, length) {
        Ok((length, rest))
    } else {
        Err(Unread::Bad { left: bytes.len() })
    }
}

fn payload_at(alloc: Global, kind: u8, length: u32, bytes: &[u8]) -> Result<(Frame, &[u8]), Unread>
    ensures { Gives (λ x. (frame_of x.0, x.1.now)) result (spec.payload_at kind length bytes.now) }
{
    let length = length as usize;
    if bytes.len() < length {
        return Err(Unread::Short);
    }
    let (front, rest) = bytes.split_at(length);
    match payload_of(alloc, kind, front)? {
        Some(frame) => Ok((frame, rest)),
        None => Err(Unread::Bad { left: bytes.len() }),
    }
}

/// The frame at the front of some bytes, and the bytes behind it. Of a frame that is not whole only the kind and the length are looked at.
#[tactic(auto, unfolding(crate::specs::Frames::frame))]
pub fn frame_at(alloc: Global, bytes: &[u8]) -> Result<(Frame, &[u8]), Unread>
    ensures { Gives (λ x. (frame_of x.0, x.1.now)) result (spec.frame bytes.now) }
{
    let (kind, rest) = position_at(LIST_KIND, bytes)?;
    let (length, rest) = length_at(kind, rest)?;
    payload_at(alloc, kind, length, rest)
}
