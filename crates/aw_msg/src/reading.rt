//! Readers of messages.
ghost use Rattle.std.specs.Prelude.{◌∷◌};
ghost use Rattle.aw_codec.specs.Gives.{Gives};
ghost use Rattle.aw_codec.specs.Reading.{byte, such_that};
ghost use Rattle.aw_msg.specs.Messages as spec;

use crate::equations::{equation_at, load_at};
use crate::message::{Message, MsgKind};
use aw_codec::items::{byte_at, u16_at};
use aw_codec::{Unread, node_at, ref_at, refs_at};
use std::alloc::Global;

/// The version of a message without a load.
pub const BARE: u8 = 1;

/// The version of a message that has a load.
pub const LOADED: u8 = 2;

/// The kind of a message that calls a node.
pub const CALL_KIND: u8 = 0;

/// The kind of a message that asks for what a reference stands for.
pub const ASK_KIND: u8 = 1;

/// The kind of a message that tells an equation.
pub const TELL_KIND: u8 = 2;

/// A question, which has no load; `loaded` tells whether the message has one.
#[tactic(auto, unfolding(crate::specs::Messages::ask))]
fn ask_at(alloc: Global, loaded: bool, bytes: &[u8]) -> Result<(MsgKind, &[u8]), Unread>
    ensures { Gives (λ x. (x.0, x.1.now)) result (spec.ask loaded bytes.now) }
{
    if loaded {
        return Err(Unread::Bad {
            left: bytes.len() + 1,
        });
    }
    let (reference, rest) = ref_at(alloc, bytes)?;
    let (from, rest) = u16_at(rest)?;
    Ok((MsgKind::Ask { reference, from }, rest))
}

/// A call, behind its kind.
#[tactic(auto, unfolding(crate::specs::Messages::kind))]
fn call_at(alloc: Global, loaded: bool, bytes: &[u8]) -> Result<(MsgKind, &[u8]), Unread>
    ensures { Gives (λ x. (x.0, x.1.now)) result (spec.kind loaded (0 ∷ bytes.now)) }
{
    let (node, rest) = node_at(alloc, bytes)?;
    let (inherited, rest) = refs_at(alloc, rest)?;
    let (load, rest) = load_at(alloc, loaded, rest)?;
    Ok((
        MsgKind::Call {
            node,
            inherited,
            load,
        },
        rest,
    ))
}

/// An equation that is told, behind its kind.
#[tactic(auto, unfolding(crate::specs::Messages::kind))]
fn tell_at(alloc: Global, loaded: bool, bytes: &[u8]) -> Result<(MsgKind, &[u8]), Unread>
    ensures { Gives (λ x. (x.0, x.1.now)) result (spec.kind loaded (2 ∷ bytes.now)) }
{
    let (equation, rest) = equation_at(alloc, bytes)?;
    let (load, rest) = load_at(alloc, loaded, rest)?;
    Ok((MsgKind::Tell { equation, load }, rest))
}

/// What stands behind the role.
#[tactic(auto, unfolding(crate::specs::Messages::kind))]
fn kind_at(alloc: Global, loaded: bool, bytes: &[u8]) -> Result<(MsgKind, &[u8]), Unread>
    ensures { Gives (λ x. (x.0, x.1.now)) result (spec.kind loaded bytes.now) }
{
    match bytes {
        [] => Err(Unread::Short),
        [CALL_KIND, rest @ ..] => call_at(alloc, loaded, rest),
        [ASK_KIND, rest @ ..] => ask_at(alloc, loaded, rest),
        [TELL_KIND, rest @ ..] => tell_at(alloc, loaded, rest),
        [_, ..] => Err(Unread::Bad { left: bytes.len() }),
    }
}

/// The version, which tells whether there is a load, and the bytes behind it.
fn version_at(bytes: &[u8]) -> Result<(u8, &[u8]), Unread>
    ensures { Gives (λ x. (x.0, x.1.now)) result (such_that spec.is_version byte bytes.now) }
{
    let (version, rest) = byte_at(bytes)?;
    if version == BARE || version == LOADED {
        Ok((version, rest))
    } else {
        Err(Unread::Bad { left: bytes.len() })
    }
}

/// A message, and the bytes behind it.
#[tactic(auto, unfolding(crate::specs::Messages::message))]
pub fn message_at(alloc: Global, bytes: &[u8]) -> Result<(Message, &[u8]), Unread>
    ensures { Gives (λ x. (x.0, x.1.now)) result (spec.message bytes.now) }
{
    let (version, rest) = version_at(bytes)?;
    let (to, rest) = u16_at(rest)?;
    let (kind, rest) = kind_at(alloc, version == LOADED, rest)?;
    Ok((Message::new(alloc, to, kind)?, rest))
}
