//! What is heard in the bytes of a reply.
ghost use Rattle.std.specs.Prelude.{◌≡◌, drop, Ok, Err, IfOk, MatchOption};
ghost use Rattle.std.specs.Int.{w32};
ghost use Rattle.aw_codec.specs.Reading.{Short, number};
ghost use Rattle.aw_courier.specs.Replies as spec;
ghost use Rattle.aw_courier.specs.Replies.{IsAddressed, IsSized, Brings, NamesRole};
ghost use Rattle.aw_term.specs.Rules.{Grammar as PlainGrammar};

use aw_codec::Unread;
use aw_msg::frame_reading::MOST_OF_PAYLOAD;
use aw_msg::reading::message_at;
use aw_msg::reply_writing::{BAD_NAME, CONFLICT, MESSAGE, NEW, NOTHING};
use std::alloc::{AllocError, Global};

/// What is asked of a node.
#[derive(Clone, Copy)]
pub enum Request {
    /// To take a message.
    Push,
    /// For the message at a place of the outbox.
    Pull,
}

/// What a pull brought.
#[derive(Clone, Copy)]
pub enum Brought {
    /// A message for this role.
    Message(u16),
    /// There are no more.
    Nothing,
    /// No reply to a pull.
    Unknown,
}

/// The bytes of a reply before its payload: the kind and the length.
const HEAD: usize = 5;

/// Whether a reply to the request may be of this kind.
fn may_have(request: Request, kind: u8) -> bool
    ensures { result ≡ spec.may_have request kind }
{
    match request {
        Request::Push => NEW <= kind && kind <= BAD_NAME,
        Request::Pull => kind == MESSAGE || kind == NOTHING,
    }
}

/// Whether a payload of this kind may have so many bytes.
fn fits_length(kind: u8, n: u32) -> bool
    ensures { result ≡ spec.fits_length kind n }
{
    if kind == CONFLICT || kind == MESSAGE {
        n <= MOST_OF_PAYLOAD
    } else if kind == NOTHING {
        n == 8
    } else {
        n == 0
    }
}

/// The length of a payload, once its four bytes are there.
fn length_at(bytes: &[u8]) -> Option<u32>
    ensures { MatchOption result (number w32 bytes.now ≡ Err Short) (λ n. number w32 bytes.now ≡ Ok (n, drop 4 bytes.now)) }
{
    if bytes.len() < 4 {
        return None;
    }
    let (front, _) = bytes.split_at(4);
    Some(u32::from_be_bytes([front[0], front[1], front[2], front[3]]))
}

/// How many bytes a reply has that begins so, as far as that is known; `None` where no reply begins so.
pub(crate) fn size_of(request: Request, bytes: &[u8]) -> Option<usize>
    ensures { result ≡ spec.size_from request bytes.now }
{
    match bytes {
        [] => Some(HEAD),
        [kind, rest @ ..] => {
            if !may_have(request, *kind) {
                return None;
            }
            match length_at(rest) {
                None => Some(HEAD),
                Some(n) if fits_length(*kind, n) => Some(HEAD + n as usize),
                Some(_) => None,
            }
        }
    }
}

/// What a pull brought, where its payload has a message for this role, and these bytes are behind it.
fn addressed(to: u16, rest: &[u8], roles: usize) -> Brought
    ensures { IsAddressed to rest.now roles result }
{
    if rest.is_empty() && usize::from(to) < roles {
        Brought::Message(to)
    } else {
        Brought::Unknown
    }
}

/// What a pull brought, by all bytes of the reply, where there are so many roles.
pub(crate) fn what_came(alloc: Global, bytes: &[u8], roles: usize) -> Result<Brought, AllocError>
    requires { IsSized Request.Pull bytes.now }
    ensures brings { (g : PlainGrammar) → g.roles ≡ roles → IfOk result (Brings g bytes.now) }
    ensures within { IfOk result (NamesRole roles) }
{
    if bytes[0] == NOTHING {
        return Ok(Brought::Nothing);
    }
    let (_, payload) = bytes.split_at(HEAD);
    match message_at(alloc, payload) {
        Ok((m, rest)) => Ok(addressed(m.to, rest, roles)),
        Err(Unread::NoMemory) => Err(AllocError),
        Err(Unread::Short) => Ok(Brought::Unknown),
        Err(Unread::Bad { .. }) => Ok(Brought::Unknown),
    }
}
