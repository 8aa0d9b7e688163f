//! The heads of journals.
ghost use Rattle.std.specs.Prelude.{◌≡◌, ◌≢◌, ◌<◌, ◌≤◌, ◌⊎◌, true, None, Some, IfSome, length};
ghost use Rattle.aw_front.specs.Fronts.{IsFrontOf};
ghost use Rattle.aw_book_read.specs.Heads.{OpensHead};
ghost use Rattle.aw_book_read.specs.declared.heads.HeadFault.TheVariants.{NoMemory};

use aw_front::{Front, INPUT_LIMIT, Opened, Reply, Status, front_of_input};
use aw_list::{Text, is_same_text};
use std::alloc::{AllocError, Global};

/// Why a head opens nothing that a node would serve.
#[derive(Drop)]
pub enum HeadFault {
    /// Its text is refused, with this reply.
    Refused(Reply),
    /// Its text is not as it would be written of its specification.
    OtherText,
    /// Its specification declares no such role.
    NoRole,
    /// There was not enough memory.
    NoMemory,
}

impl From<AllocError> for HeadFault {
    ghost from_gives = { λ _ e. e ≡ NoMemory };

    fn from(_error: AllocError) -> HeadFault {
        HeadFault::NoMemory
    }
}

/// What is wrong with a head whose text opens a specification: it is another text than would be written, or no such role is declared.
fn fault_of(role: u16, text: &Text, opened: &Opened) -> Option<HeadFault>
    ensures none { result ≡ None → (opened.now.text ≡ text.now) × (role < length opened.now.accepted.grammar.roles) }
    ensures other { result ≡ Some HeadFault.OtherText → opened.now.text ≢ text.now }
    ensures no_role { result ≡ Some HeadFault.NoRole → (opened.now.text ≡ text.now) × (length opened.now.accepted.grammar.roles ≤ role) }
    ensures only { IfSome result (λ fault. (fault ≡ HeadFault.OtherText) ⊎ (fault ≡ HeadFault.NoRole)) }
{
    if !is_same_text(&opened.text, text) {
        return Some(HeadFault::OtherText);
    }
    if usize::from(role) >= opened.accepted.grammar().roles.len() {
        return Some(HeadFault::NoRole);
    }
    None
}

/// What a text opens for a role, where it is as it would be written, and the role is declared.
fn head_of(role: u16, text: &Text, opened: Opened) -> Result<Opened, HeadFault>
    ensures { IsFrontOf text.now true (Front.Ready opened) → OpensHead role text.now result }
{
    match fault_of(role, text, &opened) {
        None => Ok(opened),
        Some(fault) => Err(fault),
    }
}

/// The specification of a head, accepted, with its types and its text: what a node of this role serves.
pub fn open_head(alloc: Global, role: u16, text: &Text) -> Result<Opened, HeadFault>
    ensures { OpensHead role text.now result }
{
    if text.len() > INPUT_LIMIT {
        return Err(HeadFault::Refused(Reply::silent(alloc, Status::TooLong)));
    }
    match front_of_input(alloc, text.as_slice(), true)? {
        Front::Ready(opened) => head_of(role, text, opened),
        Front::Refused(said) => Err(HeadFault::Refused(said)),
    }
}
