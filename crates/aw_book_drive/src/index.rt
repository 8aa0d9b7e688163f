//! The messages of a world, found by what they are about.
ghost use Rattle.std.specs.Prelude.{◌≡◌, ◌+◌, ◌++◌, ◌<◌, ℕ, [], List, None, length, map as list_map, IfOk, IfSome, IsTrue, ◌↔◌, OnOk};
ghost use Rattle.aw_list.specs.Members.{Member};
ghost use Rattle.aw_msg.specs.MessageView.{message_of};
ghost use Rattle.aw_term.specs.Rules.{Grammar};
ghost use Rattle.aw_apply.specs.Messages.{Message as PlainMessage};
ghost use Rattle.aw_book_drive.specs.Indexes.{numbers_of, Notes, AreNoted, Covers, IsAt};

use crate::messages::{is_same_message, subject_of};
use aw_list::Items;
use aw_msg::Message;
use aw_name::Ref;
use std::alloc::{AllocError, Global};
use std::collections::HashMap;

/// Numbers of messages.
pub(crate) type Numbers = Items<u64>;

/// The numbers of the first messages of a world, by what these are about.
#[derive(Drop)]
pub(crate) struct Index {
    pub(crate) alloc: Global,
    pub(crate) numbers: HashMap<Ref, Numbers>,
    pub(crate) count: usize,
}

/// A copy of the numbers that are noted for a reference.
#[tactic(auto, using(crate::proofs::Noting::entry_derived))]
fn noted_so_far(
    alloc: Global,
    numbers: &HashMap<Ref, Numbers>,
    subject: &Ref,
) -> Result<Numbers, AllocError>
    ensures { IfOk result (λ noted. noted ≡ numbers_of numbers.now subject.now) }
{
    match numbers.get(subject) {
        Some(known) => {
            let copy = known.as_slice().to_vec(alloc)?;
            Ok(Numbers::from_vec(copy))
        }
        None => Ok(Numbers::new(alloc)),
    }
}

/// Notes a number for a reference.
fn note(
    alloc: Global,
    numbers: &mut HashMap<Ref, Numbers>,
    subject: Ref,
    number: u64,
) -> Result<(), AllocError>
    ensures { OnOk result (Notes numbers.old numbers.new subject number) }
{
    let mut noted = noted_so_far(alloc, numbers, &subject)?;
    noted.push(number)?;
    numbers.insert(subject, noted)?;
    Ok(())
}

/// Notes the message at a place, the first that is not noted.
fn note_at(
    alloc: Global,
    numbers: &mut HashMap<Ref, Numbers>,
    messages: &[Message],
    at: usize,
) -> Result<(), AllocError>
    requires { at < length messages.now }
    ensures { (g : Grammar) → AreNoted numbers.old at (list_map (message_of g) messages.now) → OnOk result (AreNoted numbers.new (at + 1) (list_map (message_of g) messages.now)) }
{
    let subject = subject_of(&messages[at])?;
    note(alloc, numbers, subject, at as u64)?;
    Ok(())
}

/// Whether a message stands at a number.
fn is_at(messages: &[Message], number: u64, m: &Message) -> bool
    ensures { IsTrue result ↔ IsAt messages.now m.now number }
{
    match messages.get(number as usize) {
        Some(known) => is_same_message(known, m),
        None => false,
    }
}

/// The number among these at which a message stands.
fn find_among(numbers: &[u64], messages: &[Message], m: &Message) -> Option<u64>
    ensures found { IfSome result (IsAt messages.now m.now) }
    ensures none { result ≡ None → (k : ℕ) → Member k numbers.now → IsAt messages.now m.now k → ⊥ }
{
    for place in 0..numbers.len() {
        let number = &numbers[place];
        if is_at(messages, *number, m) {
            return Some(*number);
        }
    }
    None
}

impl Index {
    /// No message is noted.
    pub(crate) fn new(alloc: Global) -> Index
        ensures { Covers result [] }
    {
        Index {
            alloc,
            numbers: HashMap::new(alloc),
            count: 0,
        }
    }

    /// Notes the messages that came behind those that are noted. After an error some of them are noted.
    pub(crate) fn note(&mut self, messages: &[Message]) -> Result<(), AllocError>
        ensures { (g : Grammar) (front more : List PlainMessage) → list_map (message_of g) messages.now ≡ front ++ more → Covers self.old front →
            OnOk result (Covers self.new (list_map (message_of g) messages.now)) }
    {
        for at in self.count..messages.len() {
            note_at(self.alloc, &mut self.numbers, messages, at)?;
        }
        self.count = messages.len();
        Ok(())
    }

    /// The number of a message among these, where it is one of them.
    pub(crate) fn find(&self, messages: &[Message], m: &Message) -> Result<Option<u64>, AllocError>
        ensures found { IfOk result (λ o. IfSome o (IsAt messages.now m.now)) }
        ensures none { (g : Grammar) → Covers self.now (list_map (message_of g) messages.now) → IfOk result (λ o. o ≡ None → (k : ℕ) → IsAt messages.now m.now k → ⊥) }
    {
        let subject = subject_of(m)?;
        match self.numbers.get(&subject) {
            Some(numbers) => Ok(find_among(numbers.as_slice(), messages, m)),
            None => Ok(None),
        }
    }
}
