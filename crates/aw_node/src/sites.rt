//! A site of the program as the workspace of a node.
ghost use Rattle.std.specs.Prelude.{◌≡◌, IfOk, length, slice_get, map as list_map};
ghost use Rattle.aw_term.specs.Rules.{Grammar as PlainGrammar};
ghost use Rattle.aw_term.specs.WellFormed.{Each};
ghost use Rattle.aw_apply.specs.Messages as P;
ghost use Rattle.aw_choice.specs.ChoiceView.{item_of};
ghost use Rattle.aw_msg.specs.MessageView.{message_of};
ghost use Rattle.aw_msg.specs.Messages.{MessageInRange};
ghost use Rattle.aw_msg.specs.ReplyRanges.{ReplyInRange};
ghost use Rattle.aw_msg.specs.ResponseView.{response_of};
ghost use Rattle.aw_law_nodes.specs.Nodes as N;
ghost use Rattle.aw_law_nodes.specs.Told.{told};
ghost use Rattle.aw_law_sites.specs.Sites as S;
ghost use Rattle.aw_site.specs.Answers.{IsReceived};
ghost use Rattle.aw_site.specs.Seen.{IsShown};

use crate::workspace::NodeWorkspace;
use aw_accept::Accepted;
use aw_choice::{Answer, Choice, Item, Worklist};
use aw_msg::{Answered, Message, copy_message};
use aw_site::{Received, Site};
use aw_store::Facts;
use std::alloc::AllocError;

/// The reply to a message that came.
fn answered(received: Received) -> Answered
    ensures range { ReplyInRange result }
    ensures reply { (g : PlainGrammar) (s : S.Site) (x : P.Received S.Reaction) → IsReceived received x → response_of g result ≡ told (N.received s x).response }
{
    match received {
        Received::BadName => Answered::BadName,
        Received::NotMine => Answered::NotMine,
        Received::Conflict { kept, came } => Answered::Conflict { kept, came },
        Received::Repeat => Answered::Again,
        Received::New(_) => Answered::New,
    }
}

/// The message at a place, or how many there are.
fn message_at(messages: &[Message], place: u64) -> Result<Answered, AllocError>
    requires { Each MessageInRange messages.now }
    ensures range { IfOk result ReplyInRange }
    ensures reply { IfOk result (λ a. (g : PlainGrammar) → response_of g a
        ≡ told (N.at_place N.Sends (length (list_map (message_of g) messages.now)) (slice_get (list_map (message_of g) messages.now) place))) }
{
    let count = messages.len() as u64;
    if place < count {
        Ok(Answered::Message(copy_message(&messages[place as usize])?))
    } else {
        Ok(Answered::Nothing(count))
    }
}

/// A copy of an item.
fn copy_item(item: &Item) -> Result<Item, AllocError>
    ensures { IfOk result (λ copy. copy ≡ item.now) }
{
    item.clone()
}

/// The item at a place, or how many there are.
pub(crate) fn item_at(items: &Worklist, place: u64) -> Result<Answered, AllocError>
    ensures range { IfOk result ReplyInRange }
    ensures reply { IfOk result (λ a. (g : PlainGrammar) → response_of g a
        ≡ told (N.at_place N.Shows (length (list_map item_of items.now)) (slice_get (list_map item_of items.now) place))) }
{
    let count = items.len() as u64;
    if place < count {
        Ok(Answered::Item(copy_item(items.at(place as usize))?))
    } else {
        Ok(Answered::Nothing(count))
    }
}

impl<'g, F: Facts> NodeWorkspace for Site<'g, F> {
    ghost shows = { λ w s. IsShown ⟦<F as Facts>⟧ w s };

    ghost grammar = { λ w. w.space.accepted.now.grammar };

    fn role(&self) -> u16 {
        Site::role(self)
    }

    fn choose(&mut self, g: &Accepted, c: &Choice) -> Result<Answer, AllocError> {
        let (answer, _) = Site::choose(self, g, c)?;
        Ok(answer)
    }

    fn receive(&mut self, g: &Accepted, m: &Message) -> Result<Answered, AllocError> {
        let received = Site::receive(self, g, m)?;
        Ok(answered(received))
    }

    fn pull(&self, _g: &Accepted, place: u64) -> Result<Answered, AllocError> {
        message_at(self.outbox(), place)
    }

    fn list(&mut self, g: &Accepted, place: u64) -> Result<Answered, AllocError> {
        let items = Site::list(self, g)?;
        item_at(&items, place)
    }
}
