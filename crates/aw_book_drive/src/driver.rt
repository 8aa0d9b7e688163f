//! Events that come one by one, as far as they are allowed.
ghost use Rattle.std.specs.Prelude.{◌≡◌, ℕ, None, List, [], ◌∷◌, ◌++◌, IfOk, IfSome, OnOk};
ghost use Rattle.aw_choice.specs.ChoiceView.{choice_of};
ghost use Rattle.aw_journal.specs.EventView.{event_of};
ghost use Rattle.aw_law_sites.specs.SiteEvents.{Chose, Got};
ghost use Rattle.aw_law_sites.specs.Worlds as V;
ghost use Rattle.aw_law_journals.specs.Driving.{was_taken, was_new};
ghost use Rattle.aw_msg.specs.MessageView.{message_of};
ghost use Rattle.aw_world.specs.MoveView.{reply_of};
ghost use Rattle.aw_book_drive.specs.Indexes.{IsAt};
ghost use Rattle.aw_book_drive.specs.Driving.{grammar_in, types_in, may_be_asked, IsUsable, Drives, NotesSent, Tries};
ghost use Rattle.aw_book_drive.specs.Journals.{site_event};

use crate::choices::role_of;
use crate::index::Index;
use aw_base::choice_ok;
use aw_choice::{Answer, Choice, copy_choice};
use aw_journal::NodeEvent;
use aw_list::Counted;
use aw_msg::Message;
use aw_typed::{Typed, arg_ok};
use aw_world::{Move, Reply, Workspace, World};
use std::alloc::AllocError;

/// A world, the moves that led to it, and its messages by what they are about.
#[derive(Drop)]
pub(crate) struct Driver<'g, W: Workspace> {
    pub(crate) typed: &'g Typed,
    pub(crate) world: World<'g, W>,
    pub(crate) index: Index,
    pub(crate) moves: Vec<Move>,
}

/// Whether a choice was taken.
fn was_taken(reply: &Reply) -> bool
    ensures { result ≡ was_taken (reply_of reply.now) }
{
    matches!(reply, Reply::Choice(Answer::Taken))
}

/// Whether a message was new.
fn was_new(reply: &Reply) -> bool
    ensures { result ≡ was_new (reply_of reply.now) }
{
    matches!(reply, Reply::New)
}

/// Whether a choice fits the grammar and the types, and is made at this role.
pub(crate) fn may_be_asked<W: Workspace>(
    driver: &Driver<'_, W>,
    role: usize,
    choice: &Choice,
) -> bool
    requires { IsUsable driver.now }
    ensures { result ≡ may_be_asked (types_in driver.now) (grammar_in driver.now) role (choice_of choice.now) }
{
    let grammar = driver.world.accepted().grammar();
    choice_ok(grammar, choice)
        && arg_ok(driver.typed, choice)
        && usize::from(role_of(driver.world.allocator(), grammar, choice)) == role
}

/// The number of a message, where it was sent.
pub(crate) fn find<W: Workspace>(
    driver: &Driver<'_, W>,
    message: &Message,
) -> Result<Option<u64>, AllocError>
    ensures found { IfOk result (λ o. IfSome o (IsAt driver.now.world.messages message.now)) }
    ensures none { (v : V.World) (moves : List V.Move) → Drives ⟦<W as Workspace>⟧ driver.now v moves →
        IfOk result (λ o. o ≡ None → (k : ℕ) → IsAt driver.now.world.messages message.now k → ⊥) }
{
    driver.index.find(driver.world.messages(), message)
}

/// Keeps a move that was made, and notes what was sent for it.
fn keep<W: Workspace>(driver: &mut Driver<'_, W>, step: Move) -> Result<(), AllocError>
    ensures world { driver.new.world ≡ driver.old.world }
    ensures typed { driver.new.typed.now ≡ driver.old.typed.now }
    ensures moves { OnOk result (driver.new.moves.items ≡ driver.old.moves.items ++ step ∷ []) }
    ensures noted { OnOk result (NotesSent driver.old driver.new) }
{
    driver.moves.push(step)?;
    driver.index.note(driver.world.messages())?;
    Ok(())
}

/// Makes a choice, where it is allowed at this role; whether it is.
fn try_choice<W: Workspace>(
    driver: &mut Driver<'_, W>,
    role: usize,
    choice: &Choice,
) -> Result<bool, AllocError>
    requires { IsUsable driver.old }
    ensures accepted { driver.new.world.accepted.now ≡ driver.old.world.accepted.now }
    ensures typed { driver.new.typed.now ≡ driver.old.typed.now }
    ensures loads { driver.new.world.loads ≡ driver.old.world.loads }
    ensures tries { (v : V.World) (moves : List V.Move) → Drives ⟦<W as Workspace>⟧ driver.old v moves →
        IfOk result (Tries ⟦<W as Workspace>⟧ (types_in driver.old) (grammar_in driver.old) driver.new v moves role (Chose (choice_of choice.now))) }
{
    if !may_be_asked(driver, role, choice) {
        return Ok(false);
    }
    let shared = Counted::new(driver.world.allocator(), copy_choice(choice)?)?;
    let reply = driver.world.step(Move::Choose(shared.clone()?))?;
    if !was_taken(&reply) {
        return Ok(false);
    }
    keep(driver, Move::Choose(shared))?;
    Ok(true)
}

/// Delivers a message, where it was sent, is for this role and is new there; whether that is so.
fn try_message<W: Workspace>(
    driver: &mut Driver<'_, W>,
    role: usize,
    message: &Message,
) -> Result<bool, AllocError>
    requires { IsUsable driver.old }
    ensures accepted { driver.new.world.accepted.now ≡ driver.old.world.accepted.now }
    ensures typed { driver.new.typed.now ≡ driver.old.typed.now }
    ensures loads { driver.new.world.loads ≡ driver.old.world.loads }
    ensures tries { (v : V.World) (moves : List V.Move) → Drives ⟦<W as Workspace>⟧ driver.old v moves →
        IfOk result (Tries ⟦<W as Workspace>⟧ (types_in driver.old) (grammar_in driver.old) driver.new v moves role (Got (message_of (grammar_in driver.old) message.now))) }
{
    if usize::from(message.to) != role {
        return Ok(false);
    }
    let Some(number) = find(driver, message)? else {
        return Ok(false);
    };
    let reply = driver.world.step(Move::Deliver(number))?;
    if !was_new(&reply) {
        return Ok(false);
    }
    keep(driver, Move::Deliver(number))?;
    Ok(true)
}

/// Does an event of a role's journal, where it is allowed; whether it is.
pub(crate) fn try_event<W: Workspace>(
    driver: &mut Driver<'_, W>,
    role: usize,
    event: &NodeEvent,
) -> Result<bool, AllocError>
    requires { IsUsable driver.old }
    ensures accepted { driver.new.world.accepted.now ≡ driver.old.world.accepted.now }
    ensures typed { driver.new.typed.now ≡ driver.old.typed.now }
    ensures loads { driver.new.world.loads ≡ driver.old.world.loads }
    ensures tries { (v : V.World) (moves : List V.Move) → Drives ⟦<W as Workspace>⟧ driver.old v moves →
        IfOk result (Tries ⟦<W as Workspace>⟧ (types_in driver.old) (grammar_in driver.old) driver.new v moves role (site_event (grammar_in driver.old) (event_of event.now))) }
{
    match event {
        NodeEvent::Took(choice) => try_choice(driver, role, choice),
        NodeEvent::Got(message) => try_message(driver, role, message),
    }
}
