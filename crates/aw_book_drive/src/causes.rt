//! Why the next event of a journal is not allowed.
ghost use Rattle.std.specs.Prelude.{◌≡◌, ◌↔◌, ℕ, List, None, Some, slice_get, IfOk, IfSome, IsTrue};
ghost use Rattle.aw_choice.specs.ChoiceView.{choice_of};
ghost use Rattle.aw_journal.specs.EventView.{event_of};
ghost use Rattle.aw_journal.specs.declared.payload.NodeEvent.TheVariants.{Got, Took};
ghost use Rattle.aw_law_journals.specs.Journals.{Fits};
ghost use Rattle.aw_law_sites.specs.SiteEvents.{Chose};
ghost use Rattle.aw_law_sites.specs.Worlds as V;
ghost use Rattle.aw_term.specs.Rules.{Grammar};
ghost use Rattle.aw_term.specs.Trees.{Never};
ghost use Rattle.aw_typed.specs.Types.{Types};
ghost use Rattle.aw_book_drive.specs.Causes.{AreAlike, IsAlikeAt, IsCause, TellsCause};
ghost use Rattle.aw_book_drive.specs.Driving.{grammar_in, types_in, IsUsable, Uses, Drives};
ghost use Rattle.aw_book_drive.specs.Joins.{NoneFits};
ghost use Rattle.aw_book_drive.specs.Journals.{site_event};
ghost use Rattle.aw_book_drive.specs.declared.lanes.Lane.{Lane as LaneValue};

use crate::driver::{Driver, find, may_be_asked};
use crate::joining::Joined;
use aw_choice::{Answer, Choice, copy_choice};
use aw_journal::NodeEvent;
use aw_list::Counted;
use aw_msg::{Message, MsgKind};
use aw_name::{Node, Ref, Refs};
use aw_store::Equation;
use aw_world::{Move, Reply, Workspace};
use std::alloc::AllocError;

/// Why an event is not allowed in a world.
#[derive(Drop)]
pub enum Cause {
    /// The choice does not fit the grammar or its types, or is made at another role.
    Unfit,
    /// The choice is answered so.
    Refused(Answer),
    /// The message is for another role.
    Elsewhere,
    /// The message was sent with this number, and is nothing new.
    NotNew(u64),
    /// The message was not sent. The one with this number says the same to the same role, with another load.
    OtherLoad(u64),
    /// The message was not sent, and none that says the same.
    Unsent,
}

/// Whether two calls are one, without their loads.
fn are_same_calls(node: &Node, inherited: &Refs, other: &Node, others: &Refs) -> bool
    ensures { IsTrue result ↔ (node.now ≡ other.now) × (inherited.now ≡ others.now) }
{
    node == other && inherited == others
}

/// Whether two asks are one.
fn are_same_asks(reference: &Ref, from: u16, other: &Ref, role: u16) -> bool
    ensures { IsTrue result ↔ (reference.now ≡ other.now) × (from ≡ role) }
{
    reference == other && from == role
}

/// Whether two tells are one, without their loads.
fn are_same_tells(equation: &Equation, other: &Equation) -> bool
    ensures { IsTrue result ↔ (equation.now ≡ other.now) }
{
    equation == other
}

/// Whether two messages say the same to the same role, whatever their loads.
fn are_alike(a: &Message, b: &Message) -> bool
    ensures { IsTrue result ↔ AreAlike a.now b.now }
{
    if a.to != b.to {
        return false;
    }
    match (a.kind.get(), b.kind.get()) {
        (
            MsgKind::Call {
                node,
                inherited,
                ..
            },
            MsgKind::Call {
                node: other,
                inherited: others,
                ..
            },
        ) => are_same_calls(node, inherited, other, others),
        (
            MsgKind::Ask { reference, from },
            MsgKind::Ask {
                reference: other,
                from: role,
            },
        ) => are_same_asks(reference, *from, other, *role),
        (
            MsgKind::Tell { equation, .. },
            MsgKind::Tell {
                equation: other,
                ..
            },
        ) => are_same_tells(equation, other),
        _ => false,
    }
}

/// The first of these messages that says the same to the same role.
fn find_alike(messages: &[Message], m: &Message) -> Option<u64>
    ensures found { IfSome result (IsAlikeAt messages.now m.now) }
    ensures none { result ≡ None → (k : ℕ) → IsAlikeAt messages.now m.now k → Never }
{
    for number in 0..messages.len() {
        if are_alike(&messages[number], m) {
            return Some(number as u64);
        }
    }
    None
}

/// Why a choice is not allowed.
fn cause_of_choice<W: Workspace>(
    driver: &mut Driver<'_, W>,
    role: usize,
    choice: &Choice,
) -> Result<Cause, AllocError>
    requires { IsUsable driver.old }
    ensures accepted { driver.new.world.accepted.now ≡ driver.old.world.accepted.now }
    ensures typed { driver.new.typed.now ≡ driver.old.typed.now }
    ensures cause { (v : V.World) (moves : List V.Move) → Drives ⟦<W as Workspace>⟧ driver.old v moves →
        ((e : V.Move) → Fits (types_in driver.old) (grammar_in driver.old) v role (Chose (choice_of choice.now)) e → Never) →
        IfOk result (λ cause. IsCause (types_in driver.old) (grammar_in driver.old) v driver.old.world.messages role (Took choice.now) cause × Drives ⟦<W as Workspace>⟧ driver.new v moves) }
{
    if !may_be_asked(driver, role, choice) {
        return Ok(Cause::Unfit);
    }
    let asked = Counted::new(driver.world.allocator(), copy_choice(choice)?)?;
    match driver.world.step(Move::Choose(asked))? {
        Reply::Choice(answer) => Ok(Cause::Refused(answer)),
        // These are no replies to a choice.
        Reply::New | Reply::Again | Reply::NoMessage => Err(AllocError),
    }
}

/// Why a message is not allowed.
fn cause_of_message<W: Workspace>(
    driver: &Driver<'_, W>,
    role: usize,
    message: &Message,
) -> Result<Cause, AllocError>
    ensures { (v : V.World) (moves : List V.Move) → Drives ⟦<W as Workspace>⟧ driver.now v moves →
        IfOk result (IsCause (types_in driver.now) (grammar_in driver.now) v driver.now.world.messages role (Got message.now)) }
{
    if usize::from(message.to) != role {
        return Ok(Cause::Elsewhere);
    }
    if let Some(number) = find(driver, message)? {
        return Ok(Cause::NotNew(number));
    }
    match find_alike(driver.world.messages(), message) {
        Some(number) => Ok(Cause::OtherLoad(number)),
        None => Ok(Cause::Unsent),
    }
}

/// Why an event is not allowed.
fn cause_of<W: Workspace>(
    driver: &mut Driver<'_, W>,
    role: usize,
    event: &NodeEvent,
) -> Result<Cause, AllocError>
    requires { IsUsable driver.old }
    ensures accepted { driver.new.world.accepted.now ≡ driver.old.world.accepted.now }
    ensures typed { driver.new.typed.now ≡ driver.old.typed.now }
    ensures cause { (v : V.World) (moves : List V.Move) → Drives ⟦<W as Workspace>⟧ driver.old v moves →
        ((e : V.Move) → Fits (types_in driver.old) (grammar_in driver.old) v role (site_event (grammar_in driver.old) (event_of event.now)) e → Never) →
        IfOk result (λ cause. IsCause (types_in driver.old) (grammar_in driver.old) v driver.old.world.messages role event.now cause × Drives ⟦<W as Workspace>⟧ driver.new v moves) }
{
    match event {
        NodeEvent::Took(choice) => cause_of_choice(driver, role, choice),
        NodeEvent::Got(message) => cause_of_message(driver, role, message),
    }
}

impl<'g, W: Workspace> Joined<'g, W> {
    /// Why the next event of a role's journal is not allowed; `None` where there is none. Nothing changes.
    ///
    /// # Errors
    /// Where memory runs out; nothing is claimed then.
    pub fn cause(&mut self, role: usize) -> Result<Option<Cause>, AllocError>
        requires { IsUsable self.old.driver }
        ensures usable { IsUsable self.new.driver }
        ensures accepted { self.new.driver.world.accepted.now ≡ self.old.driver.world.accepted.now }
        ensures lanes { self.new.lanes ≡ self.old.lanes }
        ensures cause { (t : Types) (g : Grammar) → Uses self.old.driver t g → (v : V.World) (moves : List V.Move) → Drives ⟦<W as Workspace>⟧ self.old.driver v moves →
            (lane : LaneValue) → slice_get self.old.lanes.items role ≡ Some lane → NoneFits t g v role lane →
            IfOk result (λ cause. TellsCause t g v self.old.driver.world.messages role lane cause × Drives ⟦<W as Workspace>⟧ self.new.driver v moves) }
    {
        if role >= self.lanes.len() {
            return Ok(None);
        }
        match &self.lanes[role].next {
            Some(event) => Ok(Some(cause_of(&mut self.driver, role, event)?)),
            None => Ok(None),
        }
    }
}
