//! The join: as long as the next event of some journal is allowed, it comes.
ghost use Rattle.std.specs.Prelude.{◌≡◌, ◌<◌, List, length, map as list_map, false, true, IfOk, OnOk};
ghost use Rattle.aw_grammar.specs.GrammarOf.{grammar_of};
ghost use Rattle.aw_journal.specs.Events.{Event};
ghost use Rattle.aw_law_sites.specs.Worlds as V;
ghost use Rattle.aw_term.specs.Rules.{Grammar};
ghost use Rattle.aw_typed.specs.Types.{Types};
ghost use Rattle.aw_typed.specs.Typing.{IsMadeFor, types_of};
ghost use Rattle.aw_book_drive.specs.Driving.{IsUsable, Uses};
ghost use Rattle.aw_book_drive.specs.Sources.{TellsReads};
ghost use Rattle.aw_book_drive.specs.Joins.{Stands, IsBlocked, AreBlocked, GoesFrom, IsSet, IsThrough, IsJoined};

use crate::driver::Driver;
use crate::fault::JoinFault;
use crate::index::Index;
use crate::lane_tries::try_next;
use crate::lanes::{Lane, open_lanes, put_next, read_on};
use crate::source::EventSource;
use aw_accept::Accepted;
use aw_typed::Typed;
use aw_world::{Made, Move, Workspace, World};
use std::alloc::Global;

/// Journals, joined as far as they fit: the world that their events made, the moves that these were, and where each journal stands.
#[derive(Drop)]
pub struct Joined<'g, W: Workspace> {
    pub(crate) driver: Driver<'g, W>,
    pub(crate) lanes: Vec<Lane>,
}

/// Does the next event of a role's journal, where it is allowed, and reads on; whether it is.
fn go_on<W: Workspace, S: EventSource>(
    joined: &mut Joined<'_, W>,
    sources: &mut [S],
    role: usize,
) -> Result<bool, JoinFault>
    requires set { IsSet joined.old sources.old }
    requires role { role < length sources.old }
    ensures accepted { joined.new.driver.world.accepted.now ≡ joined.old.driver.world.accepted.now }
    ensures typed { joined.new.driver.typed.now ≡ joined.old.driver.typed.now }
    ensures loads { joined.new.driver.world.loads ≡ joined.old.driver.world.loads }
    ensures lanes { length joined.new.lanes.items ≡ length joined.old.lanes.items }
    ensures many { length sources.new ≡ length sources.old }
    ensures goes { GoesFrom ⟦<W as Workspace>⟧ S.gives joined.old sources.old joined.new sources.new (λ t g moves. IsBlocked t g joined.new.lanes.items moves role) result }
    ensures still { IfOk result (λ moved. moved ≡ false → joined.new.lanes.items ≡ joined.old.lanes.items) }
    ensures told { TellsReads (list_map S.faults sources.old) (list_map S.faults sources.new) result }
{
    if !try_next(&mut joined.driver, &joined.lanes[role], role)? {
        return Ok(false);
    }
    match read_on(joined.driver.world.allocator(), sources, role) {
        Ok(next) => {
            put_next(&mut joined.lanes, role, next)?;
            Ok(true)
        }
        Err(fault) => Err(fault),
    }
}

/// Does the next events of a role's journal as far as they are allowed; whether any was.
fn go_far<W: Workspace, S: EventSource>(
    joined: &mut Joined<'_, W>,
    sources: &mut [S],
    role: usize,
) -> Result<bool, JoinFault>
    requires set { IsSet joined.old sources.old }
    requires role { role < length sources.old }
    ensures accepted { joined.new.driver.world.accepted.now ≡ joined.old.driver.world.accepted.now }
    ensures typed { joined.new.driver.typed.now ≡ joined.old.driver.typed.now }
    ensures loads { joined.new.driver.world.loads ≡ joined.old.driver.world.loads }
    ensures lanes { length joined.new.lanes.items ≡ length joined.old.lanes.items }
    ensures many { length sources.new ≡ length sources.old }
    ensures goes { GoesFrom ⟦<W as Workspace>⟧ S.gives joined.old sources.old joined.new sources.new (λ t g moves. IsBlocked t g joined.new.lanes.items moves role) result }
    ensures still { IfOk result (λ moved. moved ≡ false → joined.new.lanes.items ≡ joined.old.lanes.items) }
    ensures told { TellsReads (list_map S.faults sources.old) (list_map S.faults sources.new) result }
{
    for number in 0..u64::MAX {
        if !go_on(joined, sources, role)? {
            return Ok(number > 0);
        }
    }
    // No journal has so many events.
    Err(JoinFault::NoMemory)
}

/// Takes each journal as far as it goes; whether any event came.
fn pass<W: Workspace, S: EventSource>(
    joined: &mut Joined<'_, W>,
    sources: &mut [S],
) -> Result<bool, JoinFault>
    requires set { IsSet joined.old sources.old }
    ensures accepted { joined.new.driver.world.accepted.now ≡ joined.old.driver.world.accepted.now }
    ensures typed { joined.new.driver.typed.now ≡ joined.old.driver.typed.now }
    ensures loads { joined.new.driver.world.loads ≡ joined.old.driver.world.loads }
    ensures lanes { length joined.new.lanes.items ≡ length joined.old.lanes.items }
    ensures many { length sources.new ≡ length sources.old }
    ensures goes { GoesFrom ⟦<W as Workspace>⟧ S.gives joined.old sources.old joined.new sources.new (λ t g moves. AreBlocked t g joined.new.lanes.items moves (length sources.new)) result }
    ensures told { TellsReads (list_map S.faults sources.old) (list_map S.faults sources.new) result }
{
    let mut moved = false;
    for role in 0..joined.lanes.len() {
        moved |= go_far(joined, sources, role)?;
    }
    Ok(moved)
}

/// Takes the journals as far as they go.
fn go_through<W: Workspace, S: EventSource>(
    joined: &mut Joined<'_, W>,
    sources: &mut [S],
) -> Result<(), JoinFault>
    requires set { IsSet joined.old sources.old }
    ensures accepted { joined.new.driver.world.accepted.now ≡ joined.old.driver.world.accepted.now }
    ensures typed { joined.new.driver.typed.now ≡ joined.old.driver.typed.now }
    ensures loads { joined.new.driver.world.loads ≡ joined.old.driver.world.loads }
    ensures lanes { length joined.new.lanes.items ≡ length joined.old.lanes.items }
    ensures many { length sources.new ≡ length sources.old }
    ensures goes { (t : Types) (g : Grammar) → Uses joined.old.driver t g → (firsts : List S) (came : List (List Event)) (moves : List V.Move) →
        Stands ⟦<W as Workspace>⟧ S.gives t g firsts joined.old sources.old came moves →
        OnOk result (IsThrough ⟦<W as Workspace>⟧ S.gives t g firsts joined.new sources.new) }
    ensures told { TellsReads (list_map S.faults sources.old) (list_map S.faults sources.new) result }
{
    for number in 0..u64::MAX {
        if !pass(joined, sources)? {
            return Ok(());
        }
    }
    // There are no so many passes in which an event comes.
    Err(JoinFault::NoMemory)
}

/// Joins the journals of all roles as far as they fit, one journal for each role, in the order of roles.
///
/// # Errors
/// `Unread` where a read of a journal failed, with its role; `NoMemory`.
pub fn join<'g, W: Made<'g>, S: EventSource>(
    alloc: Global,
    accepted: &'g Accepted,
    typed: &'g Typed,
    sources: &mut [S],
) -> Result<Joined<'g, W>, JoinFault>
    requires { IsMadeFor (grammar_of accepted.now.grammar) typed.now }
    ensures joined { IfOk result (IsJoined ⟦<W as Workspace>⟧ S.gives (types_of typed.now.types) (grammar_of accepted.now.grammar) sources.old) }
    ensures accepted { IfOk result (λ x. x.driver.world.accepted.now ≡ accepted.now) }
    ensures typed { IfOk result (λ x. x.driver.typed.now ≡ typed.now) }
    ensures usable { IfOk result (λ x. IsUsable x.driver) }
    ensures loads { IfOk result (λ x. x.driver.world.loads ≡ true) }
    ensures told { TellsReads (list_map S.faults sources.old) (list_map S.faults sources.new) result }
{
    let lanes = open_lanes(alloc, sources)?;
    let mut joined = Joined {
        driver: Driver {
            typed,
            world: World::new(alloc, accepted, true)?,
            index: Index::new(alloc),
            moves: Vec::new(alloc),
        },
        lanes,
    };
    go_through(&mut joined, sources)?;
    Ok(joined)
}

impl<'g, W: Workspace> Joined<'g, W> {
    /// The world that the events made.
    pub fn world(&self) -> &World<'g, W>
        ensures { result.now ≡ self.now.driver.world }
    {
        &self.driver.world
    }

    /// The moves that led to it.
    pub fn moves(&self) -> &[Move]
        ensures { result.now ≡ self.now.driver.moves.items }
    {
        self.driver.moves.as_slice()
    }

    /// Where each role's journal stands.
    pub fn lanes(&self) -> &[Lane]
        ensures { result.now ≡ self.now.lanes.items }
    {
        self.lanes.as_slice()
    }
}
