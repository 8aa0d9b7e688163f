//! The turns of a trial.
ghost use Rattle.std.specs.Prelude.{◌≡◌, ◌<◌, ◌≤◌, true, OnOk, slice_get};
ghost use Rattle.aw_base.specs.NodeNames.{is_start};
ghost use Rattle.aw_world.specs.MoveView.{reply_of};
ghost use Rattle.aw_world.specs.WorldView.{plain_of};
ghost use Rattle.aw_trial.specs.Comes.{Does, AddsOne, AreUpTo};
ghost use Rattle.aw_trial.specs.Turns.{replies_again, start_case, deliver_some, turn_on, turn, turns};

use crate::choosing::choose_some;
use crate::drawing::draw;
use crate::tally::Tally;
use aw_choice::Choice;
use aw_list::Counted;
use aw_world::{Move, Reply, Workspace, World};
use std::alloc::AllocError;

/// Starts the next case, of the first sort.
fn start_case<W: Workspace>(world: &mut World<W>, tally: &mut Tally) -> Result<(), AllocError>
    requires start { is_start (slice_get (plain_of world.old).sorts 0) ≡ true }
    requires room { AreUpTo 1000000 tally.old }
    ensures accepted { world.new.accepted.now ≡ world.old.accepted.now }
    ensures loads { world.new.loads ≡ world.old.loads }
    ensures does { OnOk result (Does ⟦<W as Workspace>⟧ world.old tally.old world.new tally.new (start_case (plain_of world.old))) }
    ensures grows { OnOk result (AddsOne tally.old tally.new) }
{
    let start = Choice::Start {
        sort: 0,
        case: tally.starts,
    };
    let start = Counted::new(world.allocator(), start)?;
    world.step(Move::Choose(start))?;
    tally.starts += 1;
    Ok(())
}

/// Whether a delivery brought nothing new.
fn is_again(reply: &Reply) -> bool
    ensures { result ≡ replies_again (reply_of reply.now) }
{
    matches!(reply, Reply::Again)
}

/// Delivers one of the messages that were sent so far, where there is one.
fn deliver_some<W: Workspace>(world: &mut World<W>, tally: &mut Tally) -> Result<(), AllocError>
    requires { AreUpTo 1000000 tally.old }
    ensures accepted { world.new.accepted.now ≡ world.old.accepted.now }
    ensures loads { world.new.loads ≡ world.old.loads }
    ensures does { OnOk result (Does ⟦<W as Workspace>⟧ world.old tally.old world.new tally.new (deliver_some (plain_of world.old))) }
    ensures grows { OnOk result (AddsOne tally.old tally.new) }
{
    let sent = world.messages().len() as u64;
    if sent == 0 {
        return Ok(());
    }
    let number = draw(tally, sent);
    let reply = world.step(Move::Deliver(number))?;
    tally.repeats += u64::from(is_again(&reply));
    Ok(())
}

/// Does what was drawn for a turn.
fn turn_on<W: Workspace>(
    world: &mut World<W>,
    tally: &mut Tally,
    what: u64,
) -> Result<(), AllocError>
    requires start { is_start (slice_get (plain_of world.old).sorts 0) ≡ true }
    requires room { AreUpTo 1000000 tally.old }
    ensures accepted { world.new.accepted.now ≡ world.old.accepted.now }
    ensures loads { world.new.loads ≡ world.old.loads }
    ensures does { OnOk result (Does ⟦<W as Workspace>⟧ world.old tally.old world.new tally.new (turn_on (plain_of world.old) what)) }
    ensures grows { OnOk result (AddsOne tally.old tally.new) }
{
    if what == 0 {
        start_case(world, tally)
    } else if what <= 3 {
        choose_some(world, tally)
    } else {
        deliver_some(world, tally)
    }
}

/// A turn.
fn turn<W: Workspace>(world: &mut World<W>, tally: &mut Tally) -> Result<(), AllocError>
    requires start { is_start (slice_get (plain_of world.old).sorts 0) ≡ true }
    requires room { AreUpTo 1000000 tally.old }
    ensures accepted { world.new.accepted.now ≡ world.old.accepted.now }
    ensures loads { world.new.loads ≡ world.old.loads }
    ensures does { OnOk result (Does ⟦<W as Workspace>⟧ world.old tally.old world.new tally.new (turn (plain_of world.old))) }
    ensures grows { OnOk result (AddsOne tally.old tally.new) }
{
    let what = draw(tally, 8);
    turn_on(world, tally, what)
}

/// So many turns, where nothing was counted before.
pub(crate) fn turns<W: Workspace>(
    world: &mut World<W>,
    tally: &mut Tally,
    count: u64,
) -> Result<(), AllocError>
    requires start { is_start (slice_get (plain_of world.old).sorts 0) ≡ true }
    requires new { AreUpTo 0 tally.old }
    requires few { count ≤ 1000000 }
    ensures accepted { world.new.accepted.now ≡ world.old.accepted.now }
    ensures loads { world.new.loads ≡ world.old.loads }
    ensures does { OnOk result (Does ⟦<W as Workspace>⟧ world.old tally.old world.new tally.new (turns count (plain_of world.old))) }
{
    for _ in 0..count {
        turn(world, tally)?;
    }
    Ok(())
}
