//! The next event of a journal, tried.
ghost use Rattle.std.specs.Prelude.{◌≡◌, List, IfOk};
ghost use Rattle.aw_law_sites.specs.Worlds as V;
ghost use Rattle.aw_book_drive.specs.Driving.{grammar_in, types_in, IsUsable, Drives};
ghost use Rattle.aw_book_drive.specs.Joins.{TriesNext};

use crate::driver::{Driver, try_event};
use crate::lanes::Lane;
use aw_world::Workspace;
use std::alloc::AllocError;

/// Does the next event of a role's journal, where there is one and it is allowed; whether that is so.
pub(crate) fn try_next<W: Workspace>(
    driver: &mut Driver<'_, W>,
    lane: &Lane,
    role: usize,
) -> Result<bool, AllocError>
    requires { IsUsable driver.old }
    ensures accepted { driver.new.world.accepted.now ≡ driver.old.world.accepted.now }
    ensures typed { driver.new.typed.now ≡ driver.old.typed.now }
    ensures loads { driver.new.world.loads ≡ driver.old.world.loads }
    ensures tries { (v : V.World) (moves : List V.Move) → Drives ⟦<W as Workspace>⟧ driver.old v moves →
        IfOk result (TriesNext ⟦<W as Workspace>⟧ (types_in driver.old) (grammar_in driver.old) driver.new v moves role lane.now) }
{
    match &lane.next {
        Some(event) => {
            let came = try_event(driver, role, event)?;
            Ok(came)
        }
        None => Ok(false),
    }
}
