//! How far the journal of each role came.
ghost use Rattle.std.specs.Prelude.{◌≡◌, ◌<◌, ◌+◌, ◌++◌, ◌∷◌, [], length, map as list_map, Some, slice_get, slice_set, IfOk, OnOk};
ghost use Rattle.aw_book_drive.specs.Lanes.{Reads, AreFresh};
ghost use Rattle.aw_book_drive.specs.Sources.{TellsReads};
ghost use Rattle.aw_book_drive.specs.declared.lanes.Lane.{Lane as LaneValue};

use crate::fault::JoinFault;
use crate::source::{EventSource, SourceFault};
use aw_journal::NodeEvent;
use std::alloc::{AllocError, Global};

/// The next event of a journal, where there is one, and how many came before it.
#[derive(Drop)]
pub struct Lane {
    pub next: Option<NodeEvent>,
    pub count: u64,
}

/// The next event of a role's journal.
pub(crate) fn read_on<S: EventSource>(
    alloc: Global,
    sources: &mut [S],
    role: usize,
) -> Result<Option<NodeEvent>, JoinFault>
    requires { role < length sources.old }
    ensures many { length sources.new ≡ length sources.old }
    ensures reads { IfOk result (Reads S.gives sources.old sources.new role) }
    ensures told { TellsReads (list_map S.faults sources.old) (list_map S.faults sources.new) result }
{
    match sources[role].next(alloc) {
        Ok(found) => Ok(found),
        Err(SourceFault::Unread) => Err(JoinFault::Unread { role }),
        Err(SourceFault::NoMemory) => Err(JoinFault::NoMemory),
    }
}

/// Adds a journal of which nothing came.
fn add_lane(lanes: &mut Vec<Lane>, next: Option<NodeEvent>) -> Result<(), AllocError>
    ensures { OnOk result (lanes.new.items ≡ lanes.old.items ++ record { next = next; count = 0 } ∷ []) }
{
    lanes.push(Lane { next, count: 0 })?;
    Ok(())
}

/// One event more came of a role's journal, and this one is next.
pub(crate) fn put_next(
    lanes: &mut Vec<Lane>,
    role: usize,
    next: Option<NodeEvent>,
) -> Result<(), AllocError>
    requires { role < length lanes.old.items }
    ensures many { length lanes.new.items ≡ length lanes.old.items }
    ensures put { OnOk result ((lane : LaneValue) → slice_get lanes.old.items role ≡ Some lane
        → lanes.new.items ≡ slice_set lanes.old.items role (record { next = next; count = lane.count + 1 })) }
{
    let count = lanes[role].count;
    // No journal has so many events.
    if count == u64::MAX {
        return Err(AllocError);
    }
    lanes[role] = Lane {
        next,
        count: count + 1,
    };
    Ok(())
}

/// The first event of each journal.
pub(crate) fn open_lanes<S: EventSource>(
    alloc: Global,
    sources: &mut [S],
) -> Result<Vec<Lane>, JoinFault>
    ensures many { length sources.new ≡ length sources.old }
    ensures lanes { IfOk result (λ lanes. AreFresh S.gives sources.old sources.new lanes.items) }
    ensures told { TellsReads (list_map S.faults sources.old) (list_map S.faults sources.new) result }
{
    let mut lanes = Vec::new(alloc);
    for role in 0..sources.len() {
        let next = read_on(alloc, sources, role)?;
        add_lane(&mut lanes, next)?;
    }
    Ok(lanes)
}
