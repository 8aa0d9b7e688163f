//! What a node goes back to after a crash, and what it does not lose.
ghost use Rattle.aw_kept_node.specs.Laws.{SitesAreRuns, FirstAreKept, FirstAreSafe, BytesAreSafe, StaySafe};
ghost use Rattle.aw_node.specs.TypedNodes.{Rules};

use aw_disk::Disk;

/// The site that events make, each of them one when it comes, is the site of these events in a world whose sites may go back to their first
/// events (`runs`); and where each event is one, so are the first ones, so that what a crash leaves can be reopened (`first`).
pub fn kept_sites()
    ensures runs { (r : Rules) → SitesAreRuns r }
    ensures first { (r : Rules) → FirstAreKept r }
{}

/// Of frames that a kept node answered, any first ones: from a moment before a byte of the last one's reply is written no crash loses an
/// event of them (`first`); and so of the bytes of its replies, any first ones (`bytes`). None is lost while a later run of the node goes on
/// from the same disk either (`stay`).
pub fn kept_replies<D: Disk>()
    ensures first { FirstAreSafe ⟦<D as Disk>⟧ }
    ensures bytes { BytesAreSafe ⟦<D as Disk>⟧ }
    ensures stay { StaySafe ⟦<D as Disk>⟧ }
{}
