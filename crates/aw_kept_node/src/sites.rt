//! Serving the site of a role that survives crashes.
ghost use Rattle.std.specs.Prelude.{◌≡◌, ◌⊎◌, ◌<◌, ◌≤◌, true, length, IfOk, IfErr, IsErrOf};
ghost use Rattle.aw_kept_node.specs.Serving.{IsKeptServing, StopsKept};
ghost use Rattle.aw_grammar.specs.GrammarOf.{grammar_of};
ghost use Rattle.aw_node.specs.Staying.{NodeStays};
ghost use Rattle.aw_node.specs.TypedNodes.{rules_of};
ghost use Rattle.aw_law_sites.specs.Sites.{empty_site};
ghost use Rattle.aw_session.specs.Sessions.{NoneComes};
ghost use Rattle.aw_typed.specs.Typing.{IsMadeFor};

use crate::fault::KeptFault;
use crate::serving::serve_kept_workspace;
use aw_accept::Accepted;
use aw_cells::CellFacts;
use aw_disk::Disk;
use aw_node::ListedSite;
use aw_out::Wire;
use aw_session::Log;
use aw_site::Site;
use aw_typed::Typed;
use std::alloc::Global;

/// Serves the site of a role, which sends loads, in so many sessions, or as many as come, and tells of each. The site is what the events of its
/// journal make of one that holds nothing, and each event is on the disk before its reply is written.
///
/// # Errors
/// As those of `serve_kept_workspace`.
pub fn serve_kept<W: Wire, D: Disk>(
    alloc: Global,
    g: &Accepted,
    t: &Typed,
    role: u16,
    sessions: u32,
    text: &[u8],
    wire: &mut W,
    disk: &mut D,
) -> Result<Log, KeptFault>
    requires role { role < (grammar_of g.now.grammar).roles }
    requires types { IsMadeFor (grammar_of g.now.grammar) t.now }
    ensures served { IfOk result (IsKeptServing ⟦<W as Wire>⟧ ⟦<D as Disk>⟧ (rules_of g.now.grammar t.now) role text.now (empty_site true role) wire.old wire.new disk.old disk.new) }
    ensures most { IfOk result (λ log. length log ≤ sessions) }
    ensures all { IfOk result (λ log. (length log ≡ sessions) ⊎ NoneComes (W.content wire.new)) }
    ensures stopped { IfErr result (StopsKept ⟦<W as Wire>⟧ ⟦<D as Disk>⟧ (rules_of g.now.grammar t.now) role text.now (empty_site true role) wire.old wire.new disk.old disk.new) }
    // A call of the disk that failed is told; after any other answer none has failed.
    ensures kept { (IsErrOf result KeptFault.DiskFault → ⊥) → D.faults disk.new ≡ D.faults disk.old }
    // A session that could not be opened is told; after any other answer each was opened.
    ensures openings_kept { (IsErrOf result KeptFault.NetFault → ⊥) → W.failed_openings wire.new ≡ W.failed_openings wire.old }
    // Whatever frames came, forged ones too, none takes away or contradicts what the node holds.
    ensures stays { NodeStays (rules_of g.now.grammar t.now) }
{
    let site = Site::new(alloc, g, role, CellFacts::new(alloc), true);
    serve_kept_workspace(
        alloc,
        g,
        t,
        ListedSite::new(site),
        role,
        sessions,
        text,
        wire,
        disk,
    )
}
