//! Serving a workspace.
ghost use Rattle.std.specs.Prelude.{◌≡◌, ◌⊎◌, ◌<◌, ◌≤◌, true, length, IfOk, IfErr, IsErrOf};
ghost use Rattle.aw_grammar.specs.GrammarOf.{grammar_of};
ghost use Rattle.aw_node.specs.Serving.{Serves, Stops};
ghost use Rattle.aw_node.specs.Staying.{NodeStays};
ghost use Rattle.aw_node.specs.TypedNodes.{rules_of};
ghost use Rattle.aw_law_sites.specs.Sites as S;
ghost use Rattle.aw_law_sites.specs.Sites.{empty_site};
ghost use Rattle.aw_session.specs.Sessions.{NoneComes};
ghost use Rattle.aw_typed.specs.Typing.{IsMadeFor};

use crate::law::served_nodes;
use crate::listed::ListedSite;
use crate::node::Node;
use crate::workspace::NodeWorkspace;
use aw_accept::Accepted;
use aw_cells::CellFacts;
use aw_out::Wire;
use aw_session::{Log, Stopped, serve_sessions};
use aw_site::Site;
use aw_typed::Typed;
use std::alloc::Global;

/// Why no further session was served.
#[derive(Clone, Copy, Debug, PartialEq, Eq)]
pub enum ServeFault {
    /// The next session could not be opened.
    NetFault,
    NoMemory,
}

/// Serves a workspace in so many sessions, or as many as come, and tells of each.
///
/// # Errors
/// `NetFault` where the next session could not be opened, `NoMemory` where memory ran out. What was served before is as told.
pub fn serve_workspace<W: Wire, P: NodeWorkspace + Drop>(
    alloc: Global,
    g: &Accepted,
    t: &Typed,
    site: P,
    role: u16,
    sessions: u32,
    wire: &mut W,
) -> Result<Log, ServeFault>
    requires role { role < 64 }
    requires made { P.grammar site ≡ g.now.grammar }
    requires types { IsMadeFor (grammar_of g.now.grammar) t.now }
    ensures served { (s : S.Site) → P.shows site s → IfOk result (λ log. Serves W.content W.faults W.failed_openings (rules_of g.now.grammar t.now) role s wire.old wire.new log) }
    ensures most { IfOk result (λ log. length log ≤ sessions) }
    ensures all { IfOk result (λ log. (length log ≡ sessions) ⊎ NoneComes (W.content wire.new)) }
    ensures stopped { (s : S.Site) → P.shows site s → IfErr result (Stops W.content W.failed_openings (rules_of g.now.grammar t.now) role s wire.old wire.new) }
    // A session that could not be opened is told; after any other answer each was opened.
    ensures openings_kept { (IsErrOf result ServeFault.NetFault → ⊥) → W.failed_openings wire.new ≡ W.failed_openings wire.old }
    // Whatever frames came, forged ones too, none takes away or contradicts what the node holds.
    ensures stays { NodeStays (rules_of g.now.grammar t.now) }
{
    served_nodes();
    let mut node = Node::new(alloc, g, t, site);
    match serve_sessions(alloc, &mut node, role, sessions, wire) {
        Ok(log) => Ok(log),
        Err(Stopped::NetFault) => Err(ServeFault::NetFault),
        Err(Stopped::Node(_)) => Err(ServeFault::NoMemory),
    }
}

/// Serves the site of a role, which holds nothing at first and sends loads, in so many sessions, or as many as come, and tells of each.
/// The site goes on from session to session.
///
/// # Errors
/// `NetFault` where the next session could not be opened, `NoMemory` where memory ran out. What was served before is as told.
pub fn serve<W: Wire>(
    alloc: Global,
    g: &Accepted,
    t: &Typed,
    role: u16,
    sessions: u32,
    wire: &mut W,
) -> Result<Log, ServeFault>
    requires role { role < (grammar_of g.now.grammar).roles }
    requires types { IsMadeFor (grammar_of g.now.grammar) t.now }
    ensures served { IfOk result (λ log. Serves W.content W.faults W.failed_openings (rules_of g.now.grammar t.now) role (empty_site true role) wire.old wire.new log) }
    ensures most { IfOk result (λ log. length log ≤ sessions) }
    ensures all { IfOk result (λ log. (length log ≡ sessions) ⊎ NoneComes (W.content wire.new)) }
    ensures stopped { IfErr result (Stops W.content W.failed_openings (rules_of g.now.grammar t.now) role (empty_site true role) wire.old wire.new) }
    // A session that could not be opened is told; after any other answer each was opened.
    ensures openings_kept { (IsErrOf result ServeFault.NetFault → ⊥) → W.failed_openings wire.new ≡ W.failed_openings wire.old }
    // Whatever frames came, forged ones too, none takes away or contradicts what the node holds.
    ensures stays { NodeStays (rules_of g.now.grammar t.now) }
{
    let site = Site::new(alloc, g, role, CellFacts::new(alloc), true);
    serve_workspace(alloc, g, t, ListedSite::new(site), role, sessions, wire)
}
