//! Serving a workspace that survives crashes.
ghost use Rattle.std.specs.Prelude.{◌≡◌, ◌≢◌, ◌⊎◌, ◌<◌, ◌≤◌, ℕ, List, IsTrue, length, IfOk, IfErr, OnOk, IsErrOf};
ghost use Rattle.aw_kept_node.specs.Exits.{Origin, Stands};
ghost use Rattle.aw_kept_node.specs.KeptSites.{KeptSite};
ghost use Rattle.aw_kept_node.specs.Serving.{IsKeptServing, StopsKept, GoesOn, StopsNode, WasReopened};
ghost use Rattle.aw_grammar.specs.GrammarOf.{grammar_of};
ghost use Rattle.aw_journal.specs.Journal.{IsSettled};
ghost use Rattle.aw_node.specs.Staying.{NodeStays};
ghost use Rattle.aw_node.specs.TypedNodes.{rules_of};
ghost use Rattle.aw_law_sites.specs.Sites.{Site};
ghost use Rattle.aw_session.specs.Sessions.{NoneComes};
ghost use Rattle.aw_typed.specs.Typing.{IsMadeFor};

use crate::fault::KeptFault;
use crate::node::{KeptNode, Unanswered};
use crate::redoing::redo_all;
use aw_accept::Accepted;
use aw_disk::Disk;
use aw_journal::{AppendFault, Journal};
use aw_node::{NodeWorkspace, served_nodes};
use aw_out::Wire;
use aw_session::{Log, Stopped, serve_sessions};
use aw_typed::Typed;
use std::alloc::Global;

/// The most bytes that a journal may have.
pub const JOURNAL_LIMIT: u64 = 1_099_511_627_776;

/// Serves sessions with a node, which stays on its disk.
fn serve_node<W: Wire, D: Disk, P: NodeWorkspace>(
    alloc: Global,
    node: &mut KeptNode<'_, '_, P, D>,
    role: u16,
    sessions: u32,
    wire: &mut W,
) -> Result<Log, Stopped<Unanswered>>
    requires role { role < 64 }
    requires made { P.grammar node.old.site.now ≡ node.old.accepted.now.grammar }
    requires types { IsMadeFor (grammar_of node.old.accepted.now.grammar) node.old.typed.now }
    requires usable { IsTrue node.old.journal.now.usable }
    requires settled { IsTrue (D.tells node.old.disk.now) → IsSettled D.seen D.may_leave node.old.disk.now node.old.journal.now }
    requires reason { node.old.reason ≡ AppendFault.NoMemory }
    ensures same_disk { node.new.disk.ghost_name ≡ node.old.disk.ghost_name }
    ensures served { (o : Origin D) (k : KeptSite) → o.role ≡ role → o.rules ≡ rules_of node.old.accepted.now.grammar node.old.typed.now →
        Stands ⟦<D as Disk>⟧ o (P.shows node.old.site.now) node.old.journal.now node.old.disk.now k →
        IfOk result (GoesOn ⟦<W as Wire>⟧ ⟦<D as Disk>⟧ o k (D.moment node.old.disk.now) wire.old wire.new (P.shows node.new.site.now) node.new.journal.now node.new.disk.now) }
    ensures most { IfOk result (λ log. length log ≤ sessions) }
    ensures all { IfOk result (λ log. (length log ≡ sessions) ⊎ NoneComes (W.content wire.new)) }
    ensures stopped { (o : Origin D) (k : KeptSite) → o.role ≡ role → o.rules ≡ rules_of node.old.accepted.now.grammar node.old.typed.now →
        Stands ⟦<D as Disk>⟧ o (P.shows node.old.site.now) node.old.journal.now node.old.disk.now k →
        IfErr result (StopsNode ⟦<W as Wire>⟧ ⟦<D as Disk>⟧ o k (D.moment node.old.disk.now) wire.old wire.new (P.shows node.new.site.now) node.new.journal.now node.new.disk.now node.new.reason) }
    ensures kept { OnOk result (D.faults node.new.disk.now ≡ D.faults node.old.disk.now) }
    ensures kept_unopened { IsErrOf result Stopped.NetFault → D.faults node.new.disk.now ≡ D.faults node.old.disk.now }
    ensures kept_stopped { node.new.reason ≢ AppendFault.DiskFault → D.faults node.new.disk.now ≡ D.faults node.old.disk.now }
    ensures openings_kept { (IsErrOf result Stopped.NetFault → ⊥) → W.failed_openings wire.new ≡ W.failed_openings wire.old }
{
    serve_sessions(alloc, node, role, sessions, wire)
}

/// Serves a workspace whose journal was reopened: the events in it are done again first.
fn serve_reopened<W: Wire, D: Disk, P: NodeWorkspace>(
    alloc: Global,
    g: &Accepted,
    t: &Typed,
    site: &mut P,
    role: u16,
    sessions: u32,
    wire: &mut W,
    journal: &mut Journal,
    disk: &mut D,
) -> Result<Log, KeptFault>
    requires role { role < 64 }
    requires made { P.grammar site.old ≡ g.now.grammar }
    requires types { IsMadeFor (grammar_of g.now.grammar) t.now }
    requires usable { IsTrue journal.old.usable }
    requires settled { IsTrue (D.tells disk.old) → IsSettled D.seen D.may_leave disk.old journal.old }
    ensures served { (head : List ℕ) (before : D) (s : Site) → WasReopened ⟦<D as Disk>⟧ role head before disk.old journal.old → P.shows site.old s →
        IfOk result (IsKeptServing ⟦<W as Wire>⟧ ⟦<D as Disk>⟧ (rules_of g.now.grammar t.now) role head s wire.old wire.new before disk.new) }
    ensures most { IfOk result (λ log. length log ≤ sessions) }
    ensures all { IfOk result (λ log. (length log ≡ sessions) ⊎ NoneComes (W.content wire.new)) }
    ensures stopped { (head : List ℕ) (before : D) (s : Site) → WasReopened ⟦<D as Disk>⟧ role head before disk.old journal.old → P.shows site.old s →
        IfErr result (StopsKept ⟦<W as Wire>⟧ ⟦<D as Disk>⟧ (rules_of g.now.grammar t.now) role head s wire.old wire.new before disk.new) }
    ensures kept { (IsErrOf result KeptFault.DiskFault → ⊥) → D.faults disk.new ≡ D.faults disk.old }
    ensures openings_kept { (IsErrOf result KeptFault.NetFault → ⊥) → W.failed_openings wire.new ≡ W.failed_openings wire.old }
{
    redo_all(g, t, site, journal.events())?;
    let mut node = KeptNode::new(alloc, g, t, site, journal, disk);
    match serve_node(alloc, &mut node, role, sessions, wire) {
        Ok(log) => Ok(log),
        Err(Stopped::NetFault) => Err(KeptFault::NetFault),
        Err(Stopped::Node(_)) => Err(KeptFault::from(node.reason)),
    }
}

/// Serves a workspace in so many sessions, or as many as come, and tells of each. Its journal is reopened first, and the events in it are done
/// again; then each event is on the disk before its reply is written, so that a crash at any moment loses no event of which a reply was seen.
///
/// # Errors
/// `BadHead` where the file has another head, `BadEvent` at the first event that is none: then nothing was served. `NetFault` where the next
/// session could not be opened, `DiskFault` where a call of the disk failed, `Full` where the head or the record of an event would end past the
/// limit, `NoMemory` where memory ran out. What was served before is as told, and stands on the disk.
pub fn serve_kept_workspace<W: Wire, D: Disk, P: NodeWorkspace + Drop>(
    alloc: Global,
    g: &Accepted,
    t: &Typed,
    site: P,
    role: u16,
    sessions: u32,
    text: &[u8],
    wire: &mut W,
    disk: &mut D,
) -> Result<Log, KeptFault>
    requires role { role < 64 }
    requires made { P.grammar site ≡ g.now.grammar }
    requires types { IsMadeFor (grammar_of g.now.grammar) t.now }
    ensures served { (s : Site) → P.shows site s → IfOk result (IsKeptServing ⟦<W as Wire>⟧ ⟦<D as Disk>⟧ (rules_of g.now.grammar t.now) role text.now s wire.old wire.new disk.old disk.new) }
    ensures most { IfOk result (λ log. length log ≤ sessions) }
    ensures all { IfOk result (λ log. (length log ≡ sessions) ⊎ NoneComes (W.content wire.new)) }
    ensures stopped { (s : Site) → P.shows site s → IfErr result (StopsKept ⟦<W as Wire>⟧ ⟦<D as Disk>⟧ (rules_of g.now.grammar t.now) role text.now s wire.old wire.new disk.old disk.new) }
    // A call of the disk that failed is told; after any other answer none has failed.
    ensures kept { (IsErrOf result KeptFault.DiskFault → ⊥) → D.faults disk.new ≡ D.faults disk.old }
    // A session that could not be opened is told; after any other answer each was opened.
    ensures openings_kept { (IsErrOf result KeptFault.NetFault → ⊥) → W.failed_openings wire.new ≡ W.failed_openings wire.old }
    // Whatever frames came, forged ones too, none takes away or contradicts what the node holds.
    ensures stays { NodeStays (rules_of g.now.grammar t.now) }
{
    served_nodes();
    let mut journal = Journal::reopen(alloc, disk, role, text, JOURNAL_LIMIT)?;
    let mut site = site;
    let served = serve_reopened(
        alloc,
        g,
        t,
        &mut site,
        role,
        sessions,
        wire,
        &mut journal,
        disk,
    );
    drop(journal);
    drop(site);
    served
}
