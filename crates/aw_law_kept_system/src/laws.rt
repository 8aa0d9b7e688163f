//! From what a kept node does before it writes a reply to the laws of a system.
ghost use Rattle.aw_law_kept_system.specs.KeptSystems.{KeptNodesAreASystem, KeptNodesAreOneWorld};
ghost use Rattle.aw_law_kept_system.specs.Runs.{CutOffAreSessions, ServedAreSessions, UnopenedAreSessions};
ghost use Rattle.aw_law_sites.specs.Laws.{IsAccepted};
ghost use Rattle.aw_node.specs.TypedNodes.{Rules};

use aw_disk::Disk;
use aw_kept_node::law::kept_sites;
use aw_law_system::laws::system_laws;
use aw_law_worlds::laws::site_laws;
use aw_out::Wire;

/// Take kept nodes of all roles that serve sessions, each as `serve_kept` promises of them, and that crash at any moment and are opened again from what the disk
/// then has, while whoever heard a message pushes it, late and often. What happens is what happens in a system (`system`): no crash takes an event that is
/// safe there. So, whatever crashed, the journals of all roles are those of one world, and the nodes have its sites (`world`).
pub fn kept_system_laws<D: Disk>()
    ensures system { KeptNodesAreASystem ⟦<D as Disk>⟧ }
    ensures world { (r : Rules) → IsAccepted r.words r.grammar → KeptNodesAreOneWorld ⟦<D as Disk>⟧ r }
{
    system_laws();
    site_laws();
    kept_sites();
}

/// What `serve_kept` tells of a run is what a session is asked to be here, wherever the run is cut: where it served its sessions (`served`), where none could
/// be opened any more (`unopened`), and where a frame got no reply, which then is in hand (`cut_off`). The run goes on from the events that the journal had.
pub fn kept_run_laws<W: Wire, D: Disk>()
    ensures served { ServedAreSessions ⟦<W as Wire>⟧ ⟦<D as Disk>⟧ }
    ensures unopened { UnopenedAreSessions ⟦<W as Wire>⟧ ⟦<D as Disk>⟧ }
    ensures cut_off { CutOffAreSessions ⟦<W as Wire>⟧ ⟦<D as Disk>⟧ }
{}
