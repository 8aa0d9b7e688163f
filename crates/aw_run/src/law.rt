//! What holds of the definitions, apart from any code.
ghost use Rattle.aw_law_sites.specs.Laws.{IsAccepted};
ghost use Rattle.aw_term.specs.Artifacts.{Words};
ghost use Rattle.aw_term.specs.Rules as P;
ghost use Rattle.aw_run.specs.Laws.{HasOneOutput, HasOneReply, TellsUndivided};

use aw_disk::Disk;
use aw_out::Wire;

/// Where there is one role, a schedule of choices alone is replayed just as the undivided run tells it.
pub fn choices_are_told_undivided()
    ensures { (w : Words) (g : P.Grammar) → IsAccepted w g → TellsUndivided w g }
{}

/// What a job makes of an input is determined by the input (`outputs`), and what is replied by the words and the input, where the
/// command uses neither the wire nor the disk (`replies`).
pub fn outputs_are_one<W: Wire, D: Disk>()
    ensures outputs { HasOneOutput }
    ensures replies { HasOneReply ⟦<W as Wire>⟧ ⟦<D as Disk>⟧ }
{}
