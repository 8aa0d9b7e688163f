//! What the sites of a single role tell, apart from any code.
ghost use Rattle.aw_law_sites.specs.Laws.{IsAccepted};
ghost use Rattle.aw_term.specs.Artifacts.{Words};
ghost use Rattle.aw_term.specs.Rules as P;
ghost use Rattle.aw_replay.specs.Laws.{UnitedTellsUndivided};

use crate::united::united_laws;
use aw_law_worlds::laws::output_laws;

/// Where all sorts of an accepted grammar are put at one role, its sites tell of choices what the undivided run of the grammar tells.
pub fn undivided_laws()
    ensures { (w : Words) (g : P.Grammar) → IsAccepted w g → UnitedTellsUndivided w g }
{
    united_laws();
    output_laws();
}
