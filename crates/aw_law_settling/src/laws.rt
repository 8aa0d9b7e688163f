//! The laws of rest, of every accepted grammar. They stand on what `aw_law_worlds` says of every world.
ghost use Rattle.aw_law_settling.specs.Fair.{FairDeliverySettles};
ghost use Rattle.aw_law_settling.specs.Still.{QuietIsStill, StillAnswers, StillArtifacts, StillBecomesQuiet, StillHolds, StillWorklists};
ghost use Rattle.aw_law_sites.specs.Laws.{IsAccepted};
ghost use Rattle.aw_term.specs.Artifacts.{Words};
ghost use Rattle.aw_term.specs.Rules.{Grammar};

use aw_law_worlds::laws::{merge_laws, world_laws};

/// A world is still where each message in each outbox is a repeat at its addressee. Each quiet world is, and without loads no other
/// (`quiet`); with loads a message can be known before it was ever delivered. Delivering what is left of a still world makes it quiet
/// and changes no site (`becomes`). So its sites hold the undivided configuration of the choices taken (`holds`), answer each choice
/// as it does (`answers`), have its worklist (`worklists`), and its artifact text is printed from them (`artifacts`).
pub fn still_laws()
    ensures quiet { (words : Words) (g : Grammar) → IsAccepted words g → QuietIsStill g }
    ensures becomes { (words : Words) (g : Grammar) → IsAccepted words g → StillBecomesQuiet g }
    ensures holds { (words : Words) (g : Grammar) → IsAccepted words g → StillHolds g }
    ensures answers { (words : Words) (g : Grammar) → IsAccepted words g → StillAnswers g }
    ensures worklists { (words : Words) (g : Grammar) → IsAccepted words g → StillWorklists g }
    ensures artifacts { (words : Words) (g : Grammar) → IsAccepted words g → StillArtifacts words g }
{
    world_laws();
    merge_laws();
}

/// Where each message that was sent is delivered some time later, however late, in whichever order and with whatever in between, there
/// is a moment from which on all is quiet and nothing changes, and each choice has the answer of the undivided configuration.
pub fn fair_law()
    ensures settles { (words : Words) (g : Grammar) → IsAccepted words g → FairDeliverySettles g }
{
    world_laws();
    merge_laws();
}
