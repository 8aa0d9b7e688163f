//! The law of what offices learn, of every accepted grammar. It stands on what `aw_law_worlds` says of every world.
ghost use Rattle.aw_law_learning.specs.Learning.{OfficesAskTheirOwn, OfficesLearnTheirOwn};
ghost use Rattle.aw_law_learning.specs.Working.{OfficesWorkByCall};
ghost use Rattle.aw_law_sites.specs.Laws.{IsAccepted};
ghost use Rattle.aw_term.specs.Artifacts.{Words};
ghost use Rattle.aw_term.specs.Rules.{Grammar};

use aw_law_worlds::laws::world_laws;

/// At every moment, with loads and without: each equation of another role that a site holds is of a reference to which its own tasks
/// and equations lead, and which is mentioned there (`learns`); and so is each reference that it asked for (`asks`). So what reaches
/// an office is bounded by what its own tasks were given and by what they lead to. Each task that it holds began a case, is a subtask of
/// a task of its own, or another office sent its call (`works`).
pub fn learning_laws()
    ensures learns { (words : Words) (g : Grammar) → IsAccepted words g → OfficesLearnTheirOwn g }
    ensures asks { (words : Words) (g : Grammar) → IsAccepted words g → OfficesAskTheirOwn g }
    ensures works { (g : Grammar) → OfficesWorkByCall g }
{
    world_laws();
}
