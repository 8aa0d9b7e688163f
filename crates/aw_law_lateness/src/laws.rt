//! The laws of lateness, of every accepted grammar. They stand on what is known of worlds, of still ones, and of what an office learns.
ghost use Rattle.aw_law_lateness.specs.Lateness.{LatenessLeavesNoTrace};
ghost use Rattle.aw_law_lateness.specs.Sending.{BareMessagesAreTheSame, CallsAreTheSame, LoadsAskNoMore, OpenQuestionsAreTheSame};
ghost use Rattle.aw_law_sites.specs.Laws.{IsAccepted};
ghost use Rattle.aw_term.specs.Artifacts.{Words};
ghost use Rattle.aw_term.specs.Rules.{Grammar};

use aw_law_learning::laws::learning_laws;
use aw_law_nodes::laws::node_laws;
use aw_law_settling::laws::still_laws;
use aw_law_worlds::laws::world_laws;

/// Once two worlds are still in which the same choices were taken, each office holds the same in both: the same tasks and choices, the
/// same of each reference, and the same worklist. Each choice is answered the same, and the worklists of all and the printed text are the
/// same. So nothing of this depends on which messages were late, came again or overtook others, nor on whether they carry loads (`trace`).
pub fn lateness_law()
    ensures trace { (words : Words) (g : Grammar) → IsAccepted words g → LatenessLeavesNoTrace words g }
{
    world_laws();
    still_laws();
    learning_laws();
}

/// What each of the two worlds' offices asked for is the same as far as it still waits: a reference without an equation was asked for in both or in
/// neither, and the same roles watch it (`questions`). Each office called the same tasks of others (`calls`), with other loads perhaps. What it
/// asked for with loads it asked for without (`fewer`).
pub fn asking_law()
    ensures questions { (words : Words) (g : Grammar) → IsAccepted words g → OpenQuestionsAreTheSame g }
    ensures calls { (words : Words) (g : Grammar) → IsAccepted words g → CallsAreTheSame g }
    ensures fewer { (words : Words) (g : Grammar) → IsAccepted words g → LoadsAskNoMore g }
{
    world_laws();
    still_laws();
    learning_laws();
}

/// Where neither of the two carries loads, each office asked for the same, is watched by the same roles for the same, and sent the same
/// messages, each once; and so did all offices together. What differs is their order (`messages`).
pub fn sending_law()
    ensures messages { (words : Words) (g : Grammar) → IsAccepted words g → BareMessagesAreTheSame g }
{
    world_laws();
    still_laws();
    learning_laws();
    node_laws();
}
