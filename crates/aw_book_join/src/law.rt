//! The law of tasks.
ghost use Rattle.aw_law_sites.specs.Laws.{IsAccepted};
ghost use Rattle.aw_term.specs.Artifacts.{Words};
ghost use Rattle.aw_term.specs.Rules.{Grammar};
ghost use Rattle.aw_book_join.specs.Laws.{TasksHaveText};

use aw_law_worlds::laws::merge_laws;

/// Whatever choices are made in a system and whenever messages come, each value of each task has its text at the role that holds it: so
/// what is written of the tasks of an honest node is that text. Only forged messages make a value that has none.
pub fn task_laws()
    ensures { (words : Words) (g : Grammar) → IsAccepted words g → TasksHaveText words g }
{
    merge_laws();
}
