//! What is declared determines the rules of the program, so that what is written and read again has the same rules.
ghost use Rattle.std.specs.Prelude.{◌≡◌, List, IfOk, IfErr};
ghost use Rattle.aw_grammar.specs.declared.rule.Sort.{Sort};
ghost use Rattle.aw_grammar.specs.declared.rule.Rule.{Rule};
ghost use Rattle.aw_grammar.specs.declared.grammar.Grammar.{Grammar};
ghost use Rattle.aw_grammar.specs.GrammarOf.{entry, declarations_of};
ghost use Rattle.aw_spec.specs.declared.fault.SpecFault.TheVariants.{NoMemory};
ghost use Rattle.aw_spec.specs.TypesFit.{TypesFit};
ghost use Rattle.aw_spec.specs.Views.{spec_seen};
ghost use Rattle.aw_spec_writer.specs.Writable.{FacesFit};

use crate::law::read_again;
use aw_spec::{SpecFault, SpecText};
use std::alloc::Global;

/// Rules of one entry are one rule, whatever the sorts beside them (`rule`), and grammars that declare the same have the same
/// rules (`rules`).
pub fn same_rules()
    ensures rule { (ss ts : List Sort) (r s : Rule) → entry ss r ≡ entry ts s → r ≡ s }
    ensures rules { (g h : Grammar) → declarations_of g ≡ declarations_of h → g.rules ≡ h.rules }
{}

/// The specification that its own text spells: what `write_spec` wrote, read again. It has the same rules (`again`), and says the
/// same in all else (`seen`).
pub fn rules_again(alloc: Global, s: &SpecText) -> Result<SpecText, SpecFault>
    requires faces { FacesFit (spec_seen s.now) }
    requires types { TypesFit (spec_seen s.now) }
    ensures again { IfOk result (λ read. read.grammar.rules ≡ s.now.grammar.rules) }
    ensures seen { IfOk result (λ read. spec_seen read ≡ spec_seen s.now) }
    ensures err { IfErr result (λ e. e ≡ NoMemory) }
{
    read_again(alloc, s)
}
