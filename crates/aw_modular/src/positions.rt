//! Whether what is declared names values that there are.
ghost use Rattle.std.specs.Prelude.{◌↔◌, IsTrue};
ghost use Rattle.aw_term.specs.WellFormed.{Each};
ghost use Rattle.aw_grammar.specs.GrammarOf.{grammar_of};
ghost use Rattle.aw_modular.specs.Refusals.{IsPosition};

use aw_base::{Declared, Triple};
use aw_grammar::Grammar;

/// Whether a triple names a declared sort, and an inherited value and a result that it has.
fn is_position(g: &Grammar, triple: Triple) -> bool
    ensures { IsTrue result ↔ IsPosition (grammar_of g.now).sorts triple }
{
    usize::from(triple.sort) < g.sorts.len()
        && 0 < triple.i
        && triple.i <= g.takes(triple.sort)
        && 0 < triple.j
        && triple.j <= g.gives(triple.sort)
}

/// Whether each triple names a declared sort, and an inherited value and a result that it has.
pub fn are_positions(g: &Grammar, declared: &Declared) -> bool
    ensures { IsTrue result ↔ Each (IsPosition (grammar_of g.now).sorts) declared.now }
{
    for triple in declared.as_slice() {
        if !is_position(g, *triple) {
            return false;
        }
    }
    true
}
