//! What one role is checked with.
ghost use Rattle.aw_grammar.specs.GrammarOf.{grammar_of};
ghost use Rattle.aw_modular.specs.Roles.{HasOwnRules};

use aw_face::Faces;
use aw_grammar::Grammar;

/// What one role is checked with: a grammar with the rules of the role alone, and the faces of all.
#[derive(Debug, Drop)]
pub struct Part {
    pub role: u16,
    pub grammar: Grammar,
    pub faces: Faces,
    pub ghost own: { ∥ HasOwnRules role (grammar_of grammar) ∥₁ },
}
