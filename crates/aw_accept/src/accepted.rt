//! A grammar that was accepted, with its dependence relations.
ghost use Rattle.std.specs.Prelude.{◌≡◌};

use aw_grammar::Grammar;
use aw_iograph::Io;

/// A grammar in which no value depends on itself, and the dependence relations of its sorts.
#[derive(Debug, Drop)]
pub struct Accepted {
    pub(crate) grammar: Grammar,
    pub(crate) io: Io,
    pub ghost made: { IsFor grammar io },
    pub ghost exact: { ∥ IsRelation grammar io ∥₁ },
    pub ghost sound: { ∥ HasNoCircle (grammar_of grammar) (IO (grammar_of grammar)) ∥₁ },
}

ghost use Rattle.aw_grammar.specs.GrammarOf.{grammar_of};
ghost use Rattle.aw_iograph.specs.Pairs.{IsFor};
ghost use Rattle.aw_iograph.specs.Dependence.{IO, HasNoCircle};
ghost use Rattle.aw_accept.specs.Circular.{IsRelation};

impl Accepted {
    /// The grammar.
    pub fn grammar(&self) -> &Grammar
        ensures value { result.now ≡ self.now.grammar }
        ensures sound { ∥ HasNoCircle (grammar_of result.now) (IO (grammar_of result.now)) ∥₁ }
    {
        &self.grammar
    }

    /// The dependence relations of the grammar's sorts.
    pub fn io(&self) -> &Io
        ensures value { result.now ≡ self.now.io }
        ensures made { IsFor self.now.grammar result.now }
        ensures exact { ∥ IsRelation self.now.grammar result.now ∥₁ }
    {
        &self.io
    }
}
