//! A grammar that is well formed by its type.
ghost use Rattle.std.specs.Prelude.{◌≡◌, ◌≤◌, length, slice_get, IfSome};
ghost use Rattle.std.specs.Option.{option_copied};
ghost use Rattle.aw_grammar.specs.Named.{number_named};

use crate::rule::{Con, Cons, Names, Rule, Rules, Sort, Sorts};
use aw_list::Text;
use aw_name_index::NameIndex;

/// Roles, constructors, sorts and rules, each list in the order of the specification.
#[derive(Debug, Drop)]
pub struct Grammar {
    pub roles: Names,
    pub cons: Cons,
    pub sorts: Sorts,
    pub rules: Rules,
    pub(crate) role_index: NameIndex,
    pub(crate) con_index: NameIndex,
    pub(crate) sort_index: NameIndex,
    pub(crate) rule_index: NameIndex,
    ghost role_names: { role_index ≡ roles },
    ghost con_names: { con_index ≡ (plain_words roles cons sorts rules).cons },
    ghost sort_names: { sort_index ≡ (plain_words roles cons sorts rules).sorts },
    ghost rule_names: { rule_index ≡ (plain_words roles cons sorts rules).rules },
    ghost variables_fit: { ∥ AllVariablesFit cons sorts rules ∥₁ },
    ghost well_formed: { ∥ IsWellFormed (plain_words roles cons sorts rules) (plain_grammar roles cons sorts rules) ∥₁ },
}

ghost use Rattle.aw_grammar.specs.GrammarView.{plain_grammar, plain_words};
ghost use Rattle.aw_grammar.specs.Variables.{AllVariablesFit};
ghost use Rattle.aw_term.specs.WellFormed.{IsWellFormed};
ghost use Rattle.aw_term.specs.Limits.{most_parts};

impl Grammar {
    ghost use Rattle.aw_grammar.specs.GrammarView.{rule_of, sort_of};
    ghost use Rattle.aw_grammar.specs.GrammarOf.{grammar_of, words_of};
    ghost use Rattle.aw_term.specs.Choices.{gives_of};
    ghost use Rattle.aw_term.specs.WellFormed.{RuleFits, SortFits, takes_of};

    /// The rule with a number, from 0.
    pub fn rule(&self, number: u16) -> Option<&Rule>
        ensures value { option_copied result ≡ slice_get self.now.rules number }
        ensures fits { IfSome result (λ r. ∥ RuleFits (grammar_of self.now) (rule_of self.now.sorts r.now) ∥₁) }
    {
        self.rules.get(usize::from(number))
    }

    /// The sort with a number, from 0.
    pub fn sort(&self, number: u16) -> Option<&Sort>
        ensures value { option_copied result ≡ slice_get self.now.sorts number }
        ensures fits { IfSome result (λ s. ∥ SortFits (grammar_of self.now).roles (sort_of s.now) ∥₁) }
    {
        self.sorts.get(usize::from(number))
    }

    /// How many values a sort inherits; 0 where it is not declared.
    pub fn takes(&self, sort: u16) -> u8
        ensures { result ≡ takes_of (slice_get (grammar_of self.now).sorts sort) }
    {
        match self.sort(sort) {
            Some(declared) => declared.takes,
            None => 0,
        }
    }

    /// How many results a sort gives; 0 where it is not declared.
    pub fn gives(&self, sort: u16) -> u8
        ensures { result ≡ gives_of (slice_get (grammar_of self.now).sorts sort) }
    {
        match self.sort(sort) {
            Some(declared) => declared.gives,
            None => 0,
        }
    }

    /// The constructor with a number, from 0.
    pub fn con(&self, number: u16) -> Option<&Con>
        ensures value { option_copied result ≡ slice_get self.now.cons number }
        ensures fits { IfSome result (λ c. c.now.arity ≤ most_parts) }
    {
        self.cons.get(usize::from(number))
    }

    /// The name of the role with a number, from 0.
    pub fn role(&self, number: u16) -> Option<&Text>
        ensures value { option_copied result ≡ slice_get self.now.roles number }
    {
        self.roles.get(usize::from(number))
    }

    /// The number of the role of a name, where one is declared.
    pub fn role_named(&self, name: &[u8]) -> Option<u16>
        ensures { result ≡ number_named (words_of self.now).roles name.now }
    {
        number_in(&self.role_index, name)
    }

    /// The number of the constructor of a name, where one is declared.
    pub fn con_named(&self, name: &[u8]) -> Option<u16>
        ensures { result ≡ number_named (words_of self.now).cons name.now }
    {
        number_in(&self.con_index, name)
    }

    /// The number of the sort of a name, where one is declared.
    pub fn sort_named(&self, name: &[u8]) -> Option<u16>
        ensures { result ≡ number_named (words_of self.now).sorts name.now }
    {
        number_in(&self.sort_index, name)
    }

    /// The number of the rule of a name, where one is declared.
    pub fn rule_named(&self, name: &[u8]) -> Option<u16>
        ensures { result ≡ number_named (words_of self.now).rules name.now }
    {
        number_in(&self.rule_index, name)
    }
}

/// The number of a name in an index.
fn number_in(index: &NameIndex, name: &[u8]) -> Option<u16>
    requires { length index.now ≤ 65536 }
    ensures { result ≡ number_named index.now name.now }
{
    let place = index.find(name)?;
    Some(place as u16)
}
