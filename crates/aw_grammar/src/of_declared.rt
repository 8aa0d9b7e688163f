//! The grammar of declarations that are well formed together.
ghost use Rattle.std.specs.Prelude.{◌≡◌, map, false, IfOk};
ghost use Rattle.aw_name_index.specs.Places.{has_double};
ghost use Rattle.aw_grammar.specs.GrammarView.{plain_grammar, plain_words};
ghost use Rattle.aw_term.specs.WellFormed.{IsWellFormed};

use crate::copies::index_of;
use crate::grammar::Grammar;
use crate::named::Named;
use crate::rule::{Cons, Names, Rules, Sorts};
use aw_name_index::NameIndex;
use std::alloc::{AllocError, Global};

/// The indexes of two classes of declarations.
type TwoIndexes = (NameIndex, NameIndex);

/// The indexes of the names of two classes of declarations, which differ in each.
fn two_indexes<T: Named, U: Named>(
    alloc: Global,
    first: &[T],
    second: &[U],
) -> Result<TwoIndexes, AllocError>
    requires first { has_double (map T.called first.now) ≡ false }
    requires second { has_double (map U.called second.now) ≡ false }
    ensures first { IfOk result (λ both. both.0 ≡ map T.called first.now) }
    ensures second { IfOk result (λ both. both.1 ≡ map U.called second.now) }
{
    let one = index_of(alloc, first)?;
    let other = index_of(alloc, second)?;
    Ok((one, other))
}

/// The indexes of roles and constructors, and those of sorts and rules, of declarations that are well formed together.
fn all_indexes(
    alloc: Global,
    roles: &Names,
    cons: &Cons,
    sorts: &Sorts,
    rules: &Rules,
) -> Result<(TwoIndexes, TwoIndexes), AllocError>
    requires { ∥ IsWellFormed (plain_words roles.now cons.now sorts.now rules.now) (plain_grammar roles.now cons.now sorts.now rules.now) ∥₁ }
    ensures roles { IfOk result (λ all. all.0.0 ≡ (plain_words roles.now cons.now sorts.now rules.now).roles) }
    ensures cons { IfOk result (λ all. all.0.1 ≡ (plain_words roles.now cons.now sorts.now rules.now).cons) }
    ensures sorts { IfOk result (λ all. all.1.0 ≡ (plain_words roles.now cons.now sorts.now rules.now).sorts) }
    ensures rules { IfOk result (λ all. all.1.1 ≡ (plain_words roles.now cons.now sorts.now rules.now).rules) }
{
    let first_two = two_indexes(alloc, roles.as_slice(), cons.as_slice())?;
    let last_two = two_indexes(alloc, sorts.as_slice(), rules.as_slice())?;
    Ok((first_two, last_two))
}

impl Grammar {
    ghost use Rattle.aw_grammar.specs.Variables.{AllVariablesFit};

    /// The grammar of declarations that are well formed together, such as those of grammars with the same sorts. Want of
    /// memory is the only error.
    pub fn of_declared(
        alloc: Global,
        roles: Names,
        cons: Cons,
        sorts: Sorts,
        rules: Rules,
    ) -> Result<Grammar, AllocError>
        requires well_formed { ∥ IsWellFormed (plain_words roles cons sorts rules) (plain_grammar roles cons sorts rules) ∥₁ }
        requires variables { ∥ AllVariablesFit cons sorts rules ∥₁ }
        ensures roles { IfOk result (λ g. g.roles ≡ roles) }
        ensures cons { IfOk result (λ g. g.cons ≡ cons) }
        ensures sorts { IfOk result (λ g. g.sorts ≡ sorts) }
        ensures rules { IfOk result (λ g. g.rules ≡ rules) }
    {
        let (first_two, last_two) = all_indexes(alloc, &roles, &cons, &sorts, &rules)?;
        let (role_index, con_index) = first_two;
        let (sort_index, rule_index) = last_two;
        Ok(Grammar {
            roles,
            cons,
            sorts,
            rules,
            role_index,
            con_index,
            sort_index,
            rule_index,
        })
    }
}
