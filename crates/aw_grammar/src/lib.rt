//! Written declarations, and grammars that are well formed by their type: built one declaration after the other, with
//! the first fault told. The plain definitions stand in `aw_term`.
#![tactic(auto)]

pub mod build;
mod children;
mod copies;
mod declares;
pub mod fault;
pub mod grammar;
mod kinds;
mod limits;
mod made;
mod named;
mod of_declared;
pub mod raw;
mod resolve;
pub mod rule;
mod rule_kinds;
pub mod some_rules;
mod terms;
mod variables;
mod whole;

pub use aw_list::{Items, Text};
pub use aw_term::{Expr, Ground, Grounds, Lit, Pattern, Patterns, Terms};
pub use fault::{AddFault, DeclKind, DeclPlace, GrammarFault};
pub use grammar::Grammar;
pub use raw::{
    Parts, RawChild, RawChildren, RawCon, RawCons, RawRule, RawRules, RawSort, RawSorts, RawTerm,
    RawTerms,
};
pub use rule::{Child, Children, Con, Cons, Names, Numbers, Rule, Rules, Sort, Sorts};
pub use some_rules::only_rules_of;
pub use terms::room_after_all;
