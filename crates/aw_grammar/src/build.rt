//! Building a grammar, one declaration after the other.
//!
//! A grammar that is given up is dropped whole, by `drop`: it is proved in far less time than field by field.
ghost use Rattle.std.specs.Prelude.{◌≡◌, ◌<◌, ◌++◌, true, [], length, IfOk, None};
ghost use Rattle.aw_grammar.specs.Declarations.{with_start_at};
ghost use Rattle.aw_spelling.specs.Spelling.{is_name};

use crate::fault::{AddFault, GrammarFault};
use crate::grammar::Grammar;
use crate::made::checked_rule;
use crate::named::added;
use crate::raw::{Parts, RawCon, RawRule, RawSort};
use crate::rule::{Con, Sort, Sorts};
use crate::whole::add_all;
use aw_list::{Items, Text};
use aw_name_index::NameIndex;
use std::alloc::Global;

impl Grammar {
    ghost use Rattle.aw_term.specs.WellFormed.{IsWellFormed};
    ghost use Rattle.aw_grammar.specs.Written.{rule_of_raw};
    ghost use Rattle.aw_grammar.specs.Terms.{all_have_contents, are_names, results_of, terms_of};
    ghost use Rattle.aw_grammar.specs.Declarations.{no_declarations, grammar_in, words_in, with_role, with_con, sort_declared, with_sort, with_start, with_rule};
    ghost use Rattle.aw_grammar.specs.Kinds.{role_kind, con_kind, sort_kind, start_kind, rule_kind};
    ghost use Rattle.aw_grammar.specs.Build.{Added, Built, AllSpelled, all_placed, declare_all};
    ghost use Rattle.aw_grammar.specs.GrammarOf.{declarations_of, grammar_of, words_of};

    /// A grammar in which nothing is declared.
    pub fn new(alloc: Global) -> Grammar
        ensures { declarations_of result ≡ no_declarations }
    {
        Grammar {
            roles: Items::new(alloc),
            cons: Items::new(alloc),
            sorts: Items::new(alloc),
            rules: Items::new(alloc),
            role_index: NameIndex::new(alloc),
            con_index: NameIndex::new(alloc),
            sort_index: NameIndex::new(alloc),
            rule_index: NameIndex::new(alloc),
        }
    }

    /// Declares a role. Sorts come later.
    pub fn add_role(mut self, name: Text) -> Result<Grammar, AddFault>
        requires named { is_name name ≡ true }
        requires no_sorts { self.sorts ≡ [] }
        requires no_rules { self.rules ≡ [] }
        ensures { Added (role_kind (declarations_of self) name) (with_role (declarations_of self) name) result }
    {
        if let Some(kind) = self.kind_of_role(&name) {
            drop(self);
            return Err(AddFault::Bad(kind));
        }
        let (roles, index) = added(self.roles, self.role_index, name)?;
        self.roles = roles;
        self.role_index = index;
        Ok(self)
    }

    /// Declares a constructor. Rules come later.
    pub fn add_con(mut self, con: RawCon) -> Result<Grammar, AddFault>
        requires named { is_name con.name ≡ true }
        requires no_rules { self.rules ≡ [] }
        ensures { Added (con_kind (declarations_of self) con) (with_con (declarations_of self) con) result }
    {
        if let Some(kind) = self.kind_of_con(&con) {
            drop(self);
            return Err(AddFault::Bad(kind));
        }
        let made = Con {
            arity: con.arity as u8,
            name: con.name,
        };
        let (cons, index) = added(self.cons, self.con_index, made)?;
        self.cons = cons;
        self.con_index = index;
        Ok(self)
    }

    /// The sort that a sort without a fault is declared as.
    fn made_sort(&self, sort: RawSort) -> Sort
        requires { sort_kind (declarations_of self.now) sort ≡ None }
        ensures { result ≡ sort_declared (declarations_of self.now) sort }
    {
        Sort {
            role: self.role_index.place(sort.role.as_slice()) as u16,
            takes: sort.takes as u8,
            gives: sort.gives as u8,
            start: false,
            name: sort.name,
        }
    }

    /// Declares a sort of a role that is declared. Rules come later.
    pub fn add_sort(mut self, sort: RawSort) -> Result<Grammar, AddFault>
        requires named { is_name sort.name ≡ true }
        requires no_rules { self.rules ≡ [] }
        ensures { Added (sort_kind (declarations_of self) sort) (with_sort (declarations_of self) sort) result }
    {
        if let Some(kind) = self.kind_of_sort(&sort) {
            drop(self);
            return Err(AddFault::Bad(kind));
        }
        let made = self.made_sort(sort);
        let (sorts, index) = added(self.sorts, self.sort_index, made)?;
        self.sorts = sorts;
        self.sort_index = index;
        Ok(self)
    }

    /// Makes a declared sort a start sort. Rules come later.
    pub fn add_start(mut self, name: &Text) -> Result<Grammar, AddFault>
        requires no_rules { self.rules ≡ [] }
        ensures { Added (start_kind (declarations_of self) name.now) (with_start (declarations_of self) name.now) result }
    {
        if let Some(kind) = self.kind_of_start(name) {
            drop(self);
            return Err(AddFault::Bad(kind));
        }
        let place = self.sort_index.place(name.as_slice());
        self.sorts = start_at(self.sorts, place);
        Ok(self)
    }

    /// Declares a rule.
    pub fn add_rule(mut self, rule: RawRule) -> Result<Grammar, AddFault>
        requires named { is_name rule.name ≡ true }
        requires contents { all_have_contents (terms_of (rule_of_raw rule)) ≡ true }
        requires variables { are_names ((rule_of_raw rule).params ++ results_of (rule_of_raw rule).children) ≡ true }
        ensures { Added (rule_kind (declarations_of self) (rule_of_raw rule)) (with_rule (declarations_of self) (rule_of_raw rule)) result }
    {
        let checked = checked_rule(&self, &rule);
        drop(rule);
        let made = match checked {
            Ok(made) => made,
            Err(fault) => {
                drop(self);
                return Err(fault);
            }
        };
        let (rules, index) = added(self.rules, self.rule_index, made)?;
        self.rules = rules;
        self.rule_index = index;
        Ok(self)
    }

    /// The grammar of a specification's declarations, or the first place with a fault, in the order roles, constructors, sorts, starts, rules, with its
    /// first kind.
    pub fn build(alloc: Global, parts: Parts) -> Result<Grammar, GrammarFault>
        requires { AllSpelled (all_placed parts) }
        ensures built { Built parts result }
        ensures grammar { IfOk result (λ g. grammar_of g ≡ grammar_in (declare_all no_declarations (all_placed parts))) }
        ensures words { IfOk result (λ g. words_of g ≡ words_in (declare_all no_declarations (all_placed parts))) }
        ensures law { IfOk result (λ g. ∥ IsWellFormed (words_of g) (grammar_of g) ∥₁) }
    {
        add_all(Grammar::new(alloc), parts)
    }
}

/// Makes the sort at a place a start sort.
fn start_at(sorts: Sorts, place: usize) -> Sorts
    requires { place < length sorts }
    ensures { result ≡ with_start_at sorts place }
{
    let mut sorts = sorts.into_vec();
    sorts[place].start = true;
    Items::from_vec(sorts)
}
