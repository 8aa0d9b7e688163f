//! The kinds of declarations: what one of each declares, and where it stands in a specification.
ghost use Rattle.std.specs.Prelude.{◌≡◌, ℕ, true, [], IfOk};
ghost use Rattle.aw_grammar.specs.declared.fault.DeclPlace.{DeclPlace};
ghost use Rattle.aw_grammar.specs.declared.fault.DeclPlace.TheVariants as place;
ghost use Rattle.aw_grammar.specs.declared.grammar.Grammar.{Grammar};
ghost use Rattle.aw_grammar.specs.Build as D;
ghost use Rattle.aw_grammar.specs.Build.{Added, Declaration, is_spelled, kind_of, declare};
ghost use Rattle.aw_grammar.specs.GrammarOf.{declarations_of};
ghost use Rattle.aw_grammar.specs.Written.{rule_of_raw};

use crate::fault::{AddFault, DeclPlace};
use crate::grammar::Grammar;
use crate::raw::{RawCon, RawRule, RawSort};
use aw_list::Text;

/// A kind of declaration. Each has its place among those of its kind, and comes before some other kinds.
pub(crate) trait Declares {
    type Item: Drop;

    ghost place_of: { ℕ → DeclPlace };

    ghost declares: { Self.Item → Declaration };

    ghost may_come: { Grammar → Type 0 };

    fn place(number: usize) -> DeclPlace
        ensures { result ≡ place_of number };

    fn add(grammar: Grammar, item: Self::Item) -> Result<Grammar, AddFault>
        requires spelled { is_spelled (declares item) ≡ true }
        requires may_come { may_come grammar }
        ensures added { Added (kind_of (declarations_of grammar) (declares item)) (declare (declarations_of grammar) (declares item)) result }
        ensures may_come { IfOk result (λ g. may_come g) };
}

/// Roles come before sorts.
pub(crate) struct RoleKind;

impl Declares for RoleKind {
    type Item = Text;

    ghost place_of = { λ n. place.Role n };

    ghost declares = { λ name. D.Role name };

    ghost may_come = { λ g. (g.sorts ≡ []) × (g.rules ≡ []) };

    fn place(number: usize) -> DeclPlace {
        DeclPlace::Role(number)
    }

    fn add(grammar: Grammar, item: Text) -> Result<Grammar, AddFault> {
        grammar.add_role(item)
    }
}

/// Constructors come before rules.
pub(crate) struct ConKind;

impl Declares for ConKind {
    type Item = RawCon;

    ghost place_of = { λ n. place.Con n };

    ghost declares = { λ c. D.Constructor c };

    ghost may_come = { λ g. g.rules ≡ [] };

    fn place(number: usize) -> DeclPlace {
        DeclPlace::Con(number)
    }

    fn add(grammar: Grammar, item: RawCon) -> Result<Grammar, AddFault> {
        grammar.add_con(item)
    }
}

/// Sorts come before rules.
pub(crate) struct SortKind;

impl Declares for SortKind {
    type Item = RawSort;

    ghost place_of = { λ n. place.Sort n };

    ghost declares = { λ s. D.Sort s };

    ghost may_come = { λ g. g.rules ≡ [] };

    fn place(number: usize) -> DeclPlace {
        DeclPlace::Sort(number)
    }

    fn add(grammar: Grammar, item: RawSort) -> Result<Grammar, AddFault> {
        grammar.add_sort(item)
    }
}

/// Start sorts are named before rules.
pub(crate) struct StartKind;

impl Declares for StartKind {
    type Item = Text;

    ghost place_of = { λ n. place.Start n };

    ghost declares = { λ name. D.Start name };

    ghost may_come = { λ g. g.rules ≡ [] };

    fn place(number: usize) -> DeclPlace {
        DeclPlace::Start(number)
    }

    fn add(grammar: Grammar, item: Text) -> Result<Grammar, AddFault> {
        grammar.add_start(&item)
    }
}

/// Rules come last.
pub(crate) struct RuleKind;

impl Declares for RuleKind {
    type Item = RawRule;

    ghost place_of = { λ n. place.Rule n };

    ghost declares = { λ r. D.Rule (rule_of_raw r) };

    ghost may_come = { λ g. Unit {0} };

    fn place(number: usize) -> DeclPlace {
        DeclPlace::Rule(number)
    }

    fn add(grammar: Grammar, item: RawRule) -> Result<Grammar, AddFault> {
        grammar.add_rule(item)
    }
}
