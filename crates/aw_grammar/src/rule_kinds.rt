//! What is wrong with a rule.
ghost use Rattle.std.specs.Prelude.{◌≡◌, ◌+◌, ◌++◌, ◌∷◌, [], true, Some, length, IfOk};
ghost use Rattle.aw_name_index.specs.Places.{any_stands, first_told};
ghost use Rattle.aw_term.specs.Limits.{most_symbols, most_levels};
ghost use Rattle.aw_grammar.specs.Written.{rule_of_raw};
ghost use Rattle.aw_grammar.specs.Terms.{results_of, terms_of, depth_of_all, symbols_in_all, IsLeftOf};
ghost use Rattle.aw_grammar.specs.Resolved.{entering};
ghost use Rattle.aw_grammar.specs.Kinds.{is_past_counts, is_past_terms, all_known, all_have_arities, takes_and_gives, sort_called, names_unknown, arity_differs, name_tests, term_tests};
ghost use Rattle.aw_grammar.specs.GrammarOf.{declarations_of, words_of};

use crate::children::{
    any_result_stands, args_are_known, args_have_arities, children_fit, push_names, push_results,
    room_after_args, sorts_stand, takes_and_gives,
};
use crate::fault::DeclKind;
use crate::grammar::Grammar;
use crate::raw::RawRule;
use crate::resolve::have_arities;
use crate::rule::Names;
use crate::terms::{are_known, push_all_variables, room_after_all};
use aw_list::Items;
use aw_term::limits::{
    MOST_CHILDREN, MOST_INHERITED, MOST_LEVELS, MOST_PARAMS, MOST_RESULTS, MOST_RULES,
    MOST_SYMBOLS, MOST_VARIABLES,
};
use std::alloc::AllocError;

/// Whether a count of the rule is past its limit.
pub(crate) fn is_past_counts(grammar: &Grammar, rule: &RawRule) -> bool
    ensures { result ≡ is_past_counts (declarations_of grammar.now) (rule_of_raw rule.now) }
{
    grammar.rules.len() >= MOST_RULES
        || rule.patterns.len() > MOST_INHERITED
        || rule.results.len() > MOST_RESULTS
        || rule.params.len() > MOST_PARAMS
        || rule.children.len() > MOST_CHILDREN
}

/// What is left of the room for the symbols of a rule, or nothing where they are too many or a term is too deep.
fn room_after_rule(rule: &RawRule) -> Option<u16>
    ensures { IsLeftOf most_symbols most_levels (depth_of_all (terms_of (rule_of_raw rule.now))) (symbols_in_all (terms_of (rule_of_raw rule.now))) result }
{
    let left = room_after_all(&rule.patterns, MOST_LEVELS, MOST_SYMBOLS)?;
    let left = room_after_args(&rule.children, left)?;
    room_after_all(&rule.results, MOST_LEVELS, left)
}

/// Whether a term of the rule is too deep, or its symbols are too many.
pub(crate) fn is_past_terms(rule: &RawRule) -> bool
    ensures { result ≡ is_past_terms (rule_of_raw rule.now) }
{
    room_after_rule(rule).is_none()
}

/// The names of a rule's variables in the order in which they enter.
pub(crate) fn entering(grammar: &Grammar, rule: &RawRule) -> Result<Names, AllocError>
    ensures { IfOk result (λ names. names ≡ entering (words_of grammar.now).cons (rule_of_raw rule.now)) }
{
    let mut names = Items::new(rule.name.allocator());
    push_all_variables(&grammar.con_index, &rule.patterns, &mut names)?;
    push_names(&mut names, rule.params.as_slice())?;
    push_results(&rule.children, &mut names)?;
    Ok(names)
}

/// Whether a parameter or a child's result has the name of a constructor.
fn clashes(grammar: &Grammar, rule: &RawRule) -> bool
    ensures { result ≡ any_stands ((rule_of_raw rule.now).params ++ results_of (rule_of_raw rule.now).children) (words_of grammar.now).cons }
{
    if grammar.con_index.contains_any(rule.params.as_slice()) {
        return true;
    }
    any_result_stands(&rule.children, &grammar.con_index)
}

fn knows_terms(grammar: &Grammar, rule: &RawRule) -> bool
    ensures { result ≡ all_known (words_of grammar.now).cons (terms_of (rule_of_raw rule.now)) }
{
    if !are_known(&grammar.con_index, &rule.patterns) {
        return false;
    }
    if !args_are_known(&grammar.con_index, &rule.children) {
        return false;
    }
    are_known(&grammar.con_index, &rule.results)
}

/// Whether a sort or a constructor of the rule is not declared.
fn names_unknown(grammar: &Grammar, rule: &RawRule) -> bool
    ensures { result ≡ names_unknown (declarations_of grammar.now) (rule_of_raw rule.now) }
{
    !grammar.sort_index.contains(rule.sort.as_slice())
        || !sorts_stand(&rule.children, &grammar.sort_index)
        || !knows_terms(grammar, rule)
}

fn terms_have_arities(grammar: &Grammar, rule: &RawRule) -> bool
    ensures { result ≡ all_have_arities grammar.now.cons (terms_of (rule_of_raw rule.now)) }
{
    if !have_arities(grammar, &rule.patterns) {
        return false;
    }
    if !args_have_arities(grammar, &rule.children) {
        return false;
    }
    have_arities(grammar, &rule.results)
}

/// Whether the rule takes and gives as many values as its sort.
pub(crate) fn head_fits(grammar: &Grammar, rule: &RawRule) -> bool
    ensures { result ≡ takes_and_gives (sort_called rule.now.sort grammar.now.sorts) (length (rule_of_raw rule.now).patterns) (length (rule_of_raw rule.now).results) }
{
    takes_and_gives(grammar, &rule.sort, rule.patterns.len(), rule.results.len())
}

/// Whether a number of parts, inherited values or results is another than declared.
fn arity_differs(grammar: &Grammar, rule: &RawRule) -> bool
    ensures { result ≡ arity_differs (declarations_of grammar.now) (rule_of_raw rule.now) }
{
    !head_fits(grammar, rule)
        || !children_fit(grammar, &rule.children)
        || !terms_have_arities(grammar, rule)
}

/// The first kind that the names of a rule's declarations tell; `names` are those that enter.
pub(crate) fn kind_of_names(grammar: &Grammar, rule: &RawRule, names: &Names) -> Option<DeclKind>
    requires { names.now ≡ entering (words_of grammar.now).cons (rule_of_raw rule.now) }
    ensures { result ≡ first_told (name_tests (declarations_of grammar.now) (rule_of_raw rule.now)) }
{
    if names.len() > MOST_VARIABLES {
        return Some(DeclKind::Limit);
    }
    if grammar.rule_index.contains(rule.name.as_slice()) {
        return Some(DeclKind::Double);
    }
    if clashes(grammar, rule) {
        return Some(DeclKind::Clash);
    }
    None
}

/// The first kind that the names and numbers in a rule's terms tell.
fn kind_of_terms(grammar: &Grammar, rule: &RawRule) -> Option<DeclKind>
    ensures { result ≡ first_told (term_tests (declarations_of grammar.now) (rule_of_raw rule.now)) }
{
    if names_unknown(grammar, rule) {
        return Some(DeclKind::Unknown);
    }
    if arity_differs(grammar, rule) {
        return Some(DeclKind::Arity);
    }
    None
}

/// The first kind that a rule's terms tell, or else this last one.
pub(crate) fn late_kind(grammar: &Grammar, rule: &RawRule, last: DeclKind) -> DeclKind
    ensures { Some result ≡ first_told (term_tests (declarations_of grammar.now) (rule_of_raw rule.now) ++ (true, last) ∷ []) }
{
    match kind_of_terms(grammar, rule) {
        Some(kind) => kind,
        None => last,
    }
}
