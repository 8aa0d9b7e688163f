//! Walks over the written subtasks of a rule.
ghost use Rattle.std.specs.Prelude.{◌≡◌, ◌+◌, ◌++◌, map, length, OnOk};
ghost use Rattle.aw_name_index.specs.Places.{any_stands, all_stand};
ghost use Rattle.aw_term.specs.Limits.{most_levels};
ghost use Rattle.aw_grammar.specs.Written.{child_of_raw};
ghost use Rattle.aw_grammar.specs.Terms.{args_of, results_of, depth_of_all, symbols_in_all, IsLeftOf};
ghost use Rattle.aw_grammar.specs.Kinds.{child_sorts, all_known, all_have_arities, children_fit, takes_and_gives, sort_called};

use crate::grammar::Grammar;
use crate::raw::{RawChild, RawChildren};
use crate::resolve::have_arities;
use crate::rule::Names;
use crate::terms::{are_known, room_after_all};
use aw_list::Text;
use aw_name_index::NameIndex;
use aw_term::limits::MOST_LEVELS;
use std::alloc::AllocError;

/// What is left of the room for symbols after all arguments, or nothing where one is too deep or the symbols are more.
pub(crate) fn room_after_args(children: &RawChildren, room: u16) -> Option<u16>
    ensures { IsLeftOf room most_levels (depth_of_all (args_of (map child_of_raw children.now))) (symbols_in_all (args_of (map child_of_raw children.now))) result }
{
    let mut left = room;
    for child in children.as_slice() {
        left = room_after_all(&child.args, MOST_LEVELS, left)?;
    }
    Some(left)
}

/// Adds copies of names.
pub(crate) fn push_names(names: &mut Names, more: &[Text]) -> Result<(), AllocError>
    ensures { OnOk result (names.new ≡ names.old ++ more.now) }
{
    for name in more {
        names.push(name.clone()?)?;
    }
    Ok(())
}

/// Adds the names of the results of children.
pub(crate) fn push_results(children: &RawChildren, names: &mut Names) -> Result<(), AllocError>
    ensures { OnOk result (names.new ≡ names.old ++ results_of (map child_of_raw children.now)) }
{
    for child in children.as_slice() {
        push_names(names, child.results.as_slice())?;
    }
    Ok(())
}

/// Whether the name of a result stands in an index.
pub(crate) fn any_result_stands(children: &RawChildren, index: &NameIndex) -> bool
    ensures { result ≡ any_stands (results_of (map child_of_raw children.now)) index.now }
{
    for child in children.as_slice() {
        if index.contains_any(child.results.as_slice()) {
            return true;
        }
    }
    false
}

/// Whether the sort of each child stands in an index.
pub(crate) fn sorts_stand(children: &RawChildren, index: &NameIndex) -> bool
    ensures { result ≡ all_stand (child_sorts (map child_of_raw children.now)) index.now }
{
    for child in children.as_slice() {
        if !index.contains(child.sort.as_slice()) {
            return false;
        }
    }
    true
}

/// Whether each constructor that is written with parentheses in an argument is declared.
pub(crate) fn args_are_known(cons: &NameIndex, children: &RawChildren) -> bool
    ensures { result ≡ all_known cons.now (args_of (map child_of_raw children.now)) }
{
    for child in children.as_slice() {
        if !are_known(cons, &child.args) {
            return false;
        }
    }
    true
}

/// Whether each constructor in an argument has as many parts as it is declared with.
pub(crate) fn args_have_arities(grammar: &Grammar, children: &RawChildren) -> bool
    ensures { result ≡ all_have_arities grammar.now.cons (args_of (map child_of_raw children.now)) }
{
    for child in children.as_slice() {
        if !have_arities(grammar, &child.args) {
            return false;
        }
    }
    true
}

/// Whether a sort takes and gives this many values.
pub(crate) fn takes_and_gives(grammar: &Grammar, sort: &Text, takes: usize, gives: usize) -> bool
    ensures { result ≡ takes_and_gives (sort_called sort.now grammar.now.sorts) takes gives }
{
    match grammar.sort_called(sort.as_slice()) {
        Some(sort) => usize::from(sort.takes) == takes && usize::from(sort.gives) == gives,
        None => false,
    }
}

fn child_fits(grammar: &Grammar, child: &RawChild) -> bool
    ensures { result ≡ takes_and_gives (sort_called child.now.sort grammar.now.sorts) (length (child_of_raw child.now).args) (length child.now.results) }
{
    takes_and_gives(grammar, &child.sort, child.args.len(), child.results.len())
}

/// Whether each child has the arguments and results of its sort.
pub(crate) fn children_fit(grammar: &Grammar, children: &RawChildren) -> bool
    ensures { result ≡ children_fit grammar.now.sorts (map child_of_raw children.now) }
{
    for child in children.as_slice() {
        if !child_fits(grammar, child) {
            return false;
        }
    }
    true
}
