//! Building a grammar from all declarations of a specification.
ghost use Rattle.std.specs.Prelude.{◌≡◌, [], IfOk};
ghost use Rattle.aw_grammar.specs.Build.{BuiltOn, AllSpelled, fault_at, placed, all_placed};
ghost use Rattle.aw_grammar.specs.GrammarOf.{declarations_of};

use crate::declares::{ConKind, Declares, RoleKind, RuleKind, SortKind, StartKind};
use crate::fault::{AddFault, DeclPlace, GrammarFault};
use crate::grammar::Grammar;
use crate::raw::Parts;
use aw_list::Items;

/// The fault of a declaration at its place.
fn fault_at(place: DeclPlace, fault: AddFault) -> GrammarFault
    ensures { result ≡ fault_at place fault }
{
    match fault {
        AddFault::Bad(kind) => GrammarFault::Bad { place, kind },
        AddFault::NoMemory => GrammarFault::NoMemory,
    }
}

/// Declares these in turn.
fn add_each<D: Declares>(grammar: Grammar, items: Items<D::Item>) -> Result<Grammar, GrammarFault>
    requires spelled { AllSpelled (placed D.place_of D.declares 0 items) }
    requires may_come { D.may_come grammar }
    ensures built { BuiltOn (declarations_of grammar) (placed D.place_of D.declares 0 items) result }
    ensures may_come { IfOk result (λ g. D.may_come g) }
{
    let mut grammar = grammar;
    let mut place = 0usize;
    let mut left = items.into_vec().into_iter();
    while let Some(item) = left.next() {
        match D::add(grammar, item) {
            Ok(next) => grammar = next,
            Err(fault) => return Err(fault_at(D::place(place), fault)),
        }
        place += 1;
    }
    Ok(grammar)
}

/// Declares all declarations of a specification, class by class.
pub(crate) fn add_all(grammar: Grammar, parts: Parts) -> Result<Grammar, GrammarFault>
    requires spelled { AllSpelled (all_placed parts) }
    requires no_sorts { grammar.sorts ≡ [] }
    requires no_rules { grammar.rules ≡ [] }
    ensures { BuiltOn (declarations_of grammar) (all_placed parts) result }
{
    let Parts {
        roles,
        cons,
        sorts,
        starts,
        rules,
    } = parts;
    let with_roles = add_each::<RoleKind>(grammar, roles)?;
    let with_cons = add_each::<ConKind>(with_roles, cons)?;
    let with_sorts = add_each::<SortKind>(with_cons, sorts)?;
    let with_starts = add_each::<StartKind>(with_sorts, starts)?;
    add_each::<RuleKind>(with_starts, rules)
}
