//! Nodes that are to be held, open: first what is kept of them is made, and later they are put among the held ones.
ghost use Rattle.std.specs.Prelude.{◌≡◌, ◌<◌, ◌≤◌, ◌+◌, ℕ, All, None, true, IfOk, length, map as list_map};
ghost use Rattle.aw_term.specs.Rules.{sort_of};
ghost use Rattle.aw_grammar.specs.GrammarOf.{grammar_of};
ghost use Rattle.aw_store.specs.NamedRefs.{Grows};
ghost use Rattle.aw_node_list.specs.InOrder.{IsInOrder, Lacks, LackEach, insert_in, insert_all_in};
ghost use Rattle.aw_law_sites.specs.ValidNames.{takes_as};
ghost use Rattle.aw_standing.specs.KeptStates.{HasRoom, IsKept};
ghost use Rattle.aw_space.specs.Openings.{IsReady, all_tests, held_in, tests_of};

use aw_apply::Steps;
use aw_grammar::Grammar;
use aw_node_list::{Held, Holding, put_between};
use aw_standing::{Kept, Record, prepare};
use aw_store::Facts;
use std::alloc::{AllocError, Global};
use std::sync::ledger::Ledger;

/// An open node that is to be held, and what is kept of it.
#[derive(Drop)]
pub struct Opening {
    pub(crate) held: Held,
    pub(crate) entry: Record,
}

/// What is to be kept of an open node. Its references are named. An error may have named some.
pub fn ready<F: Facts>(
    alloc: Global,
    grammar: &Grammar,
    facts: &mut F,
    held: Held,
) -> Result<Opening, AllocError>
    requires takes { takes_as (grammar_of grammar.now) (sort_of (grammar_of grammar.now) held.node) held.inherited ≡ true }
    requires done { held.done ≡ None }
    ensures held { IfOk result (λ o. o.held ≡ held) }
    ensures ready { IfOk result (λ o. IsReady (grammar_of grammar.now) (F.names facts.new) o) }
    ensures map { F.map facts.new ≡ F.map facts.old }
    ensures names { Grows (F.names facts.old) (F.names facts.new) }
{
    let entry = prepare(alloc, grammar, facts, &held.node, held.inherited.as_slice())?;
    Ok(Opening { held, entry })
}

/// Holds an open node that is not held, and keeps how each rule of its sort stands there. There is room for it.
pub fn put_open<F: Facts, L: Ledger>(
    grammar: &Grammar,
    facts: &F,
    held: &mut Holding,
    kept: &mut Kept,
    new: Opening,
    steps: &mut Steps<L>,
)
    requires ordered { IsInOrder held.old.items }
    requires lacks { Lacks new.held.node held.old.items }
    requires ready { IsReady (grammar_of grammar.now) (F.names facts.now) new }
    requires stands { IsKept (grammar_of grammar.now) held.old (F.map facts.now) (F.names facts.now) kept.old }
    requires place { 0 < held.old.room }
    requires room { HasRoom kept.old 1 (tests_of new) }
    ensures items { held.new.items ≡ insert_in new.held held.old.items }
    ensures ordered { IsInOrder held.new.items }
    ensures place { held.old.room ≤ held.new.room + 1 }
    ensures stands { IsKept (grammar_of grammar.now) held.new (F.map facts.now) (F.names facts.now) kept.new }
    ensures room { (n w : ℕ) → HasRoom kept.old (n + 1) (w + tests_of new) → HasRoom kept.new n w }
    ensures steps { steps.new ≡ steps.old + tests_of new }
{
    let Opening { held: node, entry } = new;
    put_between(held, node);
    kept.open(entry, grammar, facts, steps);
}

/// Holds each of these nodes in turn, none of which is held. There is room for them.
pub fn put_all_open<F: Facts, L: Ledger>(
    grammar: &Grammar,
    facts: &F,
    held: &mut Holding,
    kept: &mut Kept,
    more: Vec<Opening>,
    steps: &mut Steps<L>,
)
    requires ordered { IsInOrder held.old.items }
    requires lacks { LackEach (list_map held_in more.items) held.old.items }
    requires ready { All (IsReady (grammar_of grammar.now) (F.names facts.now)) more.items }
    requires stands { IsKept (grammar_of grammar.now) held.old (F.map facts.now) (F.names facts.now) kept.old }
    requires place { length more.items ≤ held.old.room }
    requires room { HasRoom kept.old (length more.items) (all_tests more.items) }
    ensures items { held.new.items ≡ insert_all_in (list_map held_in more.items) held.old.items }
    ensures ordered { IsInOrder held.new.items }
    ensures stands { IsKept (grammar_of grammar.now) held.new (F.map facts.now) (F.names facts.now) kept.new }
    ensures steps { steps.new ≡ steps.old + all_tests more.items }
{
    for new in more {
        put_open(grammar, facts, held, kept, new, steps);
    }
}
