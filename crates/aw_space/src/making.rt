//! Making ready what a step needs, before anything changes.
ghost use Rattle.std.specs.Prelude.{◌≡◌, ◌≤◌, ◌+◌, ◌++◌, ◌∷◌, [], Some, true, All, IfOk, OnOk, length, map as list_map};
ghost use Rattle.aw_grammar.specs.GrammarOf.{grammar_of};
ghost use Rattle.aw_store.specs.EquationView.{equation_of};
ghost use Rattle.aw_store.specs.NamedRefs.{Grows, has_names};
ghost use Rattle.aw_store.specs.StoreView.{all_few};
ghost use Rattle.aw_standing.specs.KeptStates.{HasRoom};
ghost use Rattle.aw_space.specs.Openings.{IsOpenable, IsReady, all_tests, held_in, tests_of};

use crate::opening::{Opening, ready};
use crate::space::Space;
use aw_grammar::Grammar;
use aw_node_list::Held;
use aw_store::{Equations, Facts};
use std::alloc::{AllocError, Global};

/// Adds what is to be kept of an open node. An error may have named some of its references.
fn push_ready<F: Facts>(
    more: &mut Vec<Opening>,
    grammar: &Grammar,
    facts: &mut F,
    node: Held,
) -> Result<(), AllocError>
    requires node { IsOpenable (grammar_of grammar.now) node }
    requires ready { All (IsReady (grammar_of grammar.now) (F.names facts.old)) more.old.items }
    ensures items { OnOk result (list_map held_in more.new.items ≡ list_map held_in more.old.items ++ node ∷ []) }
    ensures ready { OnOk result (All (IsReady (grammar_of grammar.now) (F.names facts.new)) more.new.items) }
    ensures map { F.map facts.new ≡ F.map facts.old }
    ensures names { Grows (F.names facts.old) (F.names facts.new) }
{
    let new = ready(*more.allocator(), grammar, facts, node)?;
    more.push(new)?;
    Ok(())
}

/// Puts what is to be kept of each of these open nodes into an empty list. An error may have named some of their references.
fn push_each<F: Facts>(
    more: &mut Vec<Opening>,
    grammar: &Grammar,
    facts: &mut F,
    own: Vec<Held>,
) -> Result<(), AllocError>
    requires none { more.old.items ≡ [] }
    requires openable { All (IsOpenable (grammar_of grammar.now)) own.items }
    ensures items { OnOk result (list_map held_in more.new.items ≡ own.items) }
    ensures ready { OnOk result (All (IsReady (grammar_of grammar.now) (F.names facts.new)) more.new.items) }
    ensures map { F.map facts.new ≡ F.map facts.old }
    ensures names { Grows (F.names facts.old) (F.names facts.new) }
{
    for node in own {
        push_ready(more, grammar, facts, node)?;
    }
    Ok(())
}

/// What is to be kept of each of these open nodes. An error may have named some of their references.
fn all_ready<F: Facts>(
    alloc: Global,
    grammar: &Grammar,
    facts: &mut F,
    own: Vec<Held>,
) -> Result<Vec<Opening>, AllocError>
    requires { All (IsOpenable (grammar_of grammar.now)) own.items }
    ensures items { IfOk result (λ more. list_map held_in more.items ≡ own.items) }
    ensures ready { IfOk result (λ more. All (IsReady (grammar_of grammar.now) (F.names facts.new)) more.items) }
    ensures map { F.map facts.new ≡ F.map facts.old }
    ensures names { Grows (F.names facts.old) (F.names facts.new) }
{
    let mut more = Vec::with_capacity(alloc, own.len())?;
    match push_each(&mut more, grammar, facts, own) {
        Ok(()) => Ok(more),
        Err(error) => {
            drop(more);
            Err(error)
        }
    }
}

/// So many tests, and those of one node more. There is no memory for more than a number can say.
fn add_tests(total: usize, opening: &Opening) -> Result<usize, AllocError>
    ensures { IfOk result (λ n. n ≡ total + tests_of opening.now) }
{
    match total.checked_add(opening.entry.rule_count()) {
        Some(sum) => Ok(sum),
        None => Err(AllocError),
    }
}

/// How many rules are tested where these nodes are opened.
fn count_tests(more: &[Opening]) -> Result<usize, AllocError>
    ensures { IfOk result (λ n. n ≡ all_tests more.now) }
{
    let mut total = 0;
    for opening in more {
        total = add_tests(total, opening)?;
    }
    Ok(total)
}

impl<'g, F: Facts> Space<'g, F> {
    ghost use Rattle.aw_space.specs.InSpace.{AreReadyIn, AreSureIn, IsNamedIn, IsReadyIn, IsStill};
    ghost use Rattle.aw_space.specs.Seen.{grammar_in};

    /// Room for so many nodes, whose rules may wait so many times.
    fn make_place(&mut self, nodes: usize, waits: usize) -> Result<(), AllocError>
        ensures place { OnOk result (nodes ≤ self.new.held.room) }
        ensures room { OnOk result (HasRoom self.new.kept nodes waits) }
        ensures still { IsStill ⟦<F as Facts>⟧ self.old self.new }
    {
        self.held.reserve(nodes)?;
        self.kept.reserve(nodes, waits)
    }

    /// Room for these open nodes and for what is to be kept of them.
    fn make_places(&mut self, more: &[Opening]) -> Result<(), AllocError>
        ensures place { OnOk result (length more.now ≤ self.new.held.room) }
        ensures room { OnOk result (HasRoom self.new.kept (length more.now) (all_tests more.now)) }
        ensures still { IsStill ⟦<F as Facts>⟧ self.old self.new }
    {
        let waits = count_tests(more)?;
        self.make_place(more.len(), waits)
    }

    /// Room for these equations, whose references are named. An error may have named some.
    pub(crate) fn make_known(&mut self, es: &Equations) -> Result<(), AllocError>
        requires { all_few (list_map equation_of es.now) ≡ true }
        ensures sure { OnOk result (AreSureIn ⟦<F as Facts>⟧ self.new es.now) }
        ensures named { OnOk result (has_names (F.names self.new.facts) (list_map equation_of es.now) ≡ true) }
        ensures held { self.new.held ≡ self.old.held }
        ensures kept { self.new.kept ≡ self.old.kept }
        ensures still { IsStill ⟦<F as Facts>⟧ self.old self.new }
    {
        self.facts.reserve(es)
    }

    /// What is to be kept of an open node. An error may have named some of its references.
    fn record_of(&mut self, node: Held) -> Result<Opening, AllocError>
        requires { IsOpenable (grammar_in ⟦<F as Facts>⟧ self.old) node }
        ensures node { IfOk result (λ o. o.held ≡ node) }
        ensures ready { IfOk result (λ o. IsNamedIn ⟦<F as Facts>⟧ self.new o) }
        ensures still { IsStill ⟦<F as Facts>⟧ self.old self.new }
    {
        let grammar = self.accepted.grammar();
        ready(self.held.allocator(), grammar, &mut self.facts, node)
    }

    /// What is to be kept of each of these open nodes. An error may have named some of their references.
    fn records_of(&mut self, own: Vec<Held>) -> Result<Vec<Opening>, AllocError>
        requires { All (IsOpenable (grammar_in ⟦<F as Facts>⟧ self.old)) own.items }
        ensures items { IfOk result (λ more. list_map held_in more.items ≡ own.items) }
        ensures ready { IfOk result (λ more. All (IsNamedIn ⟦<F as Facts>⟧ self.new) more.items) }
        ensures still { IsStill ⟦<F as Facts>⟧ self.old self.new }
    {
        let grammar = self.accepted.grammar();
        all_ready(self.held.allocator(), grammar, &mut self.facts, own)
    }

    /// What is to be kept of an open node, and room for it. An error changes nothing but the names of the store.
    pub(crate) fn make_ready(&mut self, node: Held) -> Result<Opening, AllocError>
        requires { IsOpenable (grammar_in ⟦<F as Facts>⟧ self.old) node }
        ensures node { IfOk result (λ o. o.held ≡ node) }
        ensures ready { IfOk result (λ o. IsReadyIn ⟦<F as Facts>⟧ self.new (Some o)) }
        ensures still { IsStill ⟦<F as Facts>⟧ self.old self.new }
    {
        let new = self.record_of(node)?;
        match self.make_place(1, new.entry.rule_count()) {
            Ok(()) => Ok(new),
            Err(error) => {
                drop(new);
                Err(error)
            }
        }
    }

    /// What is to be kept of each of these open nodes, and room for them. An error changes nothing but the names of the store.
    pub(crate) fn make_all_ready(&mut self, own: Vec<Held>) -> Result<Vec<Opening>, AllocError>
        requires { All (IsOpenable (grammar_in ⟦<F as Facts>⟧ self.old)) own.items }
        ensures own { IfOk result (λ more. list_map held_in more.items ≡ own.items) }
        ensures ready { IfOk result (λ more. AreReadyIn ⟦<F as Facts>⟧ self.new more.items) }
        ensures still { IsStill ⟦<F as Facts>⟧ self.old self.new }
    {
        let more = self.records_of(own)?;
        match self.make_places(more.as_slice()) {
            Ok(()) => Ok(more),
            Err(error) => {
                drop(more);
                Err(error)
            }
        }
    }
}
