//! Taking a rule: all memory is taken before anything changes.
ghost use Rattle.std.specs.Prelude.{◌≡◌, ◌++◌, ◌∷◌, [], ◌<◌, ◌≤◌, ◌+◌, true, is_some, All, IfOk, OnOk, OnErr, map as list_map, vec_len, vec_capacity};
ghost use Rattle.aw_term.specs.Rules.{sort_of};
ghost use Rattle.aw_grammar.specs.GrammarOf.{grammar_of};
ghost use Rattle.aw_store.specs.EquationView.{equation_of};
ghost use Rattle.aw_store.specs.StoreView.{all_few};
ghost use Rattle.aw_node_list.specs.InOrder.{insert_all_in, done_at};
ghost use Rattle.aw_space.specs.Children.{own_children as plain_own, open_child, are_named};
ghost use Rattle.aw_space.specs.Openings.{IsOpenable, held_in};
ghost use Rattle.aw_space.specs.Spaces.{is_home};
ghost use Rattle.aw_space.specs.Waking.{left_of};

use crate::learning::{copy_lefts, wake_all};
use crate::opening::{Opening, put_all_open};
use crate::space::Space;
use aw_apply::{Made, MadeChild, MadeChildren, Steps};
use aw_base::home_of_valid;
use aw_choice::{Choice, copy_choice};
use aw_grammar::Grammar;
use aw_name::{Node, Ref};
use aw_node_list::Held;
use aw_store::{Equation, Equations, Facts, add_all_ready};
use std::alloc::{AllocError, Global};
use std::sync::ledger::Ledger;

/// Whether a node is worked on by this role.
fn is_here(grammar: &Grammar, role: u16, node: &Node) -> bool
    requires { is_some (sort_of (grammar_of grammar.now) node.now) ≡ true }
    ensures { result ≡ is_home (grammar_of grammar.now) role node.now }
{
    home_of_valid(grammar, node) == role
}

/// A child as an open node.
fn open(child: MadeChild) -> Held
    ensures { result ≡ open_child child }
{
    let MadeChild { node, inherited } = child;
    Held {
        node,
        inherited,
        done: None,
    }
}

/// Adds a child as an open node, where it is this role's.
fn push_own(
    own: &mut Vec<Held>,
    grammar: &Grammar,
    role: u16,
    child: MadeChild,
) -> Result<(), AllocError>
    requires { is_some (sort_of (grammar_of grammar.now) child.node) ≡ true }
    ensures { OnOk result (own.new.items ≡ own.old.items ++ plain_own (grammar_of grammar.now) role (child ∷ [])) }
{
    if is_here(grammar, role, &child.node) {
        own.push(open(child))?;
    }
    Ok(())
}

/// The children of this role as open nodes.
fn own_children(
    alloc: Global,
    grammar: &Grammar,
    role: u16,
    children: MadeChildren,
) -> Result<Vec<Held>, AllocError>
    requires { are_named (grammar_of grammar.now) children ≡ true }
    ensures { IfOk result (λ own. own.items ≡ plain_own (grammar_of grammar.now) role children) }
{
    let mut own = Vec::new(alloc);
    for child in children.into_vec() {
        push_own(&mut own, grammar, role, child)?;
    }
    Ok(own)
}

/// Adds a choice, for which there is room.
pub fn push_choice(choices: &mut Vec<Choice>, choice: Choice)
    requires { vec_len choices.old < vec_capacity choices.old }
    ensures { choices.new.items ≡ choices.old.items ++ choice ∷ [] }
{
    match choices.push(choice) {
        Ok(()) => {}
        Err(_) => unreachable!(),
    }
}

/// A copy of a choice, and a place for it in a list, which stays as it is.
pub fn copy_for(choices: &mut Vec<Choice>, choice: &Choice) -> Result<Choice, AllocError>
    ensures copy { IfOk result (λ copy. copy ≡ choice.now) }
    ensures place { OnOk result (vec_len choices.new < vec_capacity choices.new) }
    ensures items { choices.new.items ≡ choices.old.items }
{
    choices.reserve(1)?;
    let copy = copy_choice(choice)?;
    Ok(copy)
}

/// Copies that taking a rule needs: of the left sides of its equations, and of the choice, once for the node and once for the list.
#[derive(Drop)]
struct Copies {
    told: Vec<Ref>,
    done: Choice,
    taken: Choice,
}

/// The copies that taking a rule needs, and a place in the list of choices, which stays as it is.
fn copies_of(
    alloc: Global,
    choices: &mut Vec<Choice>,
    choice: &Choice,
    equations: &Equations,
) -> Result<Copies, AllocError>
    ensures told { IfOk result (λ copies. copies.told.items ≡ list_map left_of equations.now) }
    ensures done { IfOk result (λ copies. copies.done ≡ choice.now) }
    ensures taken { IfOk result (λ copies. copies.taken ≡ choice.now) }
    ensures place { OnOk result (vec_len choices.new < vec_capacity choices.new) }
    ensures items { choices.new.items ≡ choices.old.items }
{
    let taken = copy_for(choices, choice)?;
    let done = copy_choice(choice)?;
    let told = copy_lefts(alloc, equations.as_slice())?;
    Ok(Copies { told, done, taken })
}

/// What taking a rule needs: copies, and what is to be kept of the children of this role.
#[derive(Drop)]
struct Taking {
    copies: Copies,
    own: Vec<Opening>,
}

impl<'g, F: Facts> Space<'g, F> {
    ghost use Rattle.aw_space.specs.InSpace.{AreReadyIn, AreSureIn, HasAllFor, IsStill, MayOpen, MayTake, own_in, tests_in};
    ghost use Rattle.aw_space.specs.Seen.{grammar_in, IsUnchanged};

    /// What is to be kept of each of these open nodes, and room for them and for these equations. An error changes nothing but
    /// the names of the store.
    fn take_room(
        &mut self,
        own: Vec<Held>,
        equations: &Equations,
    ) -> Result<Vec<Opening>, AllocError>
        requires own { All (IsOpenable (grammar_in ⟦<F as Facts>⟧ self.old)) own.items }
        requires few { all_few (list_map equation_of equations.now) ≡ true }
        ensures own { IfOk result (λ more. list_map held_in more.items ≡ own.items) }
        ensures ready { IfOk result (λ more. AreReadyIn ⟦<F as Facts>⟧ self.new more.items) }
        ensures sure { OnOk result (AreSureIn ⟦<F as Facts>⟧ self.new equations.now) }
        ensures still { IsStill ⟦<F as Facts>⟧ self.old self.new }
    {
        let more = self.make_all_ready(own)?;
        match self.make_known(equations) {
            Ok(()) => Ok(more),
            Err(error) => {
                drop(more);
                Err(error)
            }
        }
    }

    /// What is to be kept of the children of this role, and room for them and for these equations. An error changes nothing but
    /// the names of the store.
    fn ready_own(
        &mut self,
        children: MadeChildren,
        equations: &Equations,
    ) -> Result<Vec<Opening>, AllocError>
        requires children { MayOpen ⟦<F as Facts>⟧ self.old children }
        requires few { all_few (list_map equation_of equations.now) ≡ true }
        ensures own { IfOk result (λ more. list_map held_in more.items ≡ own_in ⟦<F as Facts>⟧ self.old children) }
        ensures ready { IfOk result (λ more. AreReadyIn ⟦<F as Facts>⟧ self.new more.items) }
        ensures sure { OnOk result (AreSureIn ⟦<F as Facts>⟧ self.new equations.now) }
        ensures still { IsStill ⟦<F as Facts>⟧ self.old self.new }
    {
        let grammar = self.accepted.grammar();
        let own = own_children(self.held.allocator(), grammar, self.role, children)?;
        self.take_room(own, equations)
    }

    /// What taking a rule needs, and all memory for it. An error changes nothing but the names of the store.
    fn taking_of(
        &mut self,
        choice: &Choice,
        children: MadeChildren,
        equations: &Equations,
    ) -> Result<Taking, AllocError>
        requires children { MayOpen ⟦<F as Facts>⟧ self.old children }
        requires few { all_few (list_map equation_of equations.now) ≡ true }
        ensures done { IfOk result (λ t. t.copies.done ≡ choice.now) }
        ensures taken { IfOk result (λ t. t.copies.taken ≡ choice.now) }
        ensures own { IfOk result (λ t. list_map held_in t.own.items ≡ own_in ⟦<F as Facts>⟧ self.old children) }
        ensures all { IfOk result (λ t. HasAllFor ⟦<F as Facts>⟧ self.new t equations.now) }
        ensures still { IsStill ⟦<F as Facts>⟧ self.old self.new }
    {
        let own = self.ready_own(children, equations)?;
        match copies_of(self.held.allocator(), &mut self.choices, choice, equations) {
            Ok(copies) => Ok(Taking { copies, own }),
            Err(error) => {
                drop(own);
                Err(error)
            }
        }
    }

    /// Takes a rule on the node at a place, for which all is ready: the node is done and what was kept of it is dropped, the
    /// equations are known and each rule that waited for one of them is tested, and the children are held. Nothing can be refused.
    fn take_ready<L: Ledger>(
        &mut self,
        at: usize,
        taking: Taking,
        equations: Vec<Equation>,
        steps: &mut Steps<L>,
    )
        requires may { MayTake ⟦<F as Facts>⟧ self.old at taking.copies.done equations.items (list_map held_in taking.own.items) }
        requires all { HasAllFor ⟦<F as Facts>⟧ self.old taking equations.items }
        ensures grammar { self.new.accepted.now.grammar ≡ self.old.accepted.now.grammar }
        ensures role { self.new.role ≡ self.old.role }
        ensures held { self.new.held.items ≡ insert_all_in (list_map held_in taking.own.items) (done_at taking.copies.done at self.old.held.items) }
        ensures choices { self.new.choices.items ≡ self.old.choices.items ++ taking.copies.taken ∷ [] }
        ensures map { F.map self.new.facts ≡ F.map self.old.facts ++ list_map equation_of equations.items }
        ensures steps { steps.new ≤ steps.old + tests_in ⟦<F as Facts>⟧ self.old equations.items (list_map held_in taking.own.items) }
    {
        let Taking { copies, own } = taking;
        let Copies { told, done, taken } = copies;
        let grammar = self.accepted.grammar();
        let number = self.held.number_at(at);
        self.held.mark_done(at, done);
        self.kept.close(number);
        add_all_ready(&mut self.facts, equations);
        wake_all(grammar, &self.facts, &mut self.kept, told.as_slice(), steps);
        put_all_open(
            grammar,
            &self.facts,
            &mut self.held,
            &mut self.kept,
            own,
            steps,
        );
        push_choice(&mut self.choices, taken);
    }

    /// Takes a rule on the node at a place: the node is done, its children of this role are held, and what it made is known.
    /// All memory is taken first, so an error changes nothing but the names of the store.
    pub(crate) fn take_rule<L: Ledger>(
        &mut self,
        at: usize,
        choice: &Choice,
        made: Made,
        steps: &mut Steps<L>,
    ) -> Result<(), AllocError>
        requires children { MayOpen ⟦<F as Facts>⟧ self.old made.children }
        requires may { MayTake ⟦<F as Facts>⟧ self.old at choice.now made.equations (own_in ⟦<F as Facts>⟧ self.old made.children) }
        ensures grammar { self.new.accepted.now.grammar ≡ self.old.accepted.now.grammar }
        ensures role { self.new.role ≡ self.old.role }
        ensures held { OnOk result (self.new.held.items
            ≡ insert_all_in (own_in ⟦<F as Facts>⟧ self.old made.children) (done_at choice.now at self.old.held.items)) }
        ensures choices { OnOk result (self.new.choices.items ≡ self.old.choices.items ++ choice.now ∷ []) }
        ensures map { OnOk result (F.map self.new.facts ≡ F.map self.old.facts ++ list_map equation_of made.equations) }
        ensures err { OnErr result (IsUnchanged ⟦<F as Facts>⟧ self.old self.new) }
        ensures steps { steps.new ≤ steps.old + tests_in ⟦<F as Facts>⟧ self.old made.equations (own_in ⟦<F as Facts>⟧ self.old made.children) }
    {
        let Made {
            equations,
            children,
        } = made;
        match self.taking_of(choice, children, &equations) {
            Ok(taking) => {
                self.take_ready(at, taking, equations.into_vec(), steps);
                Ok(())
            }
            Err(error) => {
                drop(equations);
                Err(error)
            }
        }
    }
}
