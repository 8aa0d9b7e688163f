//! Taking a start.
ghost use Rattle.std.specs.Prelude.{◌≡◌, ◌++◌, ◌∷◌, ◌≤◌, ◌+◌, [], Some, OnOk, OnErr};
ghost use Rattle.aw_term.specs.Names.{root as plain_root};
ghost use Rattle.aw_node_list.specs.InOrder.{insert_in};
ghost use Rattle.aw_space.specs.Openings.{opened};

use crate::opening::{Opening, put_open};
use crate::space::Space;
use crate::taking::{copy_for, push_choice};
use aw_apply::Steps;
use aw_choice::Choice;
use aw_name::{Node, Refs, Trail};
use aw_node_list::Held;
use aw_store::Facts;
use std::alloc::{AllocError, Global};
use std::sync::ledger::Ledger;

/// The node that a case begins with.
pub fn root(alloc: Global, sort: u16, case: u64) -> Node
    ensures { result ≡ plain_root sort case }
{
    Node {
        start: sort,
        case,
        steps: Trail::new(alloc),
    }
}

/// The open node of a new case, which inherits nothing.
fn new_case(alloc: Global, sort: u16, case: u64) -> Held
    ensures { result ≡ opened sort case }
{
    Held {
        node: root(alloc, sort, case),
        inherited: Refs::new(alloc),
        done: None,
    }
}

impl<'g, F: Facts> Space<'g, F> {
    ghost use Rattle.aw_space.specs.InSpace.{IsReadyIn, MayHold, node_tests};
    ghost use Rattle.aw_space.specs.Seen.{IsUnchanged};

    /// Holds an open node that is not held, for which all is ready, and keeps how the rules of its sort stand. Nothing can be
    /// refused.
    fn put<L: Ledger>(&mut self, opening: Opening, steps: &mut Steps<L>)
        requires may { MayHold ⟦<F as Facts>⟧ self.old opening.held }
        requires ready { IsReadyIn ⟦<F as Facts>⟧ self.old (Some opening) }
        ensures grammar { self.new.accepted.now.grammar ≡ self.old.accepted.now.grammar }
        ensures role { self.new.role ≡ self.old.role }
        ensures held { self.new.held.items ≡ insert_in opening.held self.old.held.items }
        ensures choices { self.new.choices ≡ self.old.choices }
        ensures map { F.map self.new.facts ≡ F.map self.old.facts }
        ensures steps { steps.new ≡ steps.old + node_tests ⟦<F as Facts>⟧ self.old opening.held.node }
    {
        let grammar = self.accepted.grammar();
        put_open(
            grammar,
            &self.facts,
            &mut self.held,
            &mut self.kept,
            opening,
            steps,
        );
    }

    /// Holds the node of a new case, which is not held, and keeps the choice. All memory is taken first, so an error changes nothing
    /// but the names of the store.
    pub(crate) fn take_start<L: Ledger>(
        &mut self,
        choice: &Choice,
        sort: u16,
        case: u64,
        steps: &mut Steps<L>,
    ) -> Result<(), AllocError>
        requires { MayHold ⟦<F as Facts>⟧ self.old (opened sort case) }
        ensures grammar { self.new.accepted.now.grammar ≡ self.old.accepted.now.grammar }
        ensures role { self.new.role ≡ self.old.role }
        ensures held { OnOk result (self.new.held.items ≡ insert_in (opened sort case) self.old.held.items) }
        ensures choices { OnOk result (self.new.choices.items ≡ self.old.choices.items ++ choice.now ∷ []) }
        ensures map { F.map self.new.facts ≡ F.map self.old.facts }
        ensures err { OnErr result (IsUnchanged ⟦<F as Facts>⟧ self.old self.new) }
        ensures steps { steps.new ≤ steps.old + node_tests ⟦<F as Facts>⟧ self.old (plain_root sort case) }
    {
        let node = new_case(self.held.allocator(), sort, case);
        let opening = self.make_ready(node)?;
        match copy_for(&mut self.choices, choice) {
            Ok(taken) => {
                self.put(opening, steps);
                push_choice(&mut self.choices, taken);
                Ok(())
            }
            Err(error) => {
                drop(opening);
                Err(error)
            }
        }
    }
}
