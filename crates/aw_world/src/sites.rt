//! Worlds whose workspaces are the sites of the program.
ghost use Rattle.std.specs.Prelude.{◌≡◌, true};
ghost use Rattle.std.proofs.Common.{refl};
ghost use Rattle.aw_apply.specs.Messages.{Received as Answered};
ghost use Rattle.aw_grammar.specs.GrammarOf.{grammar_of};
ghost use Rattle.aw_node_list.specs.HeldView.{held_of};
ghost use Rattle.aw_print.specs.Growing.{HasGrown};
ghost use Rattle.aw_print.specs.Stacks.{IsReady};
ghost use Rattle.aw_print.proofs.ReadyLemmas.{ready_new, ready_on};
ghost use Rattle.aw_law_sites.specs.ValidNames.{takes_as};
ghost use Rattle.aw_law_sites.specs.Sites.{Reaction};
ghost use Rattle.aw_site.specs.Answers.{IsReceived};
ghost use Rattle.aw_site.specs.Seen.{site_seen};
ghost use Rattle.aw_space.specs.Valid.{done_fits};
ghost use Rattle.aw_term.specs.Rules.{sort_of};
ghost use Rattle.aw_world.specs.PrintedRows.{PrintsHeld};
ghost use Rattle.aw_world.specs.SiteAnswers.{is_new};

use crate::workspace::{Made, Workspace};
use crate::world::World;
use aw_accept::Accepted;
use aw_base::NameWriter;
use aw_cells::CellFacts;
use aw_choice::{Answer, Choice, Worklist};
use aw_grammar::Grammar;
use aw_msg::{Message, Messages};
use aw_node_list::{Held, Holding};
use aw_out::{PrintFault, Report};
use aw_print::{Printer, artifact_row};
use aw_site::{Received, Site};
use aw_store::Facts;
use std::alloc::{AllocError, Global};

/// A world of sites, each over a store that finds references by hashes.
pub type SiteWorld<'g> = World<'g, Site<'g, CellFacts>>;

/// Prints the artifact line of a held node.
fn print_held(
    alloc: Global,
    g: &Grammar,
    names: &mut NameWriter<'_>,
    held: &Held,
    facts: &CellFacts,
    printer: &mut Printer,
    report: &mut Report,
) -> Result<(), PrintFault>
    requires named { takes_as (grammar_of g.now) (sort_of (grammar_of g.now) held.now.node) held.now.inherited ≡ true }
    requires done { done_fits (grammar_of g.now) held.now.node held.now.done ≡ true }
    requires writer { names.old.grammar.now ≡ g.now }
    requires ready { IsReady g.now (⟦<CellFacts as Facts>⟧.map facts.now) (⟦<CellFacts as Facts>⟧.names facts.now) report.old printer.old }
    ensures names { names.new.grammar.now ≡ names.old.grammar.now }
    ensures ready { IsReady g.now (⟦<CellFacts as Facts>⟧.map facts.now) (⟦<CellFacts as Facts>⟧.names facts.now) report.new printer.new }
    ensures grows { HasGrown report.old report.new }
    ensures prints { PrintsHeld g.now (⟦<CellFacts as Facts>⟧.map facts.now) (held_of (grammar_of g.now) held.now) report.old report.new result }
{
    artifact_row(
        alloc,
        g,
        names,
        &held.node,
        &held.inherited,
        &held.done,
        facts,
        printer,
        report,
    )
}

/// Whether something of a message was new.
fn is_new(received: &Received) -> bool
    ensures { (answer : Answered Reaction) → IsReceived received.now answer → result ≡ is_new answer }
{
    matches!(received, Received::New(_))
}

impl<'g> Workspace for Site<'g, CellFacts> {
    ghost its_grammar = { λ w. grammar_of w.space.accepted.now.grammar };

    ghost its_role = { λ w. w.space.role };

    ghost its_nodes = { λ w. w.space.held.items };

    ghost seen = { λ w. site_seen ⟦<CellFacts as Facts>⟧ w };

    ghost keeps = { λ w g report p. IsReady g (⟦<CellFacts as Facts>⟧.map w.space.facts) (⟦<CellFacts as Facts>⟧.names w.space.facts) report p };

    fn choose_into(
        &mut self,
        choice: &Choice,
        copy: &mut Messages,
    ) -> Result<(Answer, usize), AllocError> {
        let own = self.accepted();
        Site::choose_into(self, own, choice, copy)
    }

    fn receive_into(&mut self, message: &Message, copy: &mut Messages) -> Result<bool, AllocError> {
        let own = self.accepted();
        let received = Site::receive_into(self, own, message, copy)?;
        Ok(is_new(&received))
    }

    fn list(&self) -> Result<Worklist, AllocError> {
        Site::list(self, self.accepted())
    }

    fn nodes(&self) -> &Holding {
        self.space().nodes()
    }

    fn print_row(
        &self,
        alloc: Global,
        accepted: &Accepted,
        place: usize,
        names: &mut NameWriter<'_>,
        printer: &mut Printer,
        report: &mut Report,
    ) -> Result<(), PrintFault> {
        let space = self.space();
        let held = space.nodes().at(place);
        print_held(
            alloc,
            accepted.grammar(),
            names,
            held,
            space.facts(),
            printer,
            report,
        )
    }

    ghost has_role = { λ w. refl };

    ghost in_order = { λ w. w.space.sound.ordered };

    ghost keeps_none = { λ w g report p new. ready_new g (⟦<CellFacts as Facts>⟧.map w.space.facts) (⟦<CellFacts as Facts>⟧.names w.space.facts) report p new };

    ghost keeps_on = { λ w g old new p grown ready. ready_on g (⟦<CellFacts as Facts>⟧.map w.space.facts) (⟦<CellFacts as Facts>⟧.names w.space.facts) old new p grown ready };

    ghost holds = { λ w. refl };
}

impl<'g> Made<'g> for Site<'g, CellFacts> {
    fn make(
        alloc: Global,
        accepted: &'g Accepted,
        role: u16,
        loads: bool,
    ) -> Result<Self, AllocError> {
        Ok(Site::new(alloc, accepted, role, CellFacts::new(alloc), loads))
    }
}
