//! What the workspaces of a world hold.
ghost use Rattle.std.specs.Prelude.{◌≡◌, ◌<◌, None, true, IfOk, IsSome, length, map as list_map};
ghost use Rattle.aw_choice.specs.ChoiceView.{item_of};
ghost use Rattle.aw_grammar.specs.GrammarOf.{grammar_of};
ghost use Rattle.aw_grammar.specs.declared.grammar.Grammar.{Grammar as GrammarValue};
ghost use Rattle.aw_out.specs.Report.{Bounded};
ghost use Rattle.aw_law_sites.specs.Worlds as V;
ghost use Rattle.aw_term.specs.SameGrammar.{same_grammar};
ghost use Rattle.aw_world.specs.Merged.{held_at};
ghost use Rattle.aw_world.specs.Opened.{AreAllInOrder, AreAtHome, open_nodes};
ghost use Rattle.aw_world.specs.Reactions.{PrintsRows, PrintsArtifacts, HasRows};
ghost use Rattle.aw_world.specs.Seen.{ArePlaced, KeepEach};
ghost use Rattle.aw_world.specs.SpotRows.{PrintsSpot};

use crate::merging::{Spot, in_order};
use crate::opening::open_all;
use crate::workspace::Workspace;
use crate::world::World;
use aw_accept::Accepted;
use aw_base::NameWriter;
use aw_choice::Worklist;
use aw_list::Items;
use aw_name::Node;
use aw_out::{PrintFault, Report};
use aw_print::Printer;
use std::alloc::{AllocError, Global};

/// Nodes in their order.
pub type Nodes = Items<Node>;

/// For each workspace a printer that keeps nothing yet.
fn new_printers<W: Workspace>(alloc: Global, sites: &[W]) -> Result<Vec<Printer>, AllocError>
    ensures { IfOk result (λ printers. (g : GrammarValue) (report : Bounded) → KeepEach ⟦<W as Workspace>⟧ g report sites.now printers.items) }
{
    let mut printers = Vec::new(alloc);
    for i in 0..sites.len() {
        printers.push(Printer::new(alloc))?;
    }
    Ok(printers)
}

/// Prints the line of the node at a place.
fn print_at<W: Workspace>(
    alloc: Global,
    accepted: &Accepted,
    sites: &[W],
    spot: &Spot,
    names: &mut NameWriter<'_>,
    printers: &mut Vec<Printer>,
    report: &mut Report,
) -> Result<(), PrintFault>
    requires placed { ArePlaced ⟦<W as Workspace>⟧ accepted.now.grammar sites.now }
    requires there { IsSome (held_at ⟦<W as Workspace>⟧ sites.now spot.now) }
    requires named { names.old.grammar.now ≡ accepted.now.grammar }
    requires ready { KeepEach ⟦<W as Workspace>⟧ accepted.now.grammar report.old sites.now printers.old.items }
    ensures names { names.new.grammar.now ≡ names.old.grammar.now }
    ensures ready { KeepEach ⟦<W as Workspace>⟧ accepted.now.grammar report.new sites.now printers.new.items }
    ensures prints { PrintsSpot ⟦<W as Workspace>⟧ accepted.now.grammar sites.now spot.now report.old report.new result }
{
    let site = &sites[spot.site];
    let own = &mut printers[spot.site];
    site.print_row(alloc, accepted, spot.place, names, own, report)
}

/// Prints the lines of all nodes, each by the printer of its workspace.
fn print_each<W: Workspace>(
    alloc: Global,
    accepted: &Accepted,
    sites: &[W],
    spots: &[Spot],
    names: &mut NameWriter<'_>,
    printers: &mut Vec<Printer>,
    report: &mut Report,
) -> Result<(), PrintFault>
    requires placed { ArePlaced ⟦<W as Workspace>⟧ accepted.now.grammar sites.now }
    requires homes { AreAtHome ⟦<W as Workspace>⟧ (grammar_of accepted.now.grammar) sites.now }
    requires order { AreAllInOrder ⟦<W as Workspace>⟧ sites.now spots.now }
    requires named { names.old.grammar.now ≡ accepted.now.grammar }
    requires ready { KeepEach ⟦<W as Workspace>⟧ accepted.now.grammar report.old sites.now printers.old.items }
    ensures { (v : V.World) → list_map (λ w. W.seen w) sites.now ≡ v.sites → PrintsRows accepted.now.grammar v report.old report.new result }
{
    for spot in spots {
        print_at(alloc, accepted, sites, spot, names, printers, report)?;
    }
    Ok(())
}

/// Prints the lines of all nodes, those of a workspace by one printer.
fn print_all<W: Workspace>(
    alloc: Global,
    accepted: &Accepted,
    sites: &[W],
    spots: &[Spot],
    report: &mut Report,
) -> Result<(), PrintFault>
    requires placed { ArePlaced ⟦<W as Workspace>⟧ accepted.now.grammar sites.now }
    requires homes { AreAtHome ⟦<W as Workspace>⟧ (grammar_of accepted.now.grammar) sites.now }
    requires order { AreAllInOrder ⟦<W as Workspace>⟧ sites.now spots.now }
    ensures { (v : V.World) → list_map (λ w. W.seen w) sites.now ≡ v.sites → PrintsRows accepted.now.grammar v report.old report.new result }
{
    let mut printers = new_printers(alloc, sites)?;
    let mut names = NameWriter::new(alloc, accepted.grammar());
    print_each(
        alloc,
        accepted,
        sites,
        spots,
        &mut names,
        &mut printers,
        report,
    )
}

impl<'g, W: Workspace> World<'g, W> {
    ghost use Rattle.aw_world.specs.Shown.{IsWorklist, Shows, first_open};

    /// The workspace of a role.
    pub fn site(&self, role: u16) -> &W
        requires { role < (grammar_of self.now.accepted.now.grammar).roles }
        ensures shows { (v : V.World) → Shows ⟦<W as Workspace>⟧ self.now v → W.seen result.now ≡ V.site_at v role }
        ensures role { W.its_role result.now ≡ role }
        ensures grammar { same_grammar (W.its_grammar result.now) (grammar_of self.now.accepted.now.grammar) ≡ true }
    {
        let site = &self.sites[usize::from(role)];
        site
    }

    /// How each rule stands at each open node of a role, in order.
    pub fn list(&self, role: u16) -> Result<Worklist, AllocError>
        requires { role < (grammar_of self.now.accepted.now.grammar).roles }
        ensures { IfOk result (λ items. IsWorklist ⟦<W as Workspace>⟧ self.now role (list_map item_of items)) }
    {
        self.site(role).list()
    }

    /// Where the nodes of all roles stand, in the order of nodes.
    pub fn in_order(&self) -> Result<Vec<Spot>, AllocError>
        ensures order { IfOk result (λ spots. AreAllInOrder ⟦<W as Workspace>⟧ self.now.sites.items spots.items) }
        ensures count { IfOk result (λ spots. (v : V.World) → Shows ⟦<W as Workspace>⟧ self.now v → length spots.items ≡ length (V.gather v.sites)) }
        ensures quiet { IfOk result (λ spots. first_open self.now ≡ None → HasRows self.now.accepted.now.grammar self.now.taken.items (length spots.items)) }
    {
        in_order(self.allocator(), self.sites.as_slice())
    }

    /// The open nodes of all roles, in order.
    pub fn pending(&self) -> Result<Nodes, AllocError>
        ensures { IfOk result (λ nodes. (v : V.World) → Shows ⟦<W as Workspace>⟧ self.now v → nodes ≡ open_nodes (V.gather v.sites)) }
    {
        let nodes = open_all(self.allocator(), self.sites.as_slice())?;
        Ok(Nodes::from_vec(nodes))
    }

    /// Prints the artifact line of each node that stands at one of these places, which are those of all nodes in order, each from the
    /// equations of its own role. Once every message was delivered, the lines are the artifacts of the choices taken. Where the text
    /// would pass the report's limit, or memory is missing, the report has got the front of the text.
    pub fn print_rows(&self, spots: &[Spot], report: &mut Report) -> Result<(), PrintFault>
        requires { AreAllInOrder ⟦<W as Workspace>⟧ self.now.sites.items spots.now }
        ensures prints { (v : V.World) → Shows ⟦<W as Workspace>⟧ self.now v → PrintsRows self.now.accepted.now.grammar v report.old report.new result }
        ensures quiet { first_open self.now ≡ None → PrintsArtifacts self.now.accepted.now.grammar self.now.taken.items report.old report.new result }
    {
        print_all(
            self.allocator(),
            self.accepted,
            self.sites.as_slice(),
            spots,
            report,
        )
    }
}
