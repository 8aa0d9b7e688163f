//! What a world asks of a workspace: that it reacts as the plain definitions say.
ghost use Rattle.std.specs.Prelude.{◌≡◌, ◌≤◌, ◌<◌, ℕ, List, true, IfOk, OnOk, OnErr, length, map as list_map};
ghost use Rattle.aw_grammar.specs.GrammarOf.{grammar_of};
ghost use Rattle.aw_grammar.specs.declared.grammar.Grammar.{Grammar as GrammarValue};
ghost use Rattle.aw_term.specs.Rules.{Grammar as PlainGrammar};
ghost use Rattle.aw_term.specs.SameGrammar.{same_grammar};
ghost use Rattle.aw_base.specs.ChoiceFits.{choice_ok};
ghost use Rattle.aw_choice.specs.ChoiceView.{choice_of, answer_of};
ghost use Rattle.aw_law_sites.specs.Homes.{home};
ghost use Rattle.aw_law_sites.specs.Sites as P;
ghost use Rattle.aw_law_sites.specs.Worlds.{node_of};
ghost use Rattle.aw_law_sites.specs.Choosing.{answer_to};
ghost use Rattle.aw_law_sites.specs.SiteEvents.{after_choice, after_message};
ghost use Rattle.aw_choice.specs.ChoiceView.{item_of};
ghost use Rattle.aw_node_list.specs.declared.held.Held.{Held as HeldValue};
ghost use Rattle.aw_node_list.specs.InOrder.{IsInOrder};
ghost use Rattle.aw_node_list.specs.HeldView.{all_of};
ghost use Rattle.aw_law_sites.specs.Worklists.{site_worklist};
ghost use Rattle.aw_site.specs.Answers.{sent_by, sent_for};
ghost use Rattle.aw_out.specs.Report.{Bounded};
ghost use Rattle.aw_print.specs.Growing.{HasGrown};
ghost use Rattle.aw_print.specs.Stacks.{IsNew};
ghost use Rattle.aw_print.specs.declared.stack.Printer.{Printer as PrinterValue};
ghost use Rattle.aw_world.specs.PrintedRows.{PrintsRow};
ghost use Rattle.aw_world.specs.Reactions.{choice_at, message_at, AddsMessages};
ghost use Rattle.aw_world.specs.SiteAnswers.{is_new};

use aw_accept::Accepted;
use aw_base::NameWriter;
use aw_choice::{Answer, Choice, Worklist};
use aw_msg::{Message, Messages};
use aw_node_list::Holding;
use aw_out::{PrintFault, Report};
use aw_print::Printer;
use std::alloc::{AllocError, Global};

/// A workspace of one role.
pub trait Workspace: Drop {
    /// The grammar that it was made for.
    ghost its_grammar: { Self → PlainGrammar };

    /// The role that it was made for.
    ghost its_role: { Self → ℕ };

    /// The nodes that it holds.
    ghost its_nodes: { Self → List HeldValue };

    /// The plain site that it is.
    ghost seen: { Self → P.Site };

    /// With the words of this grammar this printer can print its lines into this report: what it keeps is so over its equations, and in
    /// the report.
    ghost keeps: { Self → GrammarValue → Bounded → PrinterValue → Type 0 };

    /// Answers a choice, and appends what it sends to a list; how many messages those are. An error changes nothing.
    fn choose_into(
        &mut self,
        choice: &Choice,
        copy: &mut Messages,
    ) -> Result<(Answer, usize), AllocError>
        requires ok { choice_ok (its_grammar self.old) (choice_of choice.now) ≡ true }
        requires here { home (its_grammar self.old) (node_of (choice_of choice.now)) ≡ its_role self.old }
        ensures grammar { its_grammar self.new ≡ its_grammar self.old }
        ensures role { its_role self.new ≡ its_role self.old }
        ensures answer { IfOk result (λ r. answer_of r.0 ≡ answer_to (choice_at (its_grammar self.old) (seen self.old) choice.now)) }
        ensures count { IfOk result (λ r. r.1 ≡ length (sent_by (choice_at (its_grammar self.old) (seen self.old) choice.now))) }
        ensures site { OnOk result (seen self.new ≡ after_choice (seen self.old) (choice_at (its_grammar self.old) (seen self.old) choice.now)) }
        ensures sent { OnOk result (AddsMessages (its_grammar self.old) copy.old copy.new (sent_by (choice_at (its_grammar self.old) (seen self.old) choice.now))) }
        ensures grows { length copy.old ≤ length copy.new }
        ensures err { OnErr result (seen self.new ≡ seen self.old) }
        ensures err_sent { OnErr result (copy.new ≡ copy.old) };

    /// Takes in a message, whatever it says, and appends what it sends to a list. An error changes nothing.
    fn receive_into(&mut self, message: &Message, copy: &mut Messages) -> Result<bool, AllocError>
        ensures grammar { its_grammar self.new ≡ its_grammar self.old }
        ensures role { its_role self.new ≡ its_role self.old }
        ensures new { IfOk result (λ new. new ≡ is_new (message_at (its_grammar self.old) (seen self.old) message.now)) }
        ensures site { OnOk result (seen self.new ≡ after_message (seen self.old) (message_at (its_grammar self.old) (seen self.old) message.now)) }
        ensures sent { OnOk result (AddsMessages (its_grammar self.old) copy.old copy.new (sent_for (message_at (its_grammar self.old) (seen self.old) message.now))) }
        ensures grows { length copy.old ≤ length copy.new }
        ensures err { OnErr result (seen self.new ≡ seen self.old) }
        ensures err_sent { OnErr result (copy.new ≡ copy.old) };

    /// How each rule stands at each open node, the nodes in order.
    fn list(&self) -> Result<Worklist, AllocError>
        ensures { IfOk result (λ items. list_map item_of items ≡ site_worklist (its_grammar self.now) (seen self.now).equations (seen self.now).held) };

    /// The nodes that it holds, in order.
    fn nodes(&self) -> &Holding
        ensures { result.now.items ≡ its_nodes self.now };

    /// Prints the artifact line of the node at a place, from the equations that it has. Where the text would pass the report's limit, or
    /// memory is missing, the report has got the front of the line. Where chases end, and where long texts stand in the report, is kept
    /// for the lines that are printed next.
    fn print_row(
        &self,
        alloc: Global,
        accepted: &Accepted,
        place: usize,
        names: &mut NameWriter<'_>,
        printer: &mut Printer,
        report: &mut Report,
    ) -> Result<(), PrintFault>
        requires grammar { same_grammar (its_grammar self.now) (grammar_of accepted.now.grammar) ≡ true }
        requires place { place < length (its_nodes self.now) }
        requires named { names.old.grammar.now ≡ accepted.now.grammar }
        requires ready { keeps self.now accepted.now.grammar report.old printer.old }
        ensures names { names.new.grammar.now ≡ names.old.grammar.now }
        ensures ready { keeps self.now accepted.now.grammar report.new printer.new }
        ensures grows { HasGrown report.old report.new }
        ensures prints { PrintsRow accepted.now.grammar (seen self.now) place report.old report.new result };

    /// The site has its role.
    ghost has_role: { (w : Self) → (seen w).role ≡ its_role w };

    /// Its nodes are in the order of their names.
    ghost in_order: { (w : Self) → IsInOrder (its_nodes w) };

    /// A printer that keeps nothing can print into each report.
    ghost keeps_none: { (w : Self) (g : GrammarValue) (report : Bounded) (p : PrinterValue) → IsNew p → keeps w g report p };

    /// What a printer keeps stays so where its report grows, as by lines of other workspaces.
    ghost keeps_on: { (w : Self) (g : GrammarValue) (old new : Bounded) (p : PrinterValue) → HasGrown old new → keeps w g old p → keeps w g new p };

    /// The site holds its nodes.
    ghost holds: { (w : Self) → (seen w).held ≡ all_of (its_grammar w) (its_nodes w) };
}

/// A workspace that can be made for a grammar.
pub trait Made<'g>: Workspace {
    /// A workspace that holds nothing.
    fn make(
        alloc: Global,
        accepted: &'g Accepted,
        role: u16,
        loads: bool,
    ) -> Result<Self, AllocError>
        ensures grammar { IfOk result (λ w. same_grammar (Self.its_grammar w) (grammar_of accepted.now.grammar) ≡ true) }
        ensures role { IfOk result (λ w. Self.its_role w ≡ role) }
        ensures shows { IfOk result (λ w. Self.seen w ≡ P.empty_site loads role) };
}
