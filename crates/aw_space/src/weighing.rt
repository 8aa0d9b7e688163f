//! What a choice of a rule leads to at a held node.
ghost use Rattle.std.specs.Prelude.{◌≡◌, ◌<◌, ◌≤◌, ◌+◌, List, Some, true, IfOk, IfSome, length, map, option_map, slice_get, is_some};
ghost use Rattle.aw_term.specs.Trees.{join};
ghost use Rattle.aw_term.specs.Rules.{sort_of};
ghost use Rattle.aw_term.specs.Views.{ground_of, pattern_of};
ghost use Rattle.aw_term.specs.WellFormed.{all_leaves, all_nesting};
ghost use Rattle.aw_grammar.specs.declared.rule.Sort.{Sort as SortValue};
ghost use Rattle.aw_grammar.specs.GrammarView.{rule_of};
ghost use Rattle.aw_grammar.specs.GrammarOf.{grammar_of};
ghost use Rattle.aw_store.specs.NamedRefs.{AreNamed};
ghost use Rattle.aw_term.specs.Held as P;
ghost use Rattle.aw_node_list.specs.HeldView.{held_of};
ghost use Rattle.aw_node_list.specs.InOrder.{place_in};
ghost use Rattle.aw_law_sites.specs.Joint.{by_rule, by_held};
ghost use Rattle.aw_term.specs.Choices.{Develop, after_guard};
ghost use Rattle.aw_term.specs.Limits.{most_inherited, most_levels, most_variables};
ghost use Rattle.aw_choice.specs.ChoiceView.{answer_of, refusal_of};
ghost use Rattle.aw_apply.specs.Guard.{guard_all};
ghost use Rattle.aw_apply.specs.Telling.{weighed_of, HasRoom};
ghost use Rattle.aw_law_sites.specs.ValidNames.{takes_as};
ghost use Rattle.aw_standing.specs.Items.{StandsAt};
ghost use Rattle.aw_space.specs.Weighing.{Weighs, HasRoomFor, IsRefused, StandsSo};

use crate::space::Space;
use aw_apply::{Steps, Weighed, test_rule, weigh_guard};
use aw_base::sort_at;
use aw_choice::{Answer, Standing};
use aw_grammar::{Grammar, Rule};
use aw_name::Node;
use aw_node_list::Held;
use aw_store::Facts;
use aw_term::Grounds;
use std::alloc::{AllocError, Global};
use std::sync::ledger::Ledger;

/// The answer to a choice of a rule that stands so, where that is a refusal.
fn refused_by(stands: Standing) -> Option<Answer>
    ensures { option_map answer_of result ≡ refusal_of stands }
{
    match stands {
        Standing::Ready => None,
        Standing::Waits(on) => Some(Answer::Waits(on)),
        Standing::Differs(place) => Some(Answer::Differs(place)),
        Standing::Circle(at) => Some(Answer::Circle(at)),
        Standing::TooDeep => Some(Answer::TooDeep),
    }
}

/// A rule at a held node: the node, the slots of its references, and how the rule stands there, where the node is open and of the
/// rule's sort.
#[derive(Drop)]
struct RuleAt<'n> {
    held: &'n Held,
    slots: &'n [usize],
    stands: Standing,
}

/// A rule at an open node of its sort. Its guard is tested only where it is ready, for what its patterns bind.
fn weigh_standing<F: Facts, L: Ledger>(
    alloc: Global,
    facts: &F,
    rule: &Rule,
    at: RuleAt<'_>,
    steps: &mut Steps<L>,
) -> Result<Weighed, AllocError>
    requires named { AreNamed (F.names facts.now) at.slots.now at.held.now.inherited }
    requires same { length rule.now.patterns ≡ length at.held.now.inherited }
    requires few { length rule.now.patterns ≤ most_inherited }
    requires shallow { all_nesting (join (map pattern_of rule.now.patterns)) ≤ most_levels }
    requires room { length (all_leaves (join (map pattern_of rule.now.patterns))) ≤ most_variables }
    ensures room { IfOk result (λ w. HasRoom (length rule.now.children) at.entry.held.now.node w) }
    ensures value { IfOk result (λ w. (sorts : List SortValue) → StandsSo (F.map facts.now) at.entry.held.now sorts rule.now at.entry.stands →
        weighed_of (rule_of sorts rule.now) w ≡ after_guard at.entry.held.now.node (rule_of sorts rule.now)
        (guard_all (F.map facts.now) 1 (map pattern_of rule.now.patterns) at.entry.held.now.inherited)) }
    ensures steps { steps.new ≤ steps.old + 1 }
    ensures untested { IfOk result (λ w. (sorts : List SortValue) → StandsSo (F.map facts.now) at.entry.held.now sorts rule.now at.entry.stands →
        IsRefused w → steps.new ≡ steps.old) }
{
    let RuleAt {
        held,
        slots,
        stands,
    } = at;
    match refused_by(stands) {
        Some(answer) => Ok(Weighed::Refused(answer)),
        None => {
            let tested = test_rule(alloc, facts, rule, slots, steps)?;
            Ok(weigh_guard(&held.node, rule, tested))
        }
    }
}

/// A rule at an open node of this sort.
fn weigh_rule<F: Facts, L: Ledger>(
    facts: &F,
    rule: &Rule,
    sort: u16,
    at: RuleAt<'_>,
    args: &Grounds,
    steps: &mut Steps<L>,
) -> Result<Weighed, AllocError>
    requires named { AreNamed (F.names facts.now) at.slots.now at.held.now.inherited }
    requires same { rule.now.sort ≡ sort → length rule.now.patterns ≡ length at.held.now.inherited }
    requires few { length rule.now.patterns ≤ most_inherited }
    requires shallow { all_nesting (join (map pattern_of rule.now.patterns)) ≤ most_levels }
    requires room { length (all_leaves (join (map pattern_of rule.now.patterns))) ≤ most_variables }
    ensures room { IfOk result (λ w. HasRoom (length rule.now.children) at.entry.held.now.node w) }
    ensures value { IfOk result (λ w. (sorts : List SortValue) (h : P.Held) → h.sort ≡ sort → h.inherited ≡ at.entry.held.now.inherited →
        (rule.now.sort ≡ sort → StandsSo (F.map facts.now) at.entry.held.now sorts rule.now at.entry.stands) →
        weighed_of (rule_of sorts rule.now) w ≡ by_rule (Some (rule_of sorts rule.now)) (F.map facts.now) at.entry.held.now.node (map ground_of args.now) h) }
    ensures steps { steps.new ≤ steps.old + 1 }
    ensures untested { IfOk result (λ w. (sorts : List SortValue) →
        (rule.now.sort ≡ sort → StandsSo (F.map facts.now) at.entry.held.now sorts rule.now at.entry.stands) → IsRefused w → steps.new ≡ steps.old) }
{
    if rule.sort != sort {
        return Ok(Weighed::Refused(Answer::NotItsRule));
    }
    if args.len() != usize::from(rule.params) {
        return Ok(Weighed::Refused(Answer::Arguments));
    }
    weigh_standing(args.allocator(), facts, rule, at, steps)
}

/// A declared rule at a held node.
fn weigh_at<F: Facts, L: Ledger>(
    grammar: &Grammar,
    facts: &F,
    at: RuleAt<'_>,
    number: u16,
    args: &Grounds,
    steps: &mut Steps<L>,
) -> Result<Weighed, AllocError>
    requires takes { takes_as (grammar_of grammar.now) (sort_of (grammar_of grammar.now) at.held.now.node) at.held.now.inherited ≡ true }
    requires declared { is_some (slice_get grammar.now.rules number) ≡ true }
    requires named { AreNamed (F.names facts.now) at.slots.now at.held.now.inherited }
    requires stands { StandsAt (grammar_of grammar.now) (F.map facts.now) at.held.now number at.stands }
    ensures room { IfOk result (λ w. HasRoomFor grammar.now number at.entry.held.now.node w) }
    ensures value { IfOk result (λ w. Weighs (grammar_of grammar.now) number w
        (by_held (Some (held_of (grammar_of grammar.now) at.entry.held.now)) (grammar_of grammar.now) (F.map facts.now)
        at.entry.held.now.node number (map ground_of args.now))) }
    ensures steps { steps.new ≤ steps.old + 1 }
    ensures untested { IfOk result (λ w. IsRefused w → steps.new ≡ steps.old) }
{
    if at.held.done.is_some() {
        return Ok(Weighed::Refused(Answer::Developed));
    }
    match grammar.rule(number) {
        Some(rule) => {
            let sort = sort_at(grammar, &at.held.node);
            weigh_rule(facts, rule, sort, at, args, steps)
        }
        None => unreachable!(),
    }
}

impl<'g, F: Facts> Space<'g, F> {
    ghost use Rattle.aw_space.specs.InSpace.{outcome_here};
    ghost use Rattle.aw_space.specs.Seen.{grammar_in};

    /// A declared rule at a node, which was found at a place where it is held. What is kept tells how it stands there: a refusal
    /// tests no guard.
    pub(crate) fn weigh<L: Ledger>(
        &self,
        found: Option<usize>,
        node: &Node,
        rule: u16,
        args: &Grounds,
        steps: &mut Steps<L>,
    ) -> Result<Weighed, AllocError>
        requires found { found ≡ place_in node.now self.now.held.items }
        requires within { IfSome found (λ at. at < length self.now.held.items) }
        requires declared { is_some (slice_get self.now.accepted.now.grammar.rules rule) ≡ true }
        ensures room { IfOk result (λ w. HasRoomFor self.now.accepted.now.grammar rule node.now w) }
        ensures value { IfOk result (λ w. Weighs (grammar_in ⟦<F as Facts>⟧ self.now) rule w
            (outcome_here ⟦<F as Facts>⟧ self.now (Develop node.now rule (map ground_of args.now)))) }
        ensures steps { steps.new ≤ steps.old + 1 }
        ensures untested { IfOk result (λ w. IsRefused w → steps.new ≡ steps.old) }
    {
        match found {
            Some(place) => {
                let number = self.held.number_at(place);
                let stands = self.kept.standing(number, rule, &self.facts)?;
                let at = RuleAt {
                    held: self.held.at(place),
                    slots: self.kept.slots(number),
                    stands,
                };
                weigh_at(self.accepted.grammar(), &self.facts, at, rule, args, steps)
            }
            None => Ok(Weighed::Refused(Answer::NotHere)),
        }
    }
}
