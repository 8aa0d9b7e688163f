//! A choice at a site, over the parts of the site.
ghost use Rattle.std.specs.Prelude.{◌≡◌, ℕ, ◌+◌, ◌++◌, ◌≤◌, Bool, true, All, IfOk, OnOk, OnErr, length, map as list_map, vec_len, vec_capacity};
ghost use Rattle.aw_term.specs.Names.{Ref as RefName};
ghost use Rattle.aw_choice.specs.ChoiceView.{choice_of, answer_of};
ghost use Rattle.aw_grammar.specs.GrammarOf.{grammar_of};
ghost use Rattle.aw_base.specs.ChoiceFits.{choice_ok};
ghost use Rattle.aw_msg.specs.MessageView.{message_of};
ghost use Rattle.aw_law_sites.specs.Choosing.{answer_to, choose as plain_choose};
ghost use Rattle.aw_law_sites.specs.SiteEvents.{after_choice};
ghost use Rattle.aw_law_sites.specs.Sites as P;
ghost use Rattle.aw_law_sites.specs.Worlds.{node_of};
ghost use Rattle.aw_space.specs.Keeping.{KeepsFacts, KeepsNodesBut};
ghost use Rattle.aw_space.specs.Outcomes.{IsOutcome};
ghost use Rattle.aw_space.specs.Seen.{space_seen};
ghost use Rattle.aw_space.specs.Spaces.{is_home, outcome};
ghost use Rattle.aw_subs.specs.Entries.{is_ready};
ghost use Rattle.aw_site_repeat.specs.Holders.{ShowsAsked, ShowsWatchers};
ghost use Rattle.aw_site.specs.Answers.{sent_by};
ghost use Rattle.aw_site.specs.Chosen.{Prepares};
ghost use Rattle.aw_site.specs.Sendable.{all_short};
ghost use Rattle.aw_site.specs.Shown.{HoldsAs, Shows};

use crate::plan::Plan;
use crate::sender::Sender;
use crate::sending::{carry_out, make_room};
use crate::uncounted;
use aw_accept::Accepted;
use aw_choice::{Answer, Choice};
use aw_msg::Message;
use aw_space::{Outcome, Space};
use aw_store::Facts;
use aw_subs::Subs;
use std::alloc::{AllocError, Global};

/// What a choice leads to, and what is to be sent where it is followed.
#[derive(Drop)]
pub struct Prepared {
    pub outcome: Outcome,
    pub plan: Plan,
}

/// Makes what a choice sends that was foreseen.
fn prepare<'g, F: Facts>(
    alloc: Global,
    g: &Accepted,
    space: &Space<'g, F>,
    subs: &Subs,
    loads: bool,
    choice: &Choice,
    foreseen: Outcome,
) -> Result<Prepared, AllocError>
    requires grammar { g.now.grammar ≡ space.now.accepted.now.grammar }
    requires ok { choice_ok (grammar_of g.now.grammar) (choice_of choice.now) ≡ true }
    requires here { is_home (grammar_of g.now.grammar) space.now.role (node_of (choice_of choice.now)) ≡ true }
    requires foreseen { IsOutcome foreseen (choice_of choice.now) (outcome (grammar_of g.now.grammar) (space_seen ⟦<F as Facts>⟧ space.now) (choice_of choice.now)) }
    ensures prepares { IfOk result (λ p. (s : P.Site) → HoldsAs ⟦<F as Facts>⟧ space.now subs.now loads s → Prepares (grammar_of g.now.grammar) s (choice_of choice.now) p) }
    ensures foreseen { IfOk result (λ p. IsOutcome p.outcome (choice_of choice.now) (outcome (grammar_of g.now.grammar) (space_seen ⟦<F as Facts>⟧ space.now) (choice_of choice.now))) }
{
    let sender = Sender {
        alloc,
        grammar: g.grammar(),
        role: space.role(),
        loads,
        facts: space.facts(),
        more: foreseen.made.equations.as_slice(),
    };
    let plan = sender.plan_made(subs, &foreseen.made)?;
    Ok(Prepared {
        outcome: foreseen,
        plan,
    })
}

/// Makes what a choice sends that was foreseen, takes the memory for it, and adds its messages to a copy. An error leaves the copy as it
/// was, too.
fn prepare_with_room<'g, F: Facts>(
    g: &Accepted,
    space: &Space<'g, F>,
    subs: &mut Subs,
    outbox: &mut Vec<Message>,
    loads: bool,
    choice: &Choice,
    foreseen: Outcome,
    copy: &mut Vec<Message>,
) -> Result<Prepared, AllocError>
    requires grammar { g.now.grammar ≡ space.now.accepted.now.grammar }
    requires ok { choice_ok (grammar_of g.now.grammar) (choice_of choice.now) ≡ true }
    requires here { is_home (grammar_of g.now.grammar) space.now.role (node_of (choice_of choice.now)) ≡ true }
    requires foreseen { IsOutcome foreseen (choice_of choice.now) (outcome (grammar_of g.now.grammar) (space_seen ⟦<F as Facts>⟧ space.now) (choice_of choice.now)) }
    ensures prepares { IfOk result (λ p. (s : P.Site) → HoldsAs ⟦<F as Facts>⟧ space.now subs.old loads s → Prepares (grammar_of g.now.grammar) s (choice_of choice.now) p) }
    ensures foreseen { IfOk result (λ p. IsOutcome p.outcome (choice_of choice.now) (outcome (grammar_of g.now.grammar) (space_seen ⟦<F as Facts>⟧ space.now) (choice_of choice.now))) }
    ensures outbox { outbox.new.items ≡ outbox.old.items }
    ensures copy { IfOk result (λ p. copy.new.items ≡ copy.old.items ++ p.plan.sent.items) }
    ensures err_copy { OnErr result (copy.new.items ≡ copy.old.items) }
    ensures asked { (asked : RefName → Bool) → ShowsAsked subs.old asked → ShowsAsked subs.new asked }
    ensures watchers { (ws : RefName → ℕ → Bool) → ShowsWatchers subs.old ws → ShowsWatchers subs.new ws }
    ensures room { IfOk result (λ p. vec_len outbox.new + vec_len p.plan.sent ≤ vec_capacity outbox.new) }
    ensures ready { IfOk result (λ p. All (λ x. is_ready subs.new.subs x ≡ true) p.plan.wanted.items) }
    ensures short { IfOk result (λ p. all_short p.plan.sent.items ≡ true) }
{
    let alloc = *outbox.allocator();
    let prepared = prepare(alloc, g, space, subs, loads, choice, foreseen)?;
    match make_room(&prepared.plan, subs, outbox, copy) {
        Ok(()) => Ok(prepared),
        Err(refused) => {
            drop(prepared);
            Err(refused)
        }
    }
}

/// Does what a choice was foreseen to lead to, and sends what follows from it; the answer, and how many messages were sent, which are added
/// to the outbox and to a copy. An error changes nothing.
fn decide<'g, F: Facts>(
    g: &Accepted,
    space: &mut Space<'g, F>,
    subs: &mut Subs,
    outbox: &mut Vec<Message>,
    loads: bool,
    choice: &Choice,
    foreseen: Outcome,
    copy: &mut Vec<Message>,
) -> Result<(Answer, usize), AllocError>
    requires grammar { g.now.grammar ≡ space.old.accepted.now.grammar }
    requires ok { choice_ok (grammar_of g.now.grammar) (choice_of choice.now) ≡ true }
    requires here { is_home (grammar_of g.now.grammar) space.old.role (node_of (choice_of choice.now)) ≡ true }
    requires foreseen { IsOutcome foreseen (choice_of choice.now) (outcome (grammar_of g.now.grammar) (space_seen ⟦<F as Facts>⟧ space.old) (choice_of choice.now)) }
    ensures grammar { space.new.accepted.now.grammar ≡ space.old.accepted.now.grammar }
    ensures role { space.new.role ≡ space.old.role }
    ensures answer { IfOk result (λ r. (s : P.Site) → Shows ⟦<F as Facts>⟧ space.old subs.old outbox.old.items loads s →
        answer_of r.0 ≡ answer_to (plain_choose (grammar_of g.now.grammar) s (choice_of choice.now))) }
    ensures count { IfOk result (λ r. (s : P.Site) → Shows ⟦<F as Facts>⟧ space.old subs.old outbox.old.items loads s →
        r.1 ≡ length (sent_by (plain_choose (grammar_of g.now.grammar) s (choice_of choice.now)))) }
    ensures site { OnOk result ((s : P.Site) → Shows ⟦<F as Facts>⟧ space.old subs.old outbox.old.items loads s →
        Shows ⟦<F as Facts>⟧ space.new subs.new outbox.new.items loads (after_choice s (plain_choose (grammar_of g.now.grammar) s (choice_of choice.now)))) }
    ensures copy { OnOk result ((s : P.Site) → Shows ⟦<F as Facts>⟧ space.old subs.old outbox.old.items loads s →
        list_map (message_of (grammar_of g.now.grammar)) copy.new.items
        ≡ list_map (message_of (grammar_of g.now.grammar)) copy.old.items ++ sent_by (plain_choose (grammar_of g.now.grammar) s (choice_of choice.now))) }
    ensures err { OnErr result ((s : P.Site) → Shows ⟦<F as Facts>⟧ space.old subs.old outbox.old.items loads s → Shows ⟦<F as Facts>⟧ space.new subs.new outbox.new.items loads s) }
    ensures err_copy { OnErr result (copy.new.items ≡ copy.old.items) }
    ensures short { all_short outbox.old.items ≡ true → all_short outbox.new.items ≡ true }
    ensures facts { KeepsFacts (F.map space.old.facts) (F.map space.new.facts) }
    ensures nodes { KeepsNodesBut (node_of (choice_of choice.now)) (space_seen ⟦<F as Facts>⟧ space.old).held (space_seen ⟦<F as Facts>⟧ space.new).held }
{
    let before = copy.len();
    let Prepared { outcome, plan } = prepare_with_room(
        g, space, subs, outbox, loads, choice, foreseen, copy,
    )?;
    match uncounted::conclude(space, g, choice, outcome) {
        Ok(answer) => {
            let count = plan.sent.len();
            carry_out(plan, subs, outbox);
            Ok((answer, count))
        }
        Err(refused) => {
            drop(plan);
            copy.truncate(before);
            Err(refused)
        }
    }
}

/// Answers a choice; how many messages it sent, which are added to the outbox and to a copy. Only `Taken` changes anything, and an error
/// changes nothing.
pub fn choose<'g, F: Facts>(
    g: &Accepted,
    space: &mut Space<'g, F>,
    subs: &mut Subs,
    outbox: &mut Vec<Message>,
    loads: bool,
    choice: &Choice,
    copy: &mut Vec<Message>,
) -> Result<(Answer, usize), AllocError>
    requires grammar { g.now.grammar ≡ space.old.accepted.now.grammar }
    requires ok { choice_ok (grammar_of g.now.grammar) (choice_of choice.now) ≡ true }
    requires here { is_home (grammar_of g.now.grammar) space.old.role (node_of (choice_of choice.now)) ≡ true }
    ensures grammar { space.new.accepted.now.grammar ≡ space.old.accepted.now.grammar }
    ensures role { space.new.role ≡ space.old.role }
    ensures answer { IfOk result (λ r. (s : P.Site) → Shows ⟦<F as Facts>⟧ space.old subs.old outbox.old.items loads s →
        answer_of r.0 ≡ answer_to (plain_choose (grammar_of g.now.grammar) s (choice_of choice.now))) }
    ensures count { IfOk result (λ r. (s : P.Site) → Shows ⟦<F as Facts>⟧ space.old subs.old outbox.old.items loads s →
        r.1 ≡ length (sent_by (plain_choose (grammar_of g.now.grammar) s (choice_of choice.now)))) }
    ensures site { OnOk result ((s : P.Site) → Shows ⟦<F as Facts>⟧ space.old subs.old outbox.old.items loads s →
        Shows ⟦<F as Facts>⟧ space.new subs.new outbox.new.items loads (after_choice s (plain_choose (grammar_of g.now.grammar) s (choice_of choice.now)))) }
    ensures copy { OnOk result ((s : P.Site) → Shows ⟦<F as Facts>⟧ space.old subs.old outbox.old.items loads s →
        list_map (message_of (grammar_of g.now.grammar)) copy.new.items
        ≡ list_map (message_of (grammar_of g.now.grammar)) copy.old.items ++ sent_by (plain_choose (grammar_of g.now.grammar) s (choice_of choice.now))) }
    ensures err { OnErr result ((s : P.Site) → Shows ⟦<F as Facts>⟧ space.old subs.old outbox.old.items loads s → Shows ⟦<F as Facts>⟧ space.new subs.new outbox.new.items loads s) }
    ensures err_copy { OnErr result (copy.new.items ≡ copy.old.items) }
    ensures short { all_short outbox.old.items ≡ true → all_short outbox.new.items ≡ true }
    ensures facts { KeepsFacts (F.map space.old.facts) (F.map space.new.facts) }
    ensures nodes { KeepsNodesBut (node_of (choice_of choice.now)) (space_seen ⟦<F as Facts>⟧ space.old).held (space_seen ⟦<F as Facts>⟧ space.new).held }
{
    let foreseen = uncounted::foresee(space, g, choice)?;
    if !foreseen.is_taken() {
        let Outcome { answer, .. } = foreseen;
        return Ok((answer, 0));
    }
    decide(g, space, subs, outbox, loads, choice, foreseen, copy)
}
