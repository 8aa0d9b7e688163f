//! A message at a site, over the parts of the site.
ghost use Rattle.std.specs.Prelude.{◌≡◌, ℕ, ◌+◌, ◌++◌, ◌<◌, ◌≤◌, Bool, [], None, true, All, IfOk, OnOk, OnErr, length, map as list_map, vec_len, vec_capacity};
ghost use Rattle.std.specs.Option.{option_copied};
ghost use Rattle.aw_term.specs.Names.{Ref as RefName};
ghost use Rattle.aw_grammar.specs.GrammarOf.{grammar_of};
ghost use Rattle.aw_store.specs.EquationView.{equation_of};
ghost use Rattle.aw_apply.specs.Messages.{Asks};
ghost use Rattle.aw_msg.specs.MessageView.{message_of};
ghost use Rattle.aw_law_sites.specs.Reacting.{receive as plain_receive, react as plain_react};
ghost use Rattle.aw_law_sites.specs.SiteEvents.{after_message};
ghost use Rattle.aw_law_sites.specs.Sites as P;
ghost use Rattle.aw_space.specs.Keeping.{KeepsFacts, KeepsNodes};
ghost use Rattle.aw_space.specs.Placings.{MayBeCalledIf, MayBeLearnt, called_by};
ghost use Rattle.aw_space.specs.Seen.{space_seen};
ghost use Rattle.aw_space.specs.Spaces.{clash_with};
ghost use Rattle.aw_subs.specs.Entries.{is_ready};
ghost use Rattle.aw_site_repeat.specs.Holders.{ShowsAsked, ShowsWatchers};
ghost use Rattle.aw_site_repeat.specs.Views.{kind_of};
ghost use Rattle.aw_site.specs.Answers.{sent_for, IsReceived};
ghost use Rattle.aw_site.specs.Came.{came, holding, inherited_by, watching};
ghost use Rattle.aw_site.specs.Doing.{IsPlanned};
ghost use Rattle.aw_site.specs.Judged.{IsFresh};
ghost use Rattle.aw_site.specs.Sendable.{all_short};
ghost use Rattle.aw_site.specs.Shown.{HoldsAs, Shows};
ghost use Rattle.aw_site.specs.Walks.{listed};
ghost use Rattle.aw_term.specs.Rules as T;
ghost use Rattle.aw_apply.specs.Messages.{carried};

use crate::judging::{Sight, look_at};
use crate::plan::Plan;
use crate::received::Received;
use crate::sender::Sender;
use crate::sending::{carry_out, make_room};
use crate::uncounted;
use aw_accept::Accepted;
use aw_msg::{Message, MsgKind};
use aw_name::{Node, Ref, Refs, copy_node};
use aw_space::{Placing, Space};
use aw_store::{Equations, Facts};
use aw_subs::Subs;
use std::alloc::{AllocError, Global};

/// The messages of a list of one, or of none.
fn listed(alloc: Global, message: Option<Message>) -> Result<Vec<Message>, AllocError>
    ensures { IfOk result (λ ms. ms.items ≡ listed message) }
{
    let mut messages = Vec::new(alloc);
    if let Some(message) = message {
        messages.push(message)?;
    }
    Ok(messages)
}

/// What is sent where a role asks: the equation, where it is here.
fn plan_answer<'g, F: Facts>(
    alloc: Global,
    g: &Accepted,
    space: &Space<'g, F>,
    loads: bool,
    r: &Ref,
    from: u16,
) -> Result<Plan, AllocError>
    requires { g.now.grammar ≡ space.now.accepted.now.grammar }
    ensures nothing { IfOk result (λ p. p.wanted.items ≡ []) }
    ensures plan { IfOk result (λ p. (s : P.Site) → s.role ≡ space.now.role → s.loads ≡ loads → s.equations ≡ F.map space.now.facts →
        IsPlanned (grammar_of g.now.grammar) (watching s r.now from) (plain_react (grammar_of g.now.grammar) s (Asks r.now from)) p) }
{
    let sender = Sender {
        alloc,
        grammar: g.grammar(),
        role: space.role(),
        loads,
        facts: space.facts(),
        more: &[],
    };
    Ok(Plan {
        sent: listed(alloc, sender.tell_back(r, from)?)?,
        wanted: Vec::new(alloc),
    })
}

/// Notes who asks, and answers where the equation is here; how many messages were sent. An error changes nothing.
fn answer_ask<'g, F: Facts>(
    g: &Accepted,
    space: &Space<'g, F>,
    subs: &mut Subs,
    outbox: &mut Vec<Message>,
    loads: bool,
    r: &Ref,
    from: u16,
    copy: &mut Vec<Message>,
) -> Result<usize, AllocError>
    requires grammar { g.now.grammar ≡ space.now.accepted.now.grammar }
    requires role { from < 64 }
    ensures count { IfOk result (λ n. (s : P.Site) → Shows ⟦<F as Facts>⟧ space.now subs.old outbox.old.items loads s → n ≡ length (plain_react (grammar_of g.now.grammar) s (Asks r.now from)).sent) }
    ensures site { OnOk result ((s : P.Site) → Shows ⟦<F as Facts>⟧ space.now subs.old outbox.old.items loads s →
        Shows ⟦<F as Facts>⟧ space.now subs.new outbox.new.items loads (plain_react (grammar_of g.now.grammar) s (Asks r.now from)).site) }
    ensures copy { OnOk result ((s : P.Site) → Shows ⟦<F as Facts>⟧ space.now subs.old outbox.old.items loads s →
        list_map (message_of (grammar_of g.now.grammar)) copy.new.items
        ≡ list_map (message_of (grammar_of g.now.grammar)) copy.old.items ++ (plain_react (grammar_of g.now.grammar) s (Asks r.now from)).sent) }
    ensures err { OnErr result ((s : P.Site) → Shows ⟦<F as Facts>⟧ space.now subs.old outbox.old.items loads s → Shows ⟦<F as Facts>⟧ space.now subs.new outbox.new.items loads s) }
    ensures err_copy { OnErr result (copy.new.items ≡ copy.old.items) }
    ensures short { all_short outbox.old.items ≡ true → all_short outbox.new.items ≡ true }
{
    let alloc = *outbox.allocator();
    let plan = plan_answer(alloc, g, space, loads, r, from)?;
    let before = copy.len();
    let count = plan.sent.len();
    make_room(&plan, subs, outbox, copy)?;
    match subs.watch(r, from) {
        Ok(_) => {
            carry_out(plan, subs, outbox);
            Ok(count)
        }
        Err(refused) => {
            copy.truncate(before);
            Err(refused)
        }
    }
}

/// Copies of the references of a call, if there is one.
fn inherited_by(alloc: Global, call: Option<&Placing>) -> Result<Refs, AllocError>
    ensures { IfOk result (λ rs. (g : T.Grammar) → rs ≡ inherited_by (called_by g (option_copied call.entry))) }
{
    match call {
        Some(placing) => placing.inherited.clone(),
        None => Ok(Refs::new(alloc)),
    }
}

/// What is sent where a call, if there is one, and equations come, all of which are valid.
fn plan_came<'g, F: Facts>(
    alloc: Global,
    g: &Accepted,
    space: &Space<'g, F>,
    subs: &Subs,
    loads: bool,
    call: Option<&Placing>,
    es: &Equations,
) -> Result<Plan, AllocError>
    requires grammar { g.now.grammar ≡ space.now.accepted.now.grammar }
    requires call { MayBeCalledIf (grammar_of g.now.grammar) space.now.role (called_by (grammar_of g.now.grammar) (option_copied call)) }
    requires ok { MayBeLearnt (grammar_of g.now.grammar) space.now.role (list_map equation_of es.now) }
    ensures { IfOk result (λ p. (s : P.Site) → HoldsAs ⟦<F as Facts>⟧ space.now subs.now loads s → IsPlanned (grammar_of g.now.grammar)
        (holding s (called_by (grammar_of g.now.grammar) (option_copied call.entry)) (list_map equation_of es.now))
        (came (grammar_of g.now.grammar) s (called_by (grammar_of g.now.grammar) (option_copied call.entry)) (list_map equation_of es.now)) p) }
{
    let inherited = inherited_by(alloc, call)?;
    let sender = Sender {
        alloc,
        grammar: g.grammar(),
        role: space.role(),
        loads,
        facts: space.facts(),
        more: es.as_slice(),
    };
    sender.plan_came(subs, inherited.as_slice(), es.as_slice())
}

/// What is sent where a call, if there is one, and equations come, all of which are valid; the memory for it is taken, and its messages are
/// added to a copy. An error leaves the copy as it was, too.
fn plan_with_room<'g, F: Facts>(
    g: &Accepted,
    space: &Space<'g, F>,
    subs: &mut Subs,
    outbox: &mut Vec<Message>,
    loads: bool,
    call: Option<&Placing>,
    es: &Equations,
    copy: &mut Vec<Message>,
) -> Result<Plan, AllocError>
    requires grammar { g.now.grammar ≡ space.now.accepted.now.grammar }
    requires call { MayBeCalledIf (grammar_of g.now.grammar) space.now.role (called_by (grammar_of g.now.grammar) (option_copied call)) }
    requires ok { MayBeLearnt (grammar_of g.now.grammar) space.now.role (list_map equation_of es.now) }
    ensures plan { IfOk result (λ p. (s : P.Site) → HoldsAs ⟦<F as Facts>⟧ space.now subs.old loads s → IsPlanned (grammar_of g.now.grammar)
        (holding s (called_by (grammar_of g.now.grammar) (option_copied call.entry)) (list_map equation_of es.now))
        (came (grammar_of g.now.grammar) s (called_by (grammar_of g.now.grammar) (option_copied call.entry)) (list_map equation_of es.now)) p) }
    ensures outbox { outbox.new.items ≡ outbox.old.items }
    ensures copy { IfOk result (λ p. copy.new.items ≡ copy.old.items ++ p.sent.items) }
    ensures err_copy { OnErr result (copy.new.items ≡ copy.old.items) }
    ensures asked { (asked : RefName → Bool) → ShowsAsked subs.old asked → ShowsAsked subs.new asked }
    ensures watchers { (ws : RefName → ℕ → Bool) → ShowsWatchers subs.old ws → ShowsWatchers subs.new ws }
    ensures room { IfOk result (λ p. vec_len outbox.new + vec_len p.sent ≤ vec_capacity outbox.new) }
    ensures ready { IfOk result (λ p. All (λ x. is_ready subs.new.subs x ≡ true) p.wanted.items) }
    ensures short { IfOk result (λ p. all_short p.sent.items ≡ true) }
{
    let alloc = *outbox.allocator();
    let plan = plan_came(alloc, g, space, subs, loads, call, es)?;
    match make_room(&plan, subs, outbox, copy) {
        Ok(()) => Ok(plan),
        Err(refused) => {
            drop(plan);
            Err(refused)
        }
    }
}

/// Takes in a call, if there is one, and equations, and asks for what is then wanted; how many messages were sent. An error changes
/// nothing.
fn take_in<'g, F: Facts>(
    g: &Accepted,
    space: &mut Space<'g, F>,
    subs: &mut Subs,
    outbox: &mut Vec<Message>,
    loads: bool,
    call: Option<&Placing>,
    es: Equations,
    copy: &mut Vec<Message>,
) -> Result<usize, AllocError>
    requires grammar { g.now.grammar ≡ space.old.accepted.now.grammar }
    requires call { MayBeCalledIf (grammar_of g.now.grammar) space.old.role (called_by (grammar_of g.now.grammar) (option_copied call)) }
    requires ok { MayBeLearnt (grammar_of g.now.grammar) space.old.role (list_map equation_of es) }
    requires free { clash_with (called_by (grammar_of g.now.grammar) (option_copied call)) (list_map equation_of es) (space_seen ⟦<F as Facts>⟧ space.old) ≡ None }
    ensures grammar { space.new.accepted.now.grammar ≡ space.old.accepted.now.grammar }
    ensures role { space.new.role ≡ space.old.role }
    ensures count { IfOk result (λ n. (s : P.Site) → Shows ⟦<F as Facts>⟧ space.old subs.old outbox.old.items loads s →
        n ≡ length (came (grammar_of g.now.grammar) s (called_by (grammar_of g.now.grammar) (option_copied call.entry)) (list_map equation_of es)).sent) }
    ensures site { OnOk result ((s : P.Site) → Shows ⟦<F as Facts>⟧ space.old subs.old outbox.old.items loads s → Shows ⟦<F as Facts>⟧ space.new subs.new outbox.new.items loads
        (came (grammar_of g.now.grammar) s (called_by (grammar_of g.now.grammar) (option_copied call.entry)) (list_map equation_of es)).site) }
    ensures copy { OnOk result ((s : P.Site) → Shows ⟦<F as Facts>⟧ space.old subs.old outbox.old.items loads s →
        list_map (message_of (grammar_of g.now.grammar)) copy.new.items ≡ list_map (message_of (grammar_of g.now.grammar)) copy.old.items
        ++ (came (grammar_of g.now.grammar) s (called_by (grammar_of g.now.grammar) (option_copied call.entry)) (list_map equation_of es)).sent) }
    ensures err { OnErr result ((s : P.Site) → Shows ⟦<F as Facts>⟧ space.old subs.old outbox.old.items loads s → Shows ⟦<F as Facts>⟧ space.new subs.new outbox.new.items loads s) }
    ensures err_copy { OnErr result (copy.new.items ≡ copy.old.items) }
    ensures short { all_short outbox.old.items ≡ true → all_short outbox.new.items ≡ true }
    ensures facts { KeepsFacts (F.map space.old.facts) (F.map space.new.facts) }
    ensures nodes { KeepsNodes (space_seen ⟦<F as Facts>⟧ space.old).held (space_seen ⟦<F as Facts>⟧ space.new).held }
{
    let before = copy.len();
    let plan = match plan_with_room(g, space, subs, outbox, loads, call, &es, copy) {
        Ok(plan) => plan,
        Err(refused) => {
            drop(es);
            return Err(refused);
        }
    };
    match uncounted::take_in(space, g, call, es) {
        Ok(()) => {
            let count = plan.sent.len();
            carry_out(plan, subs, outbox);
            Ok(count)
        }
        Err(refused) => {
            drop(plan);
            copy.truncate(before);
            Err(refused)
        }
    }
}

/// A called node with the references that it inherits.
fn placing_of(node: &Node, inherited: &Refs) -> Result<Placing, AllocError>
    ensures node { IfOk result (λ placing. placing.node ≡ node.now) }
    ensures inherited { IfOk result (λ placing. placing.inherited ≡ inherited.now) }
{
    let node = copy_node(node)?;
    match inherited.clone() {
        Ok(inherited) => Ok(Placing { node, inherited }),
        Err(refused) => {
            drop(node);
            Err(refused)
        }
    }
}

/// Does what a message asks for of which something is new; how many messages were sent. An error changes nothing.
fn react<'g, F: Facts>(
    g: &Accepted,
    space: &mut Space<'g, F>,
    subs: &mut Subs,
    outbox: &mut Vec<Message>,
    loads: bool,
    m: &Message,
    es: Equations,
    copy: &mut Vec<Message>,
) -> Result<usize, AllocError>
    requires grammar { g.now.grammar ≡ space.old.accepted.now.grammar }
    requires carried { (g : T.Grammar) → list_map equation_of es ≡ carried (kind_of g m.now.kind) }
    requires fresh { (s : P.Site) → HoldsAs ⟦<F as Facts>⟧ space.old subs.old loads s → IsFresh (grammar_of g.now.grammar) s (message_of (grammar_of g.now.grammar) m.now) }
    ensures grammar { space.new.accepted.now.grammar ≡ space.old.accepted.now.grammar }
    ensures role { space.new.role ≡ space.old.role }
    ensures count { IfOk result (λ n. (s : P.Site) → Shows ⟦<F as Facts>⟧ space.old subs.old outbox.old.items loads s →
        n ≡ length (plain_react (grammar_of g.now.grammar) s (message_of (grammar_of g.now.grammar) m.now).kind).sent) }
    ensures site { OnOk result ((s : P.Site) → Shows ⟦<F as Facts>⟧ space.old subs.old outbox.old.items loads s → Shows ⟦<F as Facts>⟧ space.new subs.new outbox.new.items loads
        (plain_react (grammar_of g.now.grammar) s (message_of (grammar_of g.now.grammar) m.now).kind).site) }
    ensures copy { OnOk result ((s : P.Site) → Shows ⟦<F as Facts>⟧ space.old subs.old outbox.old.items loads s →
        list_map (message_of (grammar_of g.now.grammar)) copy.new.items ≡ list_map (message_of (grammar_of g.now.grammar)) copy.old.items
        ++ (plain_react (grammar_of g.now.grammar) s (message_of (grammar_of g.now.grammar) m.now).kind).sent) }
    ensures err { OnErr result ((s : P.Site) → Shows ⟦<F as Facts>⟧ space.old subs.old outbox.old.items loads s → Shows ⟦<F as Facts>⟧ space.new subs.new outbox.new.items loads s) }
    ensures err_copy { OnErr result (copy.new.items ≡ copy.old.items) }
    ensures short { all_short outbox.old.items ≡ true → all_short outbox.new.items ≡ true }
    ensures facts { KeepsFacts (F.map space.old.facts) (F.map space.new.facts) }
    ensures nodes { KeepsNodes (space_seen ⟦<F as Facts>⟧ space.old).held (space_seen ⟦<F as Facts>⟧ space.new).held }
{
    match m.kind.get() {
        MsgKind::Call {
            node,
            inherited,
            ..
        } => match placing_of(node, inherited) {
            Ok(placing) => {
                let count = take_in(g, space, subs, outbox, loads, Some(&placing), es, copy);
                drop(placing);
                count
            }
            Err(refused) => {
                drop(es);
                Err(refused)
            }
        },
        MsgKind::Ask { reference, from } => {
            drop(es);
            answer_ask(g, space, subs, outbox, loads, reference, *from, copy)
        }
        MsgKind::Tell { .. } => take_in(g, space, subs, outbox, loads, None, es, copy),
    }
}

/// Answers a message; the messages sent are added to the outbox and to a copy. Only `New` changes anything, and an error changes nothing.
pub fn receive<'g, F: Facts>(
    g: &Accepted,
    space: &mut Space<'g, F>,
    subs: &mut Subs,
    outbox: &mut Vec<Message>,
    loads: bool,
    m: &Message,
    copy: &mut Vec<Message>,
) -> Result<Received, AllocError>
    requires grammar { g.now.grammar ≡ space.old.accepted.now.grammar }
    ensures grammar { space.new.accepted.now.grammar ≡ space.old.accepted.now.grammar }
    ensures role { space.new.role ≡ space.old.role }
    ensures answer { IfOk result (λ r. (s : P.Site) → Shows ⟦<F as Facts>⟧ space.old subs.old outbox.old.items loads s →
        IsReceived r (plain_receive (grammar_of g.now.grammar) s (message_of (grammar_of g.now.grammar) m.now))) }
    ensures site { OnOk result ((s : P.Site) → Shows ⟦<F as Facts>⟧ space.old subs.old outbox.old.items loads s → Shows ⟦<F as Facts>⟧ space.new subs.new outbox.new.items loads
        (after_message s (plain_receive (grammar_of g.now.grammar) s (message_of (grammar_of g.now.grammar) m.now)))) }
    ensures copy { OnOk result ((s : P.Site) → Shows ⟦<F as Facts>⟧ space.old subs.old outbox.old.items loads s →
        list_map (message_of (grammar_of g.now.grammar)) copy.new.items ≡ list_map (message_of (grammar_of g.now.grammar)) copy.old.items
        ++ sent_for (plain_receive (grammar_of g.now.grammar) s (message_of (grammar_of g.now.grammar) m.now))) }
    ensures err { OnErr result ((s : P.Site) → Shows ⟦<F as Facts>⟧ space.old subs.old outbox.old.items loads s → Shows ⟦<F as Facts>⟧ space.new subs.new outbox.new.items loads s) }
    ensures err_copy { OnErr result (copy.new.items ≡ copy.old.items) }
    ensures short { all_short outbox.old.items ≡ true → all_short outbox.new.items ≡ true }
    ensures facts { KeepsFacts (F.map space.old.facts) (F.map space.new.facts) }
    ensures nodes { KeepsNodes (space_seen ⟦<F as Facts>⟧ space.old).held (space_seen ⟦<F as Facts>⟧ space.new).held }
{
    let alloc = *outbox.allocator();
    match look_at(alloc, g, space, subs, m)? {
        Sight::Answered(answer) => Ok(answer),
        Sight::Fresh(es) => {
            let count = react(g, space, subs, outbox, loads, m, es, copy)?;
            Ok(Received::New(count))
        }
    }
}
