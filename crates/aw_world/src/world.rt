//! A world.
ghost use Rattle.std.specs.Prelude.{◌≡◌, ◌≤◌, ◌<◌, IfOk, OnErr, length, map as list_map};
ghost use Rattle.aw_grammar.specs.GrammarOf.{grammar_of};
ghost use Rattle.aw_law_sites.specs.Worlds as V;
ghost use Rattle.aw_law_sites.specs.Worlds.{count_set, count_open, MayCome};
ghost use Rattle.aw_world.specs.Marks.{marks};
ghost use Rattle.aw_choice.specs.ChoiceView.{choice_of};
ghost use Rattle.aw_law_sites.specs.Bounds.{bound_of};
ghost use Rattle.aw_world.specs.Staying.{KeepsSites, IsConfigured};
ghost use Rattle.aw_world.specs.MoveView.{move_of};
ghost use Rattle.aw_world.specs.Marked.{MovesTo, StaysSeen};
ghost use Rattle.aw_world.specs.Seen.{ArePlaced, AreAddressed, IsReached};

use crate::choosing::choose;
use crate::delivering::deliver;
use crate::marks::Marks;
use crate::moves::{Move, Reply};
use crate::workspace::Workspace;
use aw_accept::Accepted;
use aw_choice::Choice;
use aw_list::Counted;
use aw_msg::{Message, Messages};
use std::alloc::{AllocError, Global};

/// One workspace for each role, all messages that were ever sent, which of them were delivered, and the choices that were
/// taken. It is what some choices and deliveries lead to.
#[derive(Drop)]
pub struct World<'g, W: Workspace> {
    pub(crate) accepted: &'g Accepted,
    pub(crate) loads: bool,
    pub(crate) sites: Vec<W>,
    pub(crate) messages: Messages,
    pub(crate) marks: Marks,
    pub(crate) taken: Vec<Counted<Choice>>,
    pub ghost placed: { ArePlaced ⟦<W as Workspace>⟧ accepted.now.grammar sites.items },
    pub ghost marked: { length marks.delivered.items ≤ length messages },
    pub ghost reached: { ∥ IsReached ⟦<W as Workspace>⟧ accepted.now.grammar loads sites.items messages marks.delivered.items taken.items ∥₁ },
}

/// One event.
fn step<W: Workspace>(
    accepted: &Accepted,
    sites: &mut Vec<W>,
    messages: &mut Messages,
    marks: &mut Marks,
    taken: &mut Vec<Counted<Choice>>,
    event: Move,
) -> Result<Reply, AllocError>
    requires placed { ArePlaced ⟦<W as Workspace>⟧ accepted.now.grammar sites.old.items }
    requires addressed { AreAddressed sites.old.items messages.old }
    requires marked { length marks.old.delivered.items ≤ length messages.old }
    requires may_come { MayCome (grammar_of accepted.now.grammar) (move_of event) }
    ensures placed { ArePlaced ⟦<W as Workspace>⟧ accepted.now.grammar sites.new.items }
    ensures marked { length marks.new.delivered.items ≤ length messages.new }
    ensures steps { IfOk result (λ r. MovesTo ⟦<W as Workspace>⟧ accepted.now sites.old.items messages.old marks.old taken.old.items sites.new.items messages.new marks.new taken.new.items event r) }
    ensures err { OnErr result (StaysSeen ⟦<W as Workspace>⟧ accepted.now sites.old.items messages.old marks.old taken.old.items sites.new.items messages.new marks.new taken.new.items) }
{
    match event {
        Move::Choose(choice) => {
            let answer = choose(accepted, sites, messages, taken, choice)?;
            Ok(Reply::Choice(answer))
        }
        Move::Deliver(number) => deliver(accepted, sites, messages, marks, number),
    }
}

impl<'g, W: Workspace> World<'g, W> {
    ghost use Rattle.aw_world.specs.Shown.{Shows, ShowsMove};
    ghost use Rattle.aw_world.specs.Together.{FitsTogether};

    /// All messages that were ever sent, by number.
    pub fn messages(&self) -> &[Message]
        ensures { result.now ≡ self.now.messages }
    {
        self.messages.as_slice()
    }

    /// The first message that was never delivered.
    pub fn quiet(&self) -> Option<u64>
        ensures { result ≡ V.first_false 0 (marks self.now.messages self.now.marks.delivered.items) }
    {
        if self.marks.first < self.messages.len() {
            Some(self.marks.first as u64)
        } else {
            None
        }
    }

    /// How many messages were never delivered.
    pub fn undelivered(&self) -> u64
        ensures { result ≡ count_open (marks self.now.messages self.now.marks.delivered.items) }
    {
        (self.messages.len() - self.marks.count) as u64
    }

    /// How many messages were delivered.
    pub fn delivered(&self) -> u64
        ensures { result ≡ count_set self.now.marks.delivered.items }
    {
        self.marks.count as u64
    }

    /// The grammar of the world.
    pub fn accepted(&self) -> &'g Accepted
        ensures { result.now ≡ self.now.accepted.now }
    {
        self.accepted
    }

    /// Where the world takes its memory from.
    pub fn allocator(&self) -> Global {
        *self.taken.allocator()
    }

    /// Makes a choice at the home of its node, or delivers a message to the role that it is for. An error changes nothing.
    pub fn step(&mut self, event: Move) -> Result<Reply, AllocError>
        requires { MayCome (grammar_of self.old.accepted.now.grammar) (move_of event) }
        ensures accepted { self.new.accepted.now ≡ self.old.accepted.now }
        ensures loads { self.new.loads ≡ self.old.loads }
        ensures steps { IfOk result (λ r. ShowsMove ⟦<W as Workspace>⟧ self.old self.new (move_of event) r) }
        ensures err { OnErr result ((v : V.World) → Shows ⟦<W as Workspace>⟧ self.old v → Shows ⟦<W as Workspace>⟧ self.new v) }
        ensures keeps { (v : V.World) → Shows ⟦<W as Workspace>⟧ self.old v → KeepsSites v (V.step (grammar_of self.old.accepted.now.grammar) v (move_of event)).world }
        ensures acyclic { ∥ IsConfigured (grammar_of self.new.accepted.now.grammar) (list_map choice_of self.new.taken.items) ∥₁ }
        ensures invariant { ∥ FitsTogether ⟦<W as Workspace>⟧ self.new ∥₁ }
        ensures bound { length self.new.messages ≤ bound_of (grammar_of self.new.accepted.now.grammar) (list_map choice_of self.new.taken.items) }
    {
        step(
            self.accepted,
            &mut self.sites,
            &mut self.messages,
            &mut self.marks,
            &mut self.taken,
            event,
        )
    }
}
