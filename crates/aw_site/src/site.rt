//! The workspace of one role.
ghost use Rattle.std.specs.Prelude.{◌≡◌, ◌++◌, [], true, IfOk, OnOk, OnErr, length, map as list_map};
ghost use Rattle.aw_choice.specs.ChoiceView.{choice_of, answer_of};
ghost use Rattle.aw_grammar.specs.GrammarOf.{grammar_of};
ghost use Rattle.aw_base.specs.ChoiceFits.{choice_ok};
ghost use Rattle.aw_msg.specs.MessageView.{message_of};
ghost use Rattle.aw_law_sites.specs.Worlds.{node_of};
ghost use Rattle.aw_space.specs.Keeping.{KeepsFacts, KeepsNodes, KeepsNodesBut};
ghost use Rattle.aw_space.specs.Spaces.{is_home};
ghost use Rattle.aw_subs.specs.Noted.{asked_in, watches_in};
ghost use Rattle.aw_site.specs.Notes.{AsksValid, WatchedValid};
ghost use Rattle.aw_site.specs.Sendable.{all_sendable, all_short};

use crate::received::Received;
use crate::{choosing, receiving, uncounted};
use aw_accept::Accepted;
use aw_choice::{Answer, Choice, Worklist};
use aw_msg::{Message, Messages};
use aw_space::Space;
use aw_store::Facts;
use aw_subs::Subs;
use std::alloc::{AllocError, Global};

/// What the workspace of one role holds, what it asked for and who asked it, and all messages that it sent.
#[derive(Drop)]
pub struct Site<'g, F: Facts> {
    pub(crate) space: Space<'g, F>,
    pub(crate) subs: Subs,
    pub(crate) outbox: Vec<Message>,
    pub(crate) loads: bool,
    pub ghost sendable: { all_sendable (grammar_of space.accepted.now.grammar) (list_map (message_of (grammar_of space.accepted.now.grammar)) outbox.items) ≡ true },
    pub ghost short: { all_short outbox.items ≡ true },
    pub ghost asked: { AsksValid (grammar_of space.accepted.now.grammar) (asked_in subs) },
    pub ghost watched: { WatchedValid (grammar_of space.accepted.now.grammar) (watches_in subs) },
}

impl<'g, F: Facts> Site<'g, F> {
    ghost use Rattle.aw_law_sites.specs.Choosing.{answer_to};
    ghost use Rattle.aw_law_sites.specs.SiteEvents.{after_choice, after_message};
    ghost use Rattle.aw_choice.specs.ChoiceView.{item_of};
    ghost use Rattle.aw_law_sites.specs.Sites.{empty_site};
    ghost use Rattle.aw_msg.specs.Messages.{MessageInRange};
    ghost use Rattle.aw_term.specs.WellFormed.{Each};
    ghost use Rattle.aw_site.specs.Answers.{sent_by, sent_for, IsReceived};
    ghost use Rattle.aw_site.specs.Seen.{choice_at, map_in, message_at, nodes_in, role_in, site_seen, worklist_at};

    /// A site of a role that holds nothing, over a store without equations. Its messages carry loads, or none does.
    pub fn new(alloc: Global, g: &'g Accepted, role: u16, facts: F, loads: bool) -> Site<'g, F>
        requires { F.map facts ≡ [] }
        ensures grammar { result.space.accepted.now.grammar ≡ g.now.grammar }
        ensures role { role_in ⟦<F as Facts>⟧ result ≡ role }
        ensures site { site_seen ⟦<F as Facts>⟧ result ≡ empty_site loads role }
    {
        Site {
            space: Space::new(alloc, g, role, facts),
            subs: Subs::new(alloc),
            outbox: Vec::new(alloc),
            loads,
        }
    }

    /// All messages that it ever sent, in their order. Each has a spelling.
    pub fn outbox(&self) -> &[Message]
        ensures items { result.now ≡ self.now.outbox.items }
        ensures range { Each MessageInRange result.now }
    {
        self.outbox.as_slice()
    }

    /// What it holds.
    pub fn space(&self) -> &Space<'g, F>
        ensures { result.now ≡ self.now.space }
    {
        &self.space
    }

    /// The grammar that it was made for.
    pub fn accepted(&self) -> &'g Accepted
        ensures { result.now ≡ self.now.space.accepted.now }
    {
        self.space.accepted()
    }

    /// Its role.
    pub fn role(&self) -> u16
        ensures { result ≡ role_in ⟦<F as Facts>⟧ self.now }
    {
        self.space.role()
    }

    /// The worklist: each open node in order with each rule of its sort, and how it stands.
    pub fn list(&self, g: &Accepted) -> Result<Worklist, AllocError>
        requires { g.now.grammar ≡ self.now.space.accepted.now.grammar }
        ensures { IfOk result (λ items. list_map item_of items ≡ worklist_at ⟦<F as Facts>⟧ g.now.grammar self.now) }
    {
        uncounted::list(&self.space, g)
    }

    /// Answers a choice; how many messages it sent. Only `Taken` changes the site, and an error does not. The messages are added to
    /// a copy of the outbox, too.
    pub fn choose_into(
        &mut self,
        g: &Accepted,
        choice: &Choice,
        copy: &mut Messages,
    ) -> Result<(Answer, usize), AllocError>
        requires grammar { g.now.grammar ≡ self.old.space.accepted.now.grammar }
        requires ok { choice_ok (grammar_of g.now.grammar) (choice_of choice.now) ≡ true }
        requires here { is_home (grammar_of g.now.grammar) (role_in ⟦<F as Facts>⟧ self.old) (node_of (choice_of choice.now)) ≡ true }
        ensures grammar { self.new.space.accepted.now.grammar ≡ self.old.space.accepted.now.grammar }
        ensures role { role_in ⟦<F as Facts>⟧ self.new ≡ role_in ⟦<F as Facts>⟧ self.old }
        ensures answer { IfOk result (λ r. answer_of r.0 ≡ answer_to (choice_at ⟦<F as Facts>⟧ g.now.grammar self.old choice.now)) }
        ensures count { IfOk result (λ r. r.1 ≡ length (sent_by (choice_at ⟦<F as Facts>⟧ g.now.grammar self.old choice.now))) }
        ensures site { OnOk result (site_seen ⟦<F as Facts>⟧ self.new
            ≡ after_choice (site_seen ⟦<F as Facts>⟧ self.old) (choice_at ⟦<F as Facts>⟧ g.now.grammar self.old choice.now)) }
        ensures copy { OnOk result (list_map (message_of (grammar_of g.now.grammar)) copy.new
            ≡ list_map (message_of (grammar_of g.now.grammar)) copy.old ++ sent_by (choice_at ⟦<F as Facts>⟧ g.now.grammar self.old choice.now)) }
        ensures err { OnErr result (site_seen ⟦<F as Facts>⟧ self.new ≡ site_seen ⟦<F as Facts>⟧ self.old) }
        ensures err_copy { OnErr result (copy.new ≡ copy.old) }
        ensures facts { KeepsFacts (map_in ⟦<F as Facts>⟧ self.old) (map_in ⟦<F as Facts>⟧ self.new) }
        ensures nodes { KeepsNodesBut (node_of (choice_of choice.now)) (nodes_in ⟦<F as Facts>⟧ self.old) (nodes_in ⟦<F as Facts>⟧ self.new) }
    {
        let alloc = copy.allocator();
        let mut messages = std::mem::replace(copy, Messages::new(alloc)).into_vec();
        let answered = choosing::choose(
            g,
            &mut self.space,
            &mut self.subs,
            &mut self.outbox,
            self.loads,
            choice,
            &mut messages,
        );
        *copy = Messages::from_vec(messages);
        answered
    }

    /// Answers a choice; how many messages it sent. Only `Taken` changes the site, and an error does not.
    pub fn choose(&mut self, g: &Accepted, choice: &Choice) -> Result<(Answer, usize), AllocError>
        requires grammar { g.now.grammar ≡ self.old.space.accepted.now.grammar }
        requires ok { choice_ok (grammar_of g.now.grammar) (choice_of choice.now) ≡ true }
        requires here { is_home (grammar_of g.now.grammar) (role_in ⟦<F as Facts>⟧ self.old) (node_of (choice_of choice.now)) ≡ true }
        ensures grammar { self.new.space.accepted.now.grammar ≡ self.old.space.accepted.now.grammar }
        ensures role { role_in ⟦<F as Facts>⟧ self.new ≡ role_in ⟦<F as Facts>⟧ self.old }
        ensures answer { IfOk result (λ r. answer_of r.0 ≡ answer_to (choice_at ⟦<F as Facts>⟧ g.now.grammar self.old choice.now)) }
        ensures count { IfOk result (λ r. r.1 ≡ length (sent_by (choice_at ⟦<F as Facts>⟧ g.now.grammar self.old choice.now))) }
        ensures site { OnOk result (site_seen ⟦<F as Facts>⟧ self.new
            ≡ after_choice (site_seen ⟦<F as Facts>⟧ self.old) (choice_at ⟦<F as Facts>⟧ g.now.grammar self.old choice.now)) }
        ensures err { OnErr result (site_seen ⟦<F as Facts>⟧ self.new ≡ site_seen ⟦<F as Facts>⟧ self.old) }
        ensures facts { KeepsFacts (map_in ⟦<F as Facts>⟧ self.old) (map_in ⟦<F as Facts>⟧ self.new) }
        ensures nodes { KeepsNodesBut (node_of (choice_of choice.now)) (nodes_in ⟦<F as Facts>⟧ self.old) (nodes_in ⟦<F as Facts>⟧ self.new) }
    {
        let mut copy = Messages::new(*self.outbox.allocator());
        self.choose_into(g, choice, &mut copy)
    }

    /// Answers a message. Only `New` changes the site, and an error does not. The messages that it sends are added to a copy of the
    /// outbox, too. Whatever comes, forged or not: equations and nodes stay, and a guard that is decided stays so.
    pub fn receive_into(
        &mut self,
        g: &Accepted,
        m: &Message,
        copy: &mut Messages,
    ) -> Result<Received, AllocError>
        requires { g.now.grammar ≡ self.old.space.accepted.now.grammar }
        ensures grammar { self.new.space.accepted.now.grammar ≡ self.old.space.accepted.now.grammar }
        ensures role { role_in ⟦<F as Facts>⟧ self.new ≡ role_in ⟦<F as Facts>⟧ self.old }
        ensures answer { IfOk result (λ r. IsReceived r (message_at ⟦<F as Facts>⟧ g.now.grammar self.old m.now)) }
        ensures site { OnOk result (site_seen ⟦<F as Facts>⟧ self.new
            ≡ after_message (site_seen ⟦<F as Facts>⟧ self.old) (message_at ⟦<F as Facts>⟧ g.now.grammar self.old m.now)) }
        ensures copy { OnOk result (list_map (message_of (grammar_of g.now.grammar)) copy.new
            ≡ list_map (message_of (grammar_of g.now.grammar)) copy.old ++ sent_for (message_at ⟦<F as Facts>⟧ g.now.grammar self.old m.now)) }
        ensures err { OnErr result (site_seen ⟦<F as Facts>⟧ self.new ≡ site_seen ⟦<F as Facts>⟧ self.old) }
        ensures err_copy { OnErr result (copy.new ≡ copy.old) }
        ensures facts { KeepsFacts (map_in ⟦<F as Facts>⟧ self.old) (map_in ⟦<F as Facts>⟧ self.new) }
        ensures nodes { KeepsNodes (nodes_in ⟦<F as Facts>⟧ self.old) (nodes_in ⟦<F as Facts>⟧ self.new) }
    {
        let alloc = copy.allocator();
        let mut messages = std::mem::replace(copy, Messages::new(alloc)).into_vec();
        let received = receiving::receive(
            g,
            &mut self.space,
            &mut self.subs,
            &mut self.outbox,
            self.loads,
            m,
            &mut messages,
        );
        *copy = Messages::from_vec(messages);
        received
    }

    /// Answers a message. Only `New` changes the site, and an error does not. Whatever comes, forged or not: equations and nodes stay,
    /// and a guard that is decided stays so.
    pub fn receive(&mut self, g: &Accepted, m: &Message) -> Result<Received, AllocError>
        requires { g.now.grammar ≡ self.old.space.accepted.now.grammar }
        ensures grammar { self.new.space.accepted.now.grammar ≡ self.old.space.accepted.now.grammar }
        ensures role { role_in ⟦<F as Facts>⟧ self.new ≡ role_in ⟦<F as Facts>⟧ self.old }
        ensures answer { IfOk result (λ r. IsReceived r (message_at ⟦<F as Facts>⟧ g.now.grammar self.old m.now)) }
        ensures site { OnOk result (site_seen ⟦<F as Facts>⟧ self.new
            ≡ after_message (site_seen ⟦<F as Facts>⟧ self.old) (message_at ⟦<F as Facts>⟧ g.now.grammar self.old m.now)) }
        ensures err { OnErr result (site_seen ⟦<F as Facts>⟧ self.new ≡ site_seen ⟦<F as Facts>⟧ self.old) }
        ensures facts { KeepsFacts (map_in ⟦<F as Facts>⟧ self.old) (map_in ⟦<F as Facts>⟧ self.new) }
        ensures nodes { KeepsNodes (nodes_in ⟦<F as Facts>⟧ self.old) (nodes_in ⟦<F as Facts>⟧ self.new) }
    {
        let mut copy = Messages::new(*self.outbox.allocator());
        self.receive_into(g, m, &mut copy)
    }
}
