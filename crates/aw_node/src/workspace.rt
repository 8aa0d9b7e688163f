//! What a node asks of its workspace.
ghost use Rattle.std.specs.Prelude.{◌≡◌, true, IfOk, OnOk, OnErr};
ghost use Rattle.aw_base.specs.ChoiceFits.{choice_ok};
ghost use Rattle.aw_choice.specs.ChoiceView.{answer_of, choice_of};
ghost use Rattle.aw_grammar.specs.GrammarOf.{grammar_of};
ghost use Rattle.aw_grammar.specs.declared.grammar.Grammar.{Grammar};
ghost use Rattle.aw_msg.specs.Messages.{MessageInRange};
ghost use Rattle.aw_msg.specs.ReplyRanges.{ReplyInRange};
ghost use Rattle.aw_msg.specs.ResponseView.{response_of};
ghost use Rattle.aw_node.specs.TypedNodes.{RepliesAs, RepliesToPush};
ghost use Rattle.aw_law_nodes.specs.Nodes as N;
ghost use Rattle.aw_law_sites.specs.Choosing.{answer_to, choose};
ghost use Rattle.aw_law_sites.specs.Homes.{home};
ghost use Rattle.aw_law_sites.specs.SiteEvents.{after_choice};
ghost use Rattle.aw_law_sites.specs.Sites.{Site};
ghost use Rattle.aw_law_sites.specs.Worlds.{node_of};

use aw_accept::Accepted;
use aw_choice::{Answer, Choice};
use aw_msg::{Answered, Message};
use std::alloc::AllocError;

/// A workspace that may show several plain sites, and answers as each of them does.
pub trait NodeWorkspace {
    /// The plain sites that it shows.
    ghost shows: { Self → Site → Type 0 };

    /// The grammar that it was made for.
    ghost grammar: { Self → Grammar };

    /// Its role. It takes no memory.
    fn role(&self) -> u16
        ensures { (s : Site) → shows self.now s → result ≡ s.role };

    /// Answers a choice at a node of this role. Only a taken one changes anything.
    fn choose(&mut self, g: &Accepted, c: &Choice) -> Result<Answer, AllocError>
        requires grammar { g.now.grammar ≡ grammar self.old }
        requires fits { choice_ok (grammar_of g.now.grammar) (choice_of c.now) ≡ true }
        requires here { (s : Site) → shows self.old s → home (grammar_of g.now.grammar) (node_of (choice_of c.now)) ≡ s.role }
        ensures grammar { grammar self.new ≡ grammar self.old }
        ensures answer { (s : Site) → shows self.old s → IfOk result (λ a. answer_of a ≡ answer_to (choose (grammar_of g.now.grammar) s (choice_of c.now))) }
        ensures site { (s : Site) → shows self.old s → OnOk result (shows self.new (after_choice s (choose (grammar_of g.now.grammar) s (choice_of c.now)))) }
        ensures err { (s : Site) → shows self.old s → OnErr result (shows self.new s) };

    /// Answers a message. Only what is new changes anything.
    fn receive(&mut self, g: &Accepted, m: &Message) -> Result<Answered, AllocError>
        requires grammar { g.now.grammar ≡ grammar self.old }
        requires range { MessageInRange m.now }
        ensures grammar { grammar self.new ≡ grammar self.old }
        ensures range { IfOk result ReplyInRange }
        ensures answer { IfOk result (λ a. RepliesToPush (grammar_of g.now.grammar) m.now (shows self.old) (shows self.new) (response_of (grammar_of g.now.grammar) a)) }
        ensures err { (s : Site) → shows self.old s → OnErr result (shows self.new s) };

    /// The message at a place of the outbox, from 0, or how many there are.
    fn pull(&self, g: &Accepted, place: u64) -> Result<Answered, AllocError>
        requires grammar { g.now.grammar ≡ grammar self.now }
        ensures range { IfOk result ReplyInRange }
        ensures answer { IfOk result (λ a. RepliesAs (grammar_of g.now.grammar) (N.Pull place) (shows self.now) (shows self.now) (response_of (grammar_of g.now.grammar) a)) };

    /// The item at a place of the worklist, from 0, or how many there are.
    /// Nothing that is shown changes.
    fn list(&mut self, g: &Accepted, place: u64) -> Result<Answered, AllocError>
        requires grammar { g.now.grammar ≡ grammar self.old }
        ensures grammar { grammar self.new ≡ grammar self.old }
        ensures range { IfOk result ReplyInRange }
        ensures answer { IfOk result (λ a. RepliesAs (grammar_of g.now.grammar) (N.Listed place) (shows self.old) (shows self.new) (response_of (grammar_of g.now.grammar) a)) }
        ensures err { (s : Site) → shows self.old s → OnErr result (shows self.new s) };
}
