//! What a site sends, and asks for, made before anything of the site changes.
ghost use Rattle.std.specs.Prelude.{◌≡◌, ◌++◌, [], true, IfOk, OnOk, map as list_map};
ghost use Rattle.aw_grammar.specs.GrammarOf.{grammar_of};
ghost use Rattle.aw_store.specs.EquationView.{equation_of};
ghost use Rattle.aw_msg.specs.MessageView.{message_of};
ghost use Rattle.aw_law_sites.specs.Asking.{all_mentions};
ghost use Rattle.aw_law_sites.specs.Sites as P;
ghost use Rattle.aw_law_sites.specs.ValidNames.{refs_ok, equations_ok, call_ok};
ghost use Rattle.aw_site_repeat.specs.Holders.{ShowsAsked, ShowsWatchers};
ghost use Rattle.aw_site.specs.Plans.{wanted_of, asks_for, made_mentions, told};
ghost use Rattle.aw_site.specs.Senders.{SendsAs};
ghost use Rattle.aw_site.specs.Views.{child_call};
ghost use Rattle.aw_term.specs.WellFormed.{Each};

use crate::sender::Sender;
use aw_apply::Made;
use aw_msg::Message;
use aw_name::Ref;
use aw_store::{Equation, Facts};
use aw_subs::Subs;
use std::alloc::AllocError;

/// Messages in the order in which they are sent, and the references that they ask for.
#[derive(Drop)]
pub struct Plan {
    pub sent: Vec<Message>,
    pub wanted: Vec<Ref>,
}

impl<'a, F: Facts> Sender<'a, F> {
    /// What is sent behind these messages: questions for these valid references.
    fn asking(&self, sent: Vec<Message>, wanted: Vec<Ref>) -> Result<Plan, AllocError>
        requires { refs_ok (grammar_of self.now.grammar.now) wanted.items ≡ true }
        ensures wanted { IfOk result (λ p. p.wanted.items ≡ wanted.items) }
        ensures sent { IfOk result (λ p. (s : P.Site) → SendsAs ⟦<F as Facts>⟧ self.now s →
            list_map (message_of (grammar_of self.now.grammar.now)) p.sent.items
            ≡ list_map (message_of (grammar_of self.now.grammar.now)) sent.items ++ asks_for (grammar_of self.now.grammar.now) s p.wanted.items) }
    {
        let mut sent = sent;
        self.push_asks(&mut sent, wanted.as_slice())?;
        Ok(Plan { sent, wanted })
    }

    /// The messages where these valid equations and children were made here, calls of the children of other roles and tells of the
    /// equations that are watched, and the references that are then wanted. There are none of either before; an error may leave some.
    fn put_made(
        &self,
        sent: &mut Vec<Message>,
        wanted: &mut Vec<Ref>,
        subs: &Subs,
        made: &Made,
    ) -> Result<(), AllocError>
        requires none_sent { sent.old.items ≡ [] }
        requires none_wanted { wanted.old.items ≡ [] }
        requires equations { equations_ok (grammar_of self.now.grammar.now) (list_map equation_of made.now.equations) ≡ true }
        requires children { Each (λ child. call_ok (grammar_of self.now.grammar.now) (child_call (grammar_of self.now.grammar.now) child) ≡ true) made.now.children }
        ensures names { OnOk result (refs_ok (grammar_of self.now.grammar.now) wanted.new.items ≡ true) }
        ensures wanted { OnOk result ((s : P.Site) → SendsAs ⟦<F as Facts>⟧ self.now s → ShowsAsked subs.now s.asked →
            wanted.new.items ≡ wanted_of (grammar_of self.now.grammar.now) s (made_mentions (grammar_of self.now.grammar.now) s
            (list_map equation_of made.now.equations) (list_map (child_call (grammar_of self.now.grammar.now)) made.now.children))) }
        ensures sent { OnOk result ((s : P.Site) → SendsAs ⟦<F as Facts>⟧ self.now s → ShowsWatchers subs.now s.watches →
            list_map (message_of (grammar_of self.now.grammar.now)) sent.new.items ≡ told (grammar_of self.now.grammar.now) s (list_map equation_of made.now.equations)
            (list_map (child_call (grammar_of self.now.grammar.now)) made.now.children)) }
    {
        self.push_calls_out(sent, made.children.as_slice())?;
        self.push_tells(sent, subs, made.equations.as_slice())?;
        self.insert_inherited(wanted, subs, made.children.as_slice())?;
        self.insert_mentions(wanted, subs, made.equations.as_slice())?;
        Ok(())
    }

    /// What is sent where these valid equations and children were made here: calls of the children of other roles, tells of the
    /// equations that are watched, and questions. The equations are those that come behind the store.
    pub fn plan_made(&self, subs: &Subs, made: &Made) -> Result<Plan, AllocError>
        requires equations { equations_ok (grammar_of self.now.grammar.now) (list_map equation_of made.now.equations) ≡ true }
        requires children { Each (λ child. call_ok (grammar_of self.now.grammar.now) (child_call (grammar_of self.now.grammar.now) child) ≡ true) made.now.children }
        ensures wanted { IfOk result (λ p. (s : P.Site) → SendsAs ⟦<F as Facts>⟧ self.now s → ShowsAsked subs.now s.asked →
            p.wanted.items ≡ wanted_of (grammar_of self.now.grammar.now) s (made_mentions (grammar_of self.now.grammar.now) s
            (list_map equation_of made.now.equations) (list_map (child_call (grammar_of self.now.grammar.now)) made.now.children))) }
        ensures sent { IfOk result (λ p. (s : P.Site) → SendsAs ⟦<F as Facts>⟧ self.now s → ShowsWatchers subs.now s.watches →
            list_map (message_of (grammar_of self.now.grammar.now)) p.sent.items ≡ told (grammar_of self.now.grammar.now) s (list_map equation_of made.now.equations)
            (list_map (child_call (grammar_of self.now.grammar.now)) made.now.children) ++ asks_for (grammar_of self.now.grammar.now) s p.wanted.items) }
    {
        let mut sent = Vec::new(self.alloc);
        let mut wanted = Vec::new(self.alloc);
        match self.put_made(&mut sent, &mut wanted, subs, made) {
            Ok(()) => self.asking(sent, wanted),
            Err(refused) => {
                drop(sent);
                drop(wanted);
                Err(refused)
            }
        }
    }

    /// What is sent where a node with these valid references and these valid equations came: questions.
    pub fn plan_came(
        &self,
        subs: &Subs,
        inherited: &[Ref],
        es: &[Equation],
    ) -> Result<Plan, AllocError>
        requires inherited { refs_ok (grammar_of self.now.grammar.now) inherited.now ≡ true }
        requires equations { equations_ok (grammar_of self.now.grammar.now) (list_map equation_of es.now) ≡ true }
        ensures wanted { IfOk result (λ p. (s : P.Site) → SendsAs ⟦<F as Facts>⟧ self.now s → ShowsAsked subs.now s.asked →
            p.wanted.items ≡ wanted_of (grammar_of self.now.grammar.now) s (inherited.now ++ all_mentions (list_map equation_of es.now))) }
        ensures sent { IfOk result (λ p. (s : P.Site) → SendsAs ⟦<F as Facts>⟧ self.now s →
            list_map (message_of (grammar_of self.now.grammar.now)) p.sent.items ≡ asks_for (grammar_of self.now.grammar.now) s p.wanted.items) }
    {
        let mut wanted = Vec::new(self.alloc);
        self.insert_mentions(&mut wanted, subs, es)?;
        self.insert_refs(&mut wanted, subs, inherited)?;
        self.asking(Vec::new(self.alloc), wanted)
    }
}
