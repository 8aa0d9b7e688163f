//! Equations for the roles that asked for them.
ghost use Rattle.std.specs.Prelude.{◌≡◌, ◌<◌, ◌++◌, ◌∷◌, [], true, IfOk, OnOk, map as list_map, option_map};
ghost use Rattle.std.specs.Int.{trailing_zeros, w64};
ghost use Rattle.aw_grammar.specs.GrammarOf.{grammar_of};
ghost use Rattle.aw_store.specs.Equations.{find, mentions};
ghost use Rattle.aw_store.specs.EquationView.{body_of, equation_of};
ghost use Rattle.aw_msg.specs.MessageView.{message_of};
ghost use Rattle.aw_law_sites.specs.Loads.{load_of};
ghost use Rattle.aw_law_sites.specs.Sites as P;
ghost use Rattle.aw_law_sites.specs.Telling.{watchers_from, tell, tells, tell_back};
ghost use Rattle.aw_law_sites.specs.ValidNames.{body_ok, equation_ok, equations_ok};
ghost use Rattle.aw_subs.specs.Entries.{has_bit};
ghost use Rattle.aw_site_repeat.specs.Holders.{ShowsWatchers};
ghost use Rattle.aw_site.specs.Senders.{SendsAs};
ghost use Rattle.aw_site.specs.Walks.{listed};

use crate::finding::body_in_both;
use crate::sender::Sender;
use aw_msg::{Message, MsgKind};
use aw_name::{Ref, copy_ref};
use aw_store::{Body, Equation, Equations, Facts, copy_equation};
use aw_subs::Subs;
use std::alloc::AllocError;

/// The first of some roles, of which each has one bit.
fn first_of(roles: u64) -> u16
    requires { 0 < roles }
    ensures first { result ≡ trailing_zeros w64 roles }
    ensures few { result < 64 }
{
    roles.trailing_zeros() as u16
}

impl<'a, F: Facts> Sender<'a, F> {
    /// The load of a valid equation.
    fn load_of_body(&self, left: &Ref, body: &Body) -> Result<Equations, AllocError>
        requires { body_ok (grammar_of self.now.grammar.now) (body_of body.now) ≡ true }
        ensures { IfOk result (λ load. (s : P.Site) → SendsAs ⟦<F as Facts>⟧ self.now s →
            list_map equation_of load ≡ load_of (grammar_of self.now.grammar.now) s (left.now ∷ []) (mentions (body_of body.now))) }
    {
        match body {
            Body::Same(r) => self.load(Some(left), &[copy_ref(r)?]),
            Body::Con(_, parts) => self.load(Some(left), parts.as_slice()),
            Body::Num(_) | Body::Text(_) => self.load(Some(left), &[]),
        }
    }

    /// A valid equation for a role, with its load.
    fn tell(&self, e: &Equation, role: u16) -> Result<Message, AllocError>
        requires { equation_ok (grammar_of self.now.grammar.now) (equation_of e.now) ≡ true }
        ensures { IfOk result (λ m. (s : P.Site) → SendsAs ⟦<F as Facts>⟧ self.now s →
            message_of (grammar_of self.now.grammar.now) m ≡ tell (grammar_of self.now.grammar.now) s (equation_of e.now) role) }
    {
        let load = self.load_of_body(&e.left, &e.body)?;
        let equation = copy_equation(e)?;
        Message::new(self.alloc, role, MsgKind::Tell { equation, load })
    }

    /// Adds a valid equation for each of the roles that watch its left side, in the order of roles.
    fn push_told(
        &self,
        sent: &mut Vec<Message>,
        watchers: u64,
        e: &Equation,
    ) -> Result<(), AllocError>
        requires { equation_ok (grammar_of self.now.grammar.now) (equation_of e.now) ≡ true }
        ensures { OnOk result ((s : P.Site) → SendsAs ⟦<F as Facts>⟧ self.now s →
            list_map (message_of (grammar_of self.now.grammar.now)) sent.new.items ≡ list_map (message_of (grammar_of self.now.grammar.now)) sent.old.items
            ++ list_map (tell (grammar_of self.now.grammar.now) s (equation_of e.now)) (watchers_from 64 0 (has_bit watchers))) }
    {
        let mut rest = watchers;
        'telling: while rest != 0 {
            let role = first_of(rest);
            rest &= !(1u64 << role);
            sent.push(self.tell(e, role)?)?;
        }
        Ok(())
    }

    /// Adds each valid equation for each role that watches its left side.
    pub fn push_tells(
        &self,
        sent: &mut Vec<Message>,
        subs: &Subs,
        es: &[Equation],
    ) -> Result<(), AllocError>
        requires { equations_ok (grammar_of self.now.grammar.now) (list_map equation_of es.now) ≡ true }
        ensures { OnOk result ((s : P.Site) → SendsAs ⟦<F as Facts>⟧ self.now s → ShowsWatchers subs.now s.watches →
            list_map (message_of (grammar_of self.now.grammar.now)) sent.new.items ≡ list_map (message_of (grammar_of self.now.grammar.now)) sent.old.items
            ++ tells (grammar_of self.now.grammar.now) s (list_map equation_of es.now)) }
    {
        for e in es {
            self.push_told(sent, subs.watchers_of(&e.left), e)?;
        }
        Ok(())
    }

    /// The valid equation of a reference and a body for a role, with its load.
    fn tell_body(&self, left: &Ref, body: Body, role: u16) -> Result<Message, AllocError>
        requires { equation_ok (grammar_of self.now.grammar.now) (record { left = left.now; body = body_of body }) ≡ true }
        ensures { IfOk result (λ m. (s : P.Site) → SendsAs ⟦<F as Facts>⟧ self.now s →
            message_of (grammar_of self.now.grammar.now) m ≡ tell (grammar_of self.now.grammar.now) s (record { left = left.now; body = body_of body }) role) }
    {
        match copy_ref(left) {
            Ok(copy) => {
                let e = Equation { left: copy, body };
                let told = self.tell(&e, role);
                drop(e);
                told
            }
            Err(refused) => {
                drop(body);
                Err(refused)
            }
        }
    }

    /// The answer to a question: the equation, where it is here.
    pub fn tell_back(&self, r: &Ref, from: u16) -> Result<Option<Message>, AllocError>
        ensures { IfOk result (λ m. (s : P.Site) → SendsAs ⟦<F as Facts>⟧ self.now s →
            listed (option_map (message_of (grammar_of self.now.grammar.now)) m) ≡ tell_back (grammar_of self.now.grammar.now) s (find s.equations r.now) r.now from) }
    {
        match body_in_both(self.alloc, self.facts, self.more, r)? {
            Some(body) => Ok(Some(self.tell_body(r, body, from)?)),
            None => Ok(None),
        }
    }
}
