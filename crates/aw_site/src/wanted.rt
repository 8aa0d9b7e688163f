//! References that are asked for: another role's, without an equation here, and not asked for before.
ghost use Rattle.std.specs.Prelude.{◌≡◌, ◌≤◌, ◌++◌, ◌∷◌, [], None, true, false, not, ◌&&◌, is_none, nat_eq, IfOk, IfSome, OnOk, insert, length, map as list_map};
ghost use Rattle.aw_base.specs.ChoiceFits.{ref_ok};
ghost use Rattle.aw_grammar.specs.GrammarOf.{grammar_of};
ghost use Rattle.aw_store.specs.Equations.{find, mentions};
ghost use Rattle.aw_store.specs.EquationView.{body_of, equation_of};
ghost use Rattle.aw_msg.specs.MessageView.{message_of};
ghost use Rattle.aw_law_sites.specs.Asking.{all_mentions, all_inherited, ask_message};
ghost use Rattle.aw_law_sites.specs.Homes.{home};
ghost use Rattle.aw_law_sites.specs.InOrder.{insert_ref};
ghost use Rattle.aw_law_sites.specs.Sites as P;
ghost use Rattle.aw_law_sites.specs.Telling.{calls_in};
ghost use Rattle.aw_law_sites.specs.ValidNames.{body_ok, refs_ok, equations_ok, call_ok};
ghost use Rattle.aw_site_repeat.specs.Holders.{ShowsAsked};
ghost use Rattle.aw_site.specs.Ordered.{AreInOrder};
ghost use Rattle.aw_site.specs.Plans.{asks_for};
ghost use Rattle.aw_site.specs.Senders.{SendsAs};
ghost use Rattle.aw_site.specs.Views.{child_call};
ghost use Rattle.aw_site.specs.Wanting.{PutsWanted};
ghost use Rattle.aw_term.specs.WellFormed.{Each};

use crate::finding::has_equation_in_both;
use crate::sender::Sender;
use crate::validity::valid_home;
use aw_apply::MadeChild;
use aw_msg::{Message, MsgKind};
use aw_name::{Ref, copy_ref};
use aw_store::{Body, Equation, Facts};
use aw_subs::Subs;
use aw_term::order::{is_ref, is_ref_before};
use std::alloc::AllocError;

/// Where a reference goes among references in order; `None` where it stands already.
fn place_of(refs: &[Ref], r: &Ref) -> Option<usize>
    requires { AreInOrder refs.now }
    ensures within { IfSome result (λ at. at ≤ length refs.now) }
    ensures goes { IfSome result (λ at. insert_ref r.now refs.now ≡ insert refs.now at r.now) }
    ensures stands { result ≡ None → insert_ref r.now refs.now ≡ refs.now }
{
    let at = refs.partition_point(|x| is_ref_before(x, r));
    match refs.get(at) {
        Some(x) if is_ref(r, x) => None,
        _ => Some(at),
    }
}

impl<'a, F: Facts> Sender<'a, F> {
    /// Whether a reference has no equation here, and was not asked for.
    fn is_unknown(&self, subs: &Subs, r: &Ref) -> bool
        ensures { (s : P.Site) → SendsAs ⟦<F as Facts>⟧ self.now s → ShowsAsked subs.now s.asked → result ≡ (is_none (find s.equations r.now) && not (s.asked r.now)) }
    {
        !has_equation_in_both(self.facts, self.more, r) && !subs.has_asked(r)
    }

    /// Puts a copy of a valid reference of another role among those in order, where it is wanted and does not stand there already.
    fn insert_other(&self, wanted: &mut Vec<Ref>, subs: &Subs, r: &Ref) -> Result<(), AllocError>
        requires ordered { AreInOrder wanted.old.items }
        requires valid { ref_ok (grammar_of self.now.grammar.now) r.now ≡ true }
        requires other { nat_eq (home (grammar_of self.now.grammar.now) r.now.node) self.now.role ≡ false }
        ensures { OnOk result (PutsWanted ⟦<F as Facts>⟧ self.now subs.now (r.now ∷ []) wanted.old.items wanted.new.items) }
    {
        if let Some(at) = place_of(wanted.as_slice(), r) {
            if self.is_unknown(subs, r) {
                wanted.insert(at, copy_ref(r)?)?;
            }
        }
        Ok(())
    }

    /// Puts a copy of a valid reference among those in order, where it is wanted and does not stand there already.
    fn insert_wanted(&self, wanted: &mut Vec<Ref>, subs: &Subs, r: &Ref) -> Result<(), AllocError>
        requires ordered { AreInOrder wanted.old.items }
        requires valid { ref_ok (grammar_of self.now.grammar.now) r.now ≡ true }
        ensures { OnOk result (PutsWanted ⟦<F as Facts>⟧ self.now subs.now (r.now ∷ []) wanted.old.items wanted.new.items) }
    {
        if self.is_own(r) {
            Ok(())
        } else {
            self.insert_other(wanted, subs, r)
        }
    }

    /// Puts copies of valid references, as far as they are wanted, among those in order, the last one first.
    pub fn insert_refs(
        &self,
        wanted: &mut Vec<Ref>,
        subs: &Subs,
        refs: &[Ref],
    ) -> Result<(), AllocError>
        requires valid { refs_ok (grammar_of self.now.grammar.now) refs.now ≡ true }
        requires ordered { AreInOrder wanted.old.items }
        ensures { OnOk result (PutsWanted ⟦<F as Facts>⟧ self.now subs.now refs.now wanted.old.items wanted.new.items) }
    {
        for i in 0..refs.len() {
            self.insert_wanted(wanted, subs, &refs[refs.len() - 1 - i])?;
        }
        Ok(())
    }

    /// The same of the references of a valid body.
    fn insert_body_refs(
        &self,
        wanted: &mut Vec<Ref>,
        subs: &Subs,
        body: &Body,
    ) -> Result<(), AllocError>
        requires valid { body_ok (grammar_of self.now.grammar.now) (body_of body.now) ≡ true }
        requires ordered { AreInOrder wanted.old.items }
        ensures { OnOk result (PutsWanted ⟦<F as Facts>⟧ self.now subs.now (mentions (body_of body.now)) wanted.old.items wanted.new.items) }
    {
        match body {
            Body::Same(r) => self.insert_wanted(wanted, subs, r),
            Body::Con(_, parts) => self.insert_refs(wanted, subs, parts.as_slice()),
            Body::Num(_) | Body::Text(_) => Ok(()),
        }
    }

    /// The same of the references in the bodies of valid equations.
    pub fn insert_mentions(
        &self,
        wanted: &mut Vec<Ref>,
        subs: &Subs,
        es: &[Equation],
    ) -> Result<(), AllocError>
        requires valid { equations_ok (grammar_of self.now.grammar.now) (list_map equation_of es.now) ≡ true }
        requires ordered { AreInOrder wanted.old.items }
        ensures { OnOk result (PutsWanted ⟦<F as Facts>⟧ self.now subs.now (all_mentions (list_map equation_of es.now)) wanted.old.items wanted.new.items) }
    {
        for i in 0..es.len() {
            let e = &es[es.len() - 1 - i];
            self.insert_body_refs(wanted, subs, &e.body)?;
        }
        Ok(())
    }

    /// The same of what a valid child inherits, where it is of this role.
    fn insert_child_refs(
        &self,
        wanted: &mut Vec<Ref>,
        subs: &Subs,
        child: &MadeChild,
    ) -> Result<(), AllocError>
        requires valid { call_ok (grammar_of self.now.grammar.now) (child_call (grammar_of self.now.grammar.now) child.now) ≡ true }
        requires ordered { AreInOrder wanted.old.items }
        ensures { OnOk result (PutsWanted ⟦<F as Facts>⟧ self.now subs.now
            (all_inherited (calls_in (grammar_of self.now.grammar.now) self.now.role (child_call (grammar_of self.now.grammar.now) child.now ∷ [])))
            wanted.old.items wanted.new.items) }
    {
        if valid_home(self.grammar, &child.node) == self.role {
            self.insert_refs(wanted, subs, child.inherited.as_slice())
        } else {
            Ok(())
        }
    }

    /// The same of what the valid children of this role inherit.
    pub fn insert_inherited(
        &self,
        wanted: &mut Vec<Ref>,
        subs: &Subs,
        children: &[MadeChild],
    ) -> Result<(), AllocError>
        requires valid { Each (λ child. call_ok (grammar_of self.now.grammar.now) (child_call (grammar_of self.now.grammar.now) child) ≡ true) children.now }
        requires ordered { AreInOrder wanted.old.items }
        ensures { OnOk result (PutsWanted ⟦<F as Facts>⟧ self.now subs.now
            (all_inherited (calls_in (grammar_of self.now.grammar.now) self.now.role (list_map (child_call (grammar_of self.now.grammar.now)) children.now)))
            wanted.old.items wanted.new.items) }
    {
        for i in 0..children.len() {
            self.insert_child_refs(wanted, subs, &children[children.len() - 1 - i])?;
        }
        Ok(())
    }

    /// The question for a valid reference.
    fn ask(&self, r: &Ref) -> Result<Message, AllocError>
        requires { ref_ok (grammar_of self.now.grammar.now) r.now ≡ true }
        ensures { IfOk result (λ m. message_of (grammar_of self.now.grammar.now) m ≡ ask_message (grammar_of self.now.grammar.now) self.now.role r.now) }
    {
        let to = valid_home(self.grammar, &r.node);
        let kind = MsgKind::Ask {
            reference: copy_ref(r)?,
            from: self.role,
        };
        Message::new(self.alloc, to, kind)
    }

    /// Adds a question for each of the valid references.
    pub fn push_asks(&self, sent: &mut Vec<Message>, wanted: &[Ref]) -> Result<(), AllocError>
        requires { refs_ok (grammar_of self.now.grammar.now) wanted.now ≡ true }
        ensures { OnOk result ((s : P.Site) → SendsAs ⟦<F as Facts>⟧ self.now s →
            list_map (message_of (grammar_of self.now.grammar.now)) sent.new.items
            ≡ list_map (message_of (grammar_of self.now.grammar.now)) sent.old.items ++ asks_for (grammar_of self.now.grammar.now) s wanted.now) }
    {
        for r in wanted {
            sent.push(self.ask(r)?)?;
        }
        Ok(())
    }
}
