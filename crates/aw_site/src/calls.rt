//! Calls of children that are of other roles.
ghost use Rattle.std.specs.Prelude.{◌≡◌, ◌++◌, ◌∷◌, [], true, IfOk, OnOk, map as list_map};
ghost use Rattle.aw_grammar.specs.GrammarOf.{grammar_of};
ghost use Rattle.aw_msg.specs.MessageView.{message_of};
ghost use Rattle.aw_law_sites.specs.Sites as P;
ghost use Rattle.aw_law_sites.specs.Telling.{call_out, calls_out};
ghost use Rattle.aw_law_sites.specs.ValidNames.{call_ok};
ghost use Rattle.aw_site.specs.Senders.{SendsAs};
ghost use Rattle.aw_site.specs.Views.{child_call};
ghost use Rattle.aw_term.specs.WellFormed.{Each};

use crate::sender::Sender;
use crate::validity::valid_home;
use aw_apply::MadeChild;
use aw_msg::{Message, MsgKind};
use aw_name::copy_node;
use aw_store::Facts;
use std::alloc::AllocError;

impl<'a, F: Facts> Sender<'a, F> {
    /// A valid child for its home, with its load.
    fn call_out(&self, child: &MadeChild) -> Result<Message, AllocError>
        requires { call_ok (grammar_of self.now.grammar.now) (child_call (grammar_of self.now.grammar.now) child.now) ≡ true }
        ensures { IfOk result (λ m. (s : P.Site) → SendsAs ⟦<F as Facts>⟧ self.now s →
            message_of (grammar_of self.now.grammar.now) m ≡ call_out (grammar_of self.now.grammar.now) s (child_call (grammar_of self.now.grammar.now) child.now)) }
    {
        let load = self.load(None, child.inherited.as_slice())?;
        let to = valid_home(self.grammar, &child.node);
        let kind = MsgKind::Call {
            node: copy_node(&child.node)?,
            inherited: child.inherited.clone()?,
            load,
        };
        Message::new(self.alloc, to, kind)
    }

    /// Adds the call of a valid child, where it is of another role.
    fn push_call_out(&self, sent: &mut Vec<Message>, child: &MadeChild) -> Result<(), AllocError>
        requires { call_ok (grammar_of self.now.grammar.now) (child_call (grammar_of self.now.grammar.now) child.now) ≡ true }
        ensures { OnOk result ((s : P.Site) → SendsAs ⟦<F as Facts>⟧ self.now s →
            list_map (message_of (grammar_of self.now.grammar.now)) sent.new.items ≡ list_map (message_of (grammar_of self.now.grammar.now)) sent.old.items
            ++ calls_out (grammar_of self.now.grammar.now) s (child_call (grammar_of self.now.grammar.now) child.now ∷ [])) }
    {
        if valid_home(self.grammar, &child.node) != self.role {
            sent.push(self.call_out(child)?)?;
        }
        Ok(())
    }

    /// Adds a call for each of these valid children that is of another role, in their order.
    pub fn push_calls_out(
        &self,
        sent: &mut Vec<Message>,
        children: &[MadeChild],
    ) -> Result<(), AllocError>
        requires { Each (λ child. call_ok (grammar_of self.now.grammar.now) (child_call (grammar_of self.now.grammar.now) child) ≡ true) children.now }
        ensures { OnOk result ((s : P.Site) → SendsAs ⟦<F as Facts>⟧ self.now s →
            list_map (message_of (grammar_of self.now.grammar.now)) sent.new.items ≡ list_map (message_of (grammar_of self.now.grammar.now)) sent.old.items
            ++ calls_out (grammar_of self.now.grammar.now) s (list_map (child_call (grammar_of self.now.grammar.now)) children.now)) }
    {
        for child in children {
            self.push_call_out(sent, child)?;
        }
        Ok(())
    }
}
