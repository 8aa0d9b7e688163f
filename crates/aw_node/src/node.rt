//! A workspace with the rules that its frames are answered by.
ghost use Rattle.std.specs.Prelude.{◌≡◌, ⊤};
ghost use Rattle.aw_grammar.specs.GrammarOf.{grammar_of};
ghost use Rattle.aw_typed.specs.Typing.{IsMadeFor};

use crate::handling::handle;
use crate::workspace::NodeWorkspace;
use aw_accept::Accepted;
use aw_list::Text;
use aw_msg::{Frame, reply_bytes};
use aw_session::Handles;
use aw_typed::Typed;
use std::alloc::{AllocError, Global};

/// A workspace of a role, with the grammar and the types that it was made for.
#[derive(Drop)]
pub struct Node<'g, P> {
    alloc: Global,
    accepted: &'g Accepted,
    typed: &'g Typed,
    site: P,
}

impl<'g, P> Node<'g, P> {
    /// The node of a workspace. It takes no memory.
    pub fn new(alloc: Global, accepted: &'g Accepted, typed: &'g Typed, site: P) -> Node<'g, P>
        ensures accepted { result.accepted.now ≡ accepted.now }
        ensures typed { result.typed.now ≡ typed.now }
        ensures site { result.site ≡ site }
    {
        Node {
            alloc,
            accepted,
            typed,
            site,
        }
    }
}

impl<P: NodeWorkspace + Drop> Handles for Node<'_, P> {
    ghost use Rattle.aw_node.specs.TypedNodes.{rules_of, AnswersAs};

    type Fault = AllocError;

    ghost ready = { λ n. (P.grammar n.site ≡ n.accepted.now.grammar) × IsMadeFor (grammar_of n.accepted.now.grammar) n.typed.now };

    ghost answers = { λ n f x m. AnswersAs (rules_of n.accepted.now.grammar n.typed.now) f (P.shows n.site) (P.shows m.site) x × (m.accepted.now ≡ n.accepted.now) × (m.typed.now ≡ n.typed.now) };

    ghost breaks = { λ n f e m. ⊤ };

    fn reply_to(&mut self, frame: &Frame) -> Result<Text, AllocError> {
        let answered = handle(self.accepted, self.typed, &mut self.site, frame)?;
        let reply = reply_bytes(self.alloc, self.accepted.grammar(), &answered);
        drop(answered);
        reply
    }
}
