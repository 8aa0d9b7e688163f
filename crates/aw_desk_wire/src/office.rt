//! The site of a role, as a desk.
ghost use Rattle.std.specs.Prelude.{◌≡◌};
ghost use Rattle.aw_grammar.specs.GrammarOf.{grammar_of};
ghost use Rattle.aw_typed.specs.Typing.{IsMadeFor};

use crate::desk::Desk;
use crate::wire::DeskWire;
use aw_cells::CellFacts;
use aw_list::Text;
use aw_msg::{Frame, reply_bytes};
use aw_node::handle;
use aw_site::Site;
use aw_store::Facts;
use aw_typed::Typed;
use std::alloc::{AllocError, Global};

/// The site of a role, with the types by which its choices are judged. The grammar is the one that the site was made with.
#[derive(Drop)]
pub struct Office<'g> {
    alloc: Global,
    typed: &'g Typed,
    site: Site<'g, CellFacts>,
    ghost fits: { IsMadeFor (grammar_of site.space.accepted.now.grammar) typed.now },
}

/// A wire whose sessions are dialed to offices in this process.
pub type SiteWire<'g> = DeskWire<Office<'g>>;

impl<'g> Office<'g> {
    /// The office of a site, where the types were checked for its grammar. It takes no memory.
    pub fn new(alloc: Global, typed: &'g Typed, site: Site<'g, CellFacts>) -> Office<'g>
        requires { IsMadeFor (grammar_of site.space.accepted.now.grammar) typed.now }
        ensures typed { result.typed.now ≡ typed.now }
        ensures site { result.site ≡ site.entry }
    {
        Office { alloc, typed, site }
    }

    /// Its site, as it is behind all that it was asked.
    pub fn site(&self) -> &Site<'g, CellFacts>
        ensures { result.now ≡ self.now.site }
    {
        &self.site
    }
}

impl Desk for Office<'_> {
    ghost use Rattle.aw_desk_wire.specs.Shown.{OfficeAnswers};

    ghost answers = { OfficeAnswers };

    fn reply_to(&mut self, frame: &Frame) -> Result<Text, AllocError> {
        let accepted = self.site.accepted();
        let answered = handle(accepted, self.typed, &mut self.site, frame)?;
        let reply = reply_bytes(self.alloc, accepted.grammar(), &answered);
        drop(answered);
        reply
    }
}
