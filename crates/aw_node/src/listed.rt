//! A site that keeps its worklist while nothing changes.
ghost use Rattle.std.specs.Prelude.{◌≡◌, IfOk, map as list_map};
ghost use Rattle.aw_choice.specs.ChoiceView.{item_of};
ghost use Rattle.aw_site.specs.Seen.{worklist_at, IsShown};
ghost use Rattle.aw_node.specs.Listed.{IsListed, IsListed-prop};

use crate::sites::item_at;
use crate::workspace::NodeWorkspace;
use aw_accept::Accepted;
use aw_choice::{Answer, Choice, Worklist};
use aw_msg::{Answered, Message};
use aw_site::Site;
use aw_store::Facts;
use std::alloc::AllocError;

/// A site, with its worklist where that was asked for since the last choice or message. So all places of a worklist are told in the time
/// in which it is made once.
#[derive(Drop)]
pub struct ListedSite<'g, F: Facts> {
    site: Site<'g, F>,
    items: Option<Worklist>,
    ghost listed: { IsListed ⟦<F as Facts>⟧ site items } by { IsListed-prop ⟦<F as Facts>⟧ site items },
}

impl<'g, F: Facts> ListedSite<'g, F> {
    /// The site, of which no worklist is kept yet. It takes no memory.
    pub fn new(site: Site<'g, F>) -> ListedSite<'g, F>
        ensures site { result.site ≡ site.entry }
    {
        ListedSite { site, items: None }
    }

    /// The worklist, which is made where none is kept. It is kept no longer.
    fn take_items(&mut self, g: &Accepted) -> Result<Worklist, AllocError>
        requires { g.now.grammar ≡ self.old.site.space.accepted.now.grammar }
        ensures site { self.new.site ≡ self.old.site }
        ensures items { IfOk result (λ items. list_map item_of items ≡ worklist_at ⟦<F as Facts>⟧ g.now.grammar self.old.site) }
    {
        match self.items.take() {
            Some(items) => Ok(items),
            None => self.site.list(g),
        }
    }
}

impl<'g, F: Facts> NodeWorkspace for ListedSite<'g, F> {
    ghost shows = { λ w s. IsShown ⟦<F as Facts>⟧ w.site s };

    ghost grammar = { λ w. w.site.space.accepted.now.grammar };

    fn role(&self) -> u16 {
        self.site.role()
    }

    fn choose(&mut self, g: &Accepted, c: &Choice) -> Result<Answer, AllocError> {
        self.items = None;
        NodeWorkspace::choose(&mut self.site, g, c)
    }

    fn receive(&mut self, g: &Accepted, m: &Message) -> Result<Answered, AllocError> {
        self.items = None;
        NodeWorkspace::receive(&mut self.site, g, m)
    }

    fn pull(&self, g: &Accepted, place: u64) -> Result<Answered, AllocError> {
        self.site.pull(g, place)
    }

    fn list(&mut self, g: &Accepted, place: u64) -> Result<Answered, AllocError> {
        let items = self.take_items(g)?;
        let answered = item_at(&items, place);
        self.items = Some(items);
        answered
    }
}
