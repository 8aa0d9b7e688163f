//! Which tasks are asked for.
ghost use Rattle.std.specs.Prelude.{◌≡◌};
ghost use Rattle.aw_node_list.specs.HeldView.{held_of};
ghost use Rattle.aw_term.specs.Rules.{Grammar};
ghost use Rattle.aw_book_join.specs.Views.{is_of, is_asked};

use aw_name::Node;
use aw_node_list::Held;

/// A case: its start sort, by number from 0, and the number of the case.
#[derive(Clone, Copy, Debug, PartialEq, Eq)]
pub struct Case {
    pub sort: u16,
    pub number: u64,
}

/// Which tasks are asked for: those of one case, or of all; the open ones alone, or the done ones too.
#[derive(Clone, Copy, Debug, PartialEq, Eq)]
pub struct View {
    pub case: Option<Case>,
    pub only_open: bool,
}

/// Whether a node is one of a case, or any is asked for.
pub(crate) fn is_of(case: &Option<Case>, node: &Node) -> bool
    ensures { result ≡ is_of case.now node.now }
{
    match case {
        None => true,
        Some(case) => case.sort == node.start && case.number == node.case,
    }
}

/// Whether a task is asked for.
pub(crate) fn is_asked(view: &View, held: &Held) -> bool
    ensures { (g : Grammar) → result ≡ is_asked view.now (held_of g held.now).node (held_of g held.now).state }
{
    is_of(&view.case, &held.node) && (!view.only_open || held.done.is_none())
}
