//! The offices of all roles.
ghost use Rattle.aw_grammar.specs.GrammarOf.{grammar_of};
ghost use Rattle.aw_typed.specs.Typing.{IsMadeFor};

use aw_accept::Accepted;
use aw_cells::CellFacts;
use aw_desk_wire::Office;
use aw_site::Site;
use aw_typed::Typed;
use std::alloc::{AllocError, Global};

/// The office of a role, whose site holds nothing and sends loads.
fn office_of<'g>(alloc: Global, g: &'g Accepted, t: &'g Typed, role: u16) -> Office<'g>
    requires { IsMadeFor (grammar_of g.now.grammar) t.now }
{
    let site = Site::new(alloc, g, role, CellFacts::new(alloc), true);
    Office::new(alloc, t, site)
}

/// The offices of all roles, in order.
pub fn offices_of<'g>(
    alloc: Global,
    g: &'g Accepted,
    t: &'g Typed,
) -> Result<Vec<Office<'g>>, AllocError>
    requires { IsMadeFor (grammar_of g.now.grammar) t.now }
{
    let mut offices = Vec::new(alloc);
    for role in 0..g.grammar().roles.len() {
        offices.push(office_of(alloc, g, t, role as u16))?;
    }
    Ok(offices)
}
