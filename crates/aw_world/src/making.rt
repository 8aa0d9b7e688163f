//! A world in which nothing happened yet.
ghost use Rattle.std.specs.Prelude.{◌≡◌, IfOk, map as list_map};
ghost use Rattle.aw_grammar.specs.GrammarOf.{grammar_of};
ghost use Rattle.aw_term.specs.Rules.{upto};
ghost use Rattle.aw_law_sites.specs.Sites as P;
ghost use Rattle.aw_law_sites.specs.Worlds as V;
ghost use Rattle.aw_world.specs.Seen.{ArePlaced};

use crate::marks::Marks;
use crate::workspace::{Made, Workspace};
use crate::world::World;
use aw_accept::Accepted;
use aw_msg::Messages;
use std::alloc::{AllocError, Global};

/// A workspace for each role.
fn make_sites<'g, W: Made<'g>>(
    alloc: Global,
    accepted: &'g Accepted,
    loads: bool,
) -> Result<Vec<W>, AllocError>
    ensures placed { IfOk result (λ ws. ArePlaced ⟦<W as Workspace>⟧ accepted.now.grammar ws.items) }
    ensures shown { IfOk result (λ ws. list_map (λ w. W.seen w) ws.items ≡ list_map (P.empty_site loads) (upto 0 (grammar_of accepted.now.grammar).roles)) }
{
    let mut sites = Vec::new(alloc);
    let count = accepted.grammar().roles.len();
    for role in 0..count {
        sites.push(W::make(alloc, accepted, role as u16, loads)?)?;
    }
    Ok(sites)
}

impl<'g, W: Made<'g>> World<'g, W> {
    ghost use Rattle.aw_world.specs.Shown.{Shows};

    /// No site holds anything, and no message was sent.
    pub fn new(
        alloc: Global,
        accepted: &'g Accepted,
        loads: bool,
    ) -> Result<World<'g, W>, AllocError>
        ensures accepted { IfOk result (λ w. w.accepted.now ≡ accepted.now) }
        ensures loads { IfOk result (λ w. w.loads ≡ loads) }
        ensures empty { IfOk result (λ w. Shows ⟦<W as Workspace>⟧ w (V.empty_world (grammar_of accepted.now.grammar) loads)) }
    {
        let sites = make_sites(alloc, accepted, loads)?;
        Ok(World {
            accepted,
            loads,
            sites,
            messages: Messages::new(alloc),
            marks: Marks::new(alloc),
            taken: Vec::new(alloc),
        })
    }
}
