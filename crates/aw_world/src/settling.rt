//! Delivering what is left.
ghost use Rattle.std.specs.Prelude.{◌≡◌, ℕ, None, OnOk, OnErr};
ghost use Rattle.aw_grammar.specs.GrammarOf.{grammar_of};
ghost use Rattle.aw_law_sites.specs.Worlds as V;
ghost use Rattle.aw_world.specs.Marks.{marks};
ghost use Rattle.aw_law_sites.specs.Bounds.{settled};
ghost use Rattle.aw_world.specs.Shown.{Shows};

use crate::moves::Move;
use crate::workspace::Workspace;
use crate::world::World;
use std::alloc::AllocError;

/// Delivers the message with a number.
fn deliver_one<W: Workspace>(world: &mut World<W>, number: u64) -> Result<(), AllocError>
    ensures accepted { world.new.accepted.now ≡ world.old.accepted.now }
    ensures loads { world.new.loads ≡ world.old.loads }
    ensures stepped { OnOk result ((v : V.World) → Shows ⟦<W as Workspace>⟧ world.old v → Shows ⟦<W as Workspace>⟧ world.new (V.deliver (grammar_of world.old.accepted.now.grammar) v number).world) }
    ensures err { OnErr result ((v : V.World) → Shows ⟦<W as Workspace>⟧ world.old v → Shows ⟦<W as Workspace>⟧ world.new v) }
{
    match world.step(Move::Deliver(number)) {
        Ok(_) => Ok(()),
        Err(e) => Err(e),
    }
}

/// Delivers the first message that was not delivered, again and again, until there is none. After an error some of these
/// deliveries were made.
pub fn settle<W: Workspace>(world: &mut World<W>) -> Result<(), AllocError>
    ensures accepted { world.new.accepted.now ≡ world.old.accepted.now }
    ensures loads { world.new.loads ≡ world.old.loads }
    ensures quiet { OnOk result (V.first_false 0 (marks world.new.messages world.new.marks.delivered.items) ≡ None) }
    ensures settled { OnOk result ((v : V.World) → Shows ⟦<W as Workspace>⟧ world.old v → Shows ⟦<W as Workspace>⟧ world.new (settled (grammar_of world.old.accepted.now.grammar) v)) }
    ensures some { OnErr result ((v : V.World) → Shows ⟦<W as Workspace>⟧ world.old v → (n : ℕ) × Shows ⟦<W as Workspace>⟧ world.new (V.settle n (grammar_of world.old.accepted.now.grammar) v)) }
{
    while let Some(number) = world.quiet() {
        deliver_one(world, number)?;
    }
    Ok(())
}
