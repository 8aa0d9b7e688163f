//! Chasing: from a reference through equations that name another one.
ghost use Rattle.std.specs.Prelude.{◌≡◌, ◌<◌, Some, length, slice_get};
ghost use Rattle.aw_term.specs.Names.{Ref};
ghost use Rattle.aw_store.specs.Equations.{find};
ghost use Rattle.aw_store.specs.Chase.{chase as plain_chase};
ghost use Rattle.aw_store.specs.ChaseView.{IsChasedTo, IsLookAt};

use crate::facts::{Chase, Facts, Kind};

/// One look at a slot.
#[derive(Clone, Copy, Debug, PartialEq, Eq)]
enum Look {
    Missing,
    Found,
    On(usize),
}

fn look_at<F: Facts>(f: &F, at: usize) -> Look
    requires { at < length (F.names f.now) }
    ensures { (r : Ref) → slice_get (F.names f.now) at ≡ Some r → IsLookAt (F.names f.now) (find (F.map f.now) r) result }
{
    match f.kind(at) {
        Kind::Missing => Look::Missing,
        Kind::Same(next) => Look::On(next),
        Kind::Con(_, _) | Kind::Num(_) | Kind::Text => Look::Found,
    }
}

/// Follows equations that name another reference, at most as many times as there are equations. It takes no memory.
pub fn chase<F: Facts>(f: &F, slot: usize) -> Chase
    requires { slot < length (F.names f.now) }
    ensures { (r : Ref) → slice_get (F.names f.now) slot ≡ Some r → IsChasedTo (F.map f.now) (F.names f.now) slot (plain_chase (F.map f.now) r) result }
{
    let mut at = slot;
    for i in 0..f.count() {
        match look_at(f, at) {
            Look::On(next) => at = next,
            Look::Missing => return Chase::Missing(at),
            Look::Found => return Chase::Found(at),
        }
    }
    match look_at(f, at) {
        Look::On(_) => Chase::Circle(slot),
        Look::Missing => Chase::Missing(at),
        Look::Found => Chase::Found(at),
    }
}
