//! Whether a reference has an equation in a store.
ghost use Rattle.std.specs.Prelude.{◌≡◌, is_some};
ghost use Rattle.aw_store.specs.Equations.{find};

use aw_name::Ref;
use aw_store::{Facts, Kind};

/// Whether a reference has an equation in a store. It takes no memory.
pub fn has_equation<F: Facts>(facts: &F, r: &Ref) -> bool
    ensures { result ≡ is_some (find (F.map facts.now) r.now) }
{
    match facts.slot_of(r) {
        Some(slot) => match facts.kind(slot) {
            Kind::Missing => false,
            Kind::Same(_) | Kind::Con(_, _) | Kind::Num(_) | Kind::Text => true,
        },
        None => false,
    }
}
