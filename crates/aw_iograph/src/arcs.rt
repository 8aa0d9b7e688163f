//! The steps within a rule as arcs between the places of its occurrences.
ghost use Rattle.std.specs.Prelude.{◌≡◌, ◌+◌, ◌/◌, ◌%◌, ◌<◌};
ghost use Rattle.aw_iograph.specs.Occurrences.{place_of};
ghost use Rattle.aw_iograph.specs.Arcs.{arc_of, call_arc};

use crate::io::RESULTS;
use crate::occ::{Flow, Occ};
use crate::rows::{Arc, CHILD_PLACES};

impl Occ {
    /// Its place in the order of occurrences, from 0.
    pub(crate) fn place(&self) -> usize
        ensures { result ≡ place_of self.now }
    {
        let half = if self.result { RESULTS } else { 0 };
        usize::from(self.child) * CHILD_PLACES + (half + usize::from(self.number).saturating_sub(1))
    }
}

/// The arc of a flow.
pub(crate) fn arc(flow: &Flow) -> Arc
    ensures { result ≡ arc_of flow.now }
{
    Arc {
        from: flow.from.place(),
        to: flow.to.place(),
    }
}

/// The arc of a pair at a child, by the number of the pair from 0.
pub(crate) fn call(child: u8, pair: usize) -> Arc
    requires { pair < 64 }
    ensures { result ≡ call_arc child (pair / 8 + 1) (pair % 8 + 1) }
{
    let first = usize::from(child) * CHILD_PLACES;
    let from = first + pair / RESULTS;
    let to = first + RESULTS + pair % RESULTS;
    Arc { from, to }
}
