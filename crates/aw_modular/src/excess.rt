//! The least pair that a role finds of what it offers, and that is not declared.
ghost use Rattle.std.specs.Prelude.{◌≡◌, ◌<◌, ◌↔◌, ◌*◌, IsTrue};
ghost use Rattle.aw_iograph.specs.Pairs.{IsFor, IsNumber, mark_of};
ghost use Rattle.aw_modular.specs.Refusals.{LeastPair};
ghost use Rattle.aw_modular.specs.Exceeding.{IsLoose};

use crate::declaring::is_of;
use crate::part::Part;
use aw_base::Triple;
use aw_face::is_offered;
use aw_iograph::Io;

/// The pair at a place in their order, by sort, inherited value and result.
fn pair_at(place: usize) -> Triple
    requires { place < 4194304 }
    ensures place { mark_of result.sort result.i result.j ≡ place }
    ensures inherited { IsNumber result.i }
    ensures result { IsNumber result.j }
{
    Triple {
        sort: (place / 64) as u16,
        i: (place % 64 / 8 + 1) as u8,
        j: (place % 8 + 1) as u8,
    }
}

/// Whether a pair is of an offered sort of the role, and found though it is not declared.
fn is_loose(part: &Part, all: &Io, found: &Io, pair: Triple) -> bool
    ensures { IsTrue result ↔ IsLoose part.now all.now found.now pair }
{
    let Triple { sort, i, j } = pair;
    found.has(sort, i, j)
        && !all.has(sort, i, j)
        && is_of(&part.grammar, part.role, sort)
        && is_offered(sort, part.faces.offers.as_slice())
}

/// The least such pair, where `all` is what is declared and `found` what is known.
pub(crate) fn first_excess(part: &Part, all: &Io, found: &Io) -> Option<Triple>
    requires { IsFor part.now.grammar found.now }
    ensures { LeastPair (IsLoose part.now all.now found.now) result }
{
    for place in 0..part.grammar.sorts.len() * 64 {
        let pair = pair_at(place);
        if is_loose(part, all, found, pair) {
            return Some(pair);
        }
    }
    None
}
