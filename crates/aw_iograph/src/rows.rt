//! Which inherited values of a rule reach each of its places, joined as rows of bits.
ghost use Rattle.std.specs.Prelude.{◌≡◌, ◌<◌, ◌↔◌, ℕ, length, IsTrue};
ghost use Rattle.aw_iograph.specs.Rows.{HasBit, IsOwn, Joins};

use crate::io::RESULTS;

/// The places of a rule: for its left side and each of 8 children, 8 inherited values and 8 results.
pub(crate) const PLACES: usize = 144;

/// The places of a child, or of the left side: of 8 inherited values, and then of 8 results.
pub(crate) const CHILD_PLACES: usize = 16;

/// A step from a place of a rule to the next one.
#[derive(Debug, Clone, Copy, Drop)]
pub struct Arc {
    pub from: usize,
    pub to: usize,
}

/// Whether a row has a bit.
pub(crate) fn has_bit(row: u128, bit: u8) -> bool
    requires { bit < 128 }
    ensures { IsTrue result ↔ HasBit row bit }
{
    row & (1 << bit) != 0
}

/// The bit of a place, where an inherited value stands there. Results have none.
fn own(place: usize) -> u128
    ensures { (n : ℕ) → HasBit result n ↔ IsOwn place n }
{
    if place < PLACES && place % CHILD_PLACES < RESULTS {
        1 << (place / CHILD_PLACES * RESULTS + place % CHILD_PLACES)
    } else {
        0
    }
}

/// Joins the row of the place where an arc begins, and that place's own bit, into the row of the place where it ends, and says
/// whether that one grew after it had been read.
pub(crate) fn join_row(arc: Arc, rows: &mut Vec<u128>, read: &mut Vec<bool>) -> bool
    requires from_in { arc.from < length rows.old.items }
    requires to_in { arc.to < length rows.old.items }
    requires places { length read.old.items ≡ length rows.old.items }
    ensures { Joins (λ a. a ≡ arc) rows.old.items rows.new.items read.old.items read.new.items result }
{
    read[arc.from] = true;
    let row = rows[arc.to];
    let joined = row | (rows[arc.from] | own(arc.from));
    if joined == row {
        return false;
    }
    rows[arc.to] = joined;
    read[arc.to]
}
