//! Sixteen bytes at once: how many of them at the front are of one class.
ghost use Rattle.std.specs.Prelude.{◌≡◌, ◌≤◌, ◌+◌, length, take, drop};
ghost use Rattle.std.specs.List.{prefix_len};
ghost use Rattle.aw_spelling.specs.Spelling.{is_name_byte, stands_for_itself};
ghost use Rattle.aw_spelling.specs.Pieces.{first_set};

use std::simd::prelude::*;

/// How many bytes are looked at at once.
pub(crate) const LANES: usize = 16;

/// The place of the lowest bit that is set, or 16 where none is.
fn first_set(mask: u64) -> usize
    ensures { result ≡ first_set mask }
{
    if mask == 0 {
        LANES
    } else {
        mask.trailing_zeros() as usize
    }
}

/// How many of the sixteen bytes from a place on stand for themselves between quotes, before the first that does not.
pub(crate) fn plain_lanes(bytes: &[u8], at: usize) -> usize
    requires { at + 16 ≤ length bytes.now }
    ensures { result ≡ prefix_len stands_for_itself (take 16 (drop at bytes.now)) }
{
    let v = u8x16::from_slice(&bytes[at..]);
    let stops = v.simd_lt(u8x16::splat(b' '))
        | v.simd_eq(u8x16::splat(b'"'))
        | v.simd_eq(u8x16::splat(b'\\'))
        | v.simd_eq(u8x16::splat(127));
    first_set(stops.to_bitmask())
}

/// How many of the sixteen bytes from a place on may stand in a name, before the first that may not.
pub(crate) fn name_lanes(bytes: &[u8], at: usize) -> usize
    requires { at + 16 ≤ length bytes.now }
    ensures { result ≡ prefix_len is_name_byte (take 16 (drop at bytes.now)) }
{
    let v = u8x16::from_slice(&bytes[at..]);
    let from_a = v - u8x16::splat(b'a');
    let from_zero = v - u8x16::splat(b'0');
    let stops = from_a.simd_ge(u8x16::splat(26))
        & from_zero.simd_ge(u8x16::splat(10))
        & v.simd_ne(u8x16::splat(b'_'));
    first_set(stops.to_bitmask())
}
