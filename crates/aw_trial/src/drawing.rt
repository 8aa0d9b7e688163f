//! Numbers that are drawn one after the other, each from the one before.
ghost use Rattle.std.specs.Prelude.{◌≡◌, ◌<◌};
ghost use Rattle.aw_trial.specs.Draws.{following, drawn, next_below, drew};

use crate::tally::Tally;

/// What a number is multiplied by for the next one.
const FACTOR: u64 = 6_364_136_223_846_793_005;

/// What is added then.
const SUMMAND: u64 = 1_442_695_040_888_963_407;

/// The number that follows.
fn following(seed: u64) -> u64
    ensures { result ≡ following seed }
{
    seed.wrapping_mul(FACTOR).wrapping_add(SUMMAND)
}

/// What a number gives below a bound.
fn drawn(most: u64, seed: u64) -> u64
    requires { 0 < most }
    ensures drawn { result ≡ drawn most seed }
    ensures below { result < most }
{
    (seed >> 33) % most
}

/// Draws a number below a bound.
pub(crate) fn draw(tally: &mut Tally, most: u64) -> u64
    requires { 0 < most }
    ensures next { result ≡ next_below most tally.old }
    ensures drew { tally.new ≡ drew tally.old }
    ensures below { result < most }
{
    tally.seed = following(tally.seed);
    drawn(most, tally.seed)
}
