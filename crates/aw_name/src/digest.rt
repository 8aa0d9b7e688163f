//! The digest of a row of steps, by which a name is hashed at once.
ghost use Rattle.std.specs.Prelude.{◌≡◌};
ghost use Rattle.aw_name.specs.Digest.{digest_and, digest_with, digest_of};

use crate::node::Step;

/// What a digest is multiplied by before a step is added.
const DIGEST_FACTOR: u64 = 11_400_714_819_323_198_485;

/// The digest where one more number follows.
pub(crate) fn digest_and(digest: u64, number: u64) -> u64
    ensures { result ≡ digest_and digest number }
{
    digest.wrapping_mul(DIGEST_FACTOR).wrapping_add(number)
}

/// The digest where one more step follows.
fn digest_with(digest: u64, step: Step) -> u64
    ensures { result ≡ digest_with digest step }
{
    digest_and(digest, u64::from(step.rule) * 256 + u64::from(step.child))
}

/// The digest of steps.
pub(crate) fn digest_of(steps: &[Step]) -> u64
    ensures { result ≡ digest_of steps.now }
{
    let mut digest = 0;
    for step in steps {
        digest = digest_with(digest, *step);
    }
    digest
}
