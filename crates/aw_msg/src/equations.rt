//! Readers of equations and of loads.
ghost use Rattle.aw_codec.specs.Gives.{Gives};
ghost use Rattle.std.specs.Int.{w16, w64};
ghost use Rattle.aw_codec.specs.Names.{reference, references};
ghost use Rattle.aw_codec.specs.Reading.{number, both, seen, times};
ghost use Rattle.aw_codec.specs.Texts.{text};
ghost use Rattle.aw_store.specs.declared.equation.Body.TheVariants.{Same, Con, Num, Text};
ghost use Rattle.aw_msg.specs.Messages as spec;

use aw_codec::items::{position_at, u16_at, u64_at};
use aw_codec::{Unread, ref_at, refs_at, text_at};
use aw_store::{Body, Equation, Equations};
use aw_term::limits::MOST_OF_LOAD;
use std::alloc::Global;

/// The most equations of a load, as a message counts them.
const LOAD: u8 = MOST_OF_LOAD as u8;

/// The kind of a body that is a reference.
pub const SAME_KIND: u8 = 0;

/// The kind of a body that is a constructor with its references.
pub const CON_KIND: u8 = 1;

/// The kind of a body that is a number.
pub const NUM_KIND: u8 = 2;

/// The kind of a body that is a text.
pub const TEXT_KIND: u8 = 3;

/// A body that is a reference.
fn same_at(alloc: Global, bytes: &[u8]) -> Result<(Body, &[u8]), Unread>
    ensures { Gives (λ x. (x.0, x.1.now)) result (seen Same reference bytes.now) }
{
    let (reference, rest) = ref_at(alloc, bytes)?;
    Ok((Body::Same(reference), rest))
}

/// A body that is a constructor with its references.
fn con_at(alloc: Global, bytes: &[u8]) -> Result<(Body, &[u8]), Unread>
    ensures { Gives (λ x. (x.0, x.1.now)) result (seen (λ x. Con x.0 x.1) (both (number w16) references) bytes.now) }
{
    let (con, rest) = u16_at(bytes)?;
    let (parts, rest) = refs_at(alloc, rest)?;
    Ok((Body::Con(con, parts), rest))
}

/// A body that is a number.
fn num_at(bytes: &[u8]) -> Result<(Body, &[u8]), Unread>
    ensures { Gives (λ x. (x.0, x.1.now)) result (seen Num (number w64) bytes.now) }
{
    let (number, rest) = u64_at(bytes)?;
    Ok((Body::Num(number), rest))
}

/// A body that is a text.
fn content_at(alloc: Global, bytes: &[u8]) -> Result<(Body, &[u8]), Unread>
    ensures { Gives (λ x. (x.0, x.1.now)) result (seen Text text bytes.now) }
{
    let (text, rest) = text_at(alloc, bytes)?;
    Ok((Body::Text(text), rest))
}

/// What a reference stands for.
#[tactic(auto, unfolding(crate::specs::Messages::body))]
pub fn body_at(alloc: Global, bytes: &[u8]) -> Result<(Body, &[u8]), Unread>
    ensures { Gives (λ x. (x.0, x.1.now)) result (spec.body bytes.now) }
{
    match bytes {
        [] => Err(Unread::Short),
        [SAME_KIND, rest @ ..] => same_at(alloc, rest),
        [CON_KIND, rest @ ..] => con_at(alloc, rest),
        [NUM_KIND, rest @ ..] => num_at(rest),
        [TEXT_KIND, rest @ ..] => content_at(alloc, rest),
        [_, ..] => Err(Unread::Bad { left: bytes.len() }),
    }
}

/// An equation.
#[tactic(auto, unfolding(crate::specs::Messages::equation))]
pub fn equation_at(alloc: Global, bytes: &[u8]) -> Result<(Equation, &[u8]), Unread>
    ensures { Gives (λ x. (x.0, x.1.now)) result (spec.equation bytes.now) }
{
    let (left, rest) = ref_at(alloc, bytes)?;
    let (body, rest) = body_at(alloc, rest)?;
    Ok((Equation { left, body }, rest))
}

fn some_equations_at(
    alloc: Global,
    count: u8,
    bytes: &[u8],
) -> Result<(Vec<Equation>, &[u8]), Unread>
    ensures { Gives (λ x. (x.0.items, x.1.now)) result (times spec.equation count bytes.now) }
{
    let mut equations = Vec::with_capacity(alloc, usize::from(count))?;
    let mut rest = bytes;
    for _ in 0..count {
        let (equation, behind) = equation_at(alloc, rest)?;
        equations.push(equation)?;
        rest = behind;
    }
    Ok((equations, rest))
}

/// Equations behind their number, at least one.
#[tactic(auto, unfolding(crate::specs::Messages::equations))]
fn equations_at(alloc: Global, bytes: &[u8]) -> Result<(Equations, &[u8]), Unread>
    ensures { Gives (λ x. (x.0, x.1.now)) result (spec.equations bytes.now) }
{
    let (count, rest) = position_at(LOAD, bytes)?;
    let (equations, rest) = some_equations_at(alloc, count, rest)?;
    Ok((Equations::from_vec(equations), rest))
}

/// The load, where the message has one.
#[tactic(auto, unfolding(crate::specs::Messages::load))]
pub fn load_at(alloc: Global, loaded: bool, bytes: &[u8]) -> Result<(Equations, &[u8]), Unread>
    ensures { Gives (λ x. (x.0, x.1.now)) result (spec.load loaded bytes.now) }
{
    if loaded {
        equations_at(alloc, bytes)
    } else {
        Ok((Equations::new(alloc), bytes))
    }
}
