//! Readers of the names of nodes and references.
ghost use Rattle.std.specs.Prelude.{◌≡◌, length, IfOk};
ghost use Rattle.aw_codec.specs.Gives.{Gives};
ghost use Rattle.aw_codec.specs.Reading.{times};
ghost use Rattle.aw_codec.specs.Names as spec;

use crate::items::{count_at, position_at, slot_number_at, u16_at, u64_at};
use crate::unread::Unread;
use aw_name::{Node, Ref, Refs, Slot, Step, Trail};
use aw_term::limits::{MOST_CHILDREN, MOST_NODE_PARTS, MOST_REFERENCES, MOST_RESULTS};
use std::alloc::Global;

/// The most steps of a node, as a message counts them.
const STEPS: u8 = Trail::MOST as u8;

/// The most children of a rule, as a message counts them.
const CHILDREN: u8 = MOST_CHILDREN as u8;

/// The most results of a sort, as a message counts them.
const RESULTS: u16 = MOST_RESULTS as u16;

/// The most references behind one another, as a message counts them.
const REFERENCES: u8 = MOST_REFERENCES as u8;

#[tactic(auto, unfolding(crate::specs::Names::step))]
fn step_at(bytes: &[u8]) -> Result<(Step, &[u8]), Unread>
    ensures { Gives (λ x. (x.0, x.1.now)) result (spec.step bytes.now) }
{
    let (rule, rest) = u16_at(bytes)?;
    let (child, rest) = position_at(CHILDREN, rest)?;
    Ok((Step { rule, child }, rest))
}

fn steps_at(alloc: Global, count: u8, bytes: &[u8]) -> Result<(Vec<Step>, &[u8]), Unread>
    ensures read { Gives (λ x. (x.0.items, x.1.now)) result (times spec.step count bytes.now) }
    ensures count { IfOk result (λ x. length x.0.items ≡ count) }
{
    let mut steps = Vec::new(alloc);
    let mut rest = bytes;
    for _ in 0..count {
        let (step, behind) = step_at(rest)?;
        steps.push(step)?;
        rest = behind;
    }
    Ok((steps, rest))
}

#[tactic(auto, unfolding(crate::specs::Names::trail))]
fn trail_at(alloc: Global, bytes: &[u8]) -> Result<(Trail, &[u8]), Unread>
    ensures { Gives (λ x. (x.0, x.1.now)) result (spec.trail bytes.now) }
{
    let (count, rest) = count_at(STEPS, bytes)?;
    let (steps, rest) = steps_at(alloc, count, rest)?;
    Ok((Trail::from_vec(steps)?, rest))
}

/// The name of a node.
#[tactic(auto, unfolding(crate::specs::Names::node))]
pub fn node_at(alloc: Global, bytes: &[u8]) -> Result<(Node, &[u8]), Unread>
    ensures { Gives (λ x. (x.0, x.1.now)) result (spec.node bytes.now) }
{
    let (start, rest) = u16_at(bytes)?;
    let (case, rest) = u64_at(rest)?;
    let (steps, rest) = trail_at(alloc, rest)?;
    Ok((Node { start, case, steps }, rest))
}

#[tactic(auto, unfolding(crate::specs::Names::slot))]
fn slot_at(bytes: &[u8]) -> Result<(Slot, &[u8]), Unread>
    ensures { Gives (λ x. (x.0, x.1.now)) result (spec.slot bytes.now) }
{
    match bytes {
        [] => Err(Unread::Short),
        [0, rest @ ..] => {
            let (number, rest) = slot_number_at(RESULTS, rest)?;
            Ok((Slot::Result(number), rest))
        }
        [1, rest @ ..] => {
            let (number, rest) = slot_number_at(MOST_NODE_PARTS, rest)?;
            Ok((Slot::Part(number), rest))
        }
        [_, ..] => Err(Unread::Bad { left: bytes.len() }),
    }
}

/// A reference.
#[tactic(auto, unfolding(crate::specs::Names::reference))]
pub fn ref_at(alloc: Global, bytes: &[u8]) -> Result<(Ref, &[u8]), Unread>
    ensures { Gives (λ x. (x.0, x.1.now)) result (spec.reference bytes.now) }
{
    let (node, rest) = node_at(alloc, bytes)?;
    let (slot, rest) = slot_at(rest)?;
    Ok((Ref { node, slot }, rest))
}

fn some_refs_at(alloc: Global, count: u8, bytes: &[u8]) -> Result<(Vec<Ref>, &[u8]), Unread>
    ensures { Gives (λ x. (x.0.items, x.1.now)) result (times spec.reference count bytes.now) }
{
    let mut refs = Vec::new(alloc);
    let mut rest = bytes;
    for _ in 0..count {
        let (reference, behind) = ref_at(alloc, rest)?;
        refs.push(reference)?;
        rest = behind;
    }
    Ok((refs, rest))
}

/// References behind their number.
#[tactic(auto, unfolding(crate::specs::Names::references))]
pub fn refs_at(alloc: Global, bytes: &[u8]) -> Result<(Refs, &[u8]), Unread>
    ensures { Gives (λ x. (x.0, x.1.now)) result (spec.references bytes.now) }
{
    let (count, rest) = count_at(REFERENCES, bytes)?;
    let (refs, rest) = some_refs_at(alloc, count, rest)?;
    Ok((Refs::from_vec(refs)?, rest))
}
