//! Choices as bytes.
ghost use Rattle.aw_choice.specs.ChoiceView.{choice_of};
ghost use Rattle.aw_codec.specs.Gives.{Gives};
ghost use Rattle.aw_codec.specs.Choices.{choice, spelled_choice};
ghost use Rattle.aw_codec.specs.Ranges.{ChoiceSized, ChoiceInRange};
ghost use Rattle.aw_codec.specs.Placed.{placed, Decodes, Finds, IsFound};

use crate::fault::{MsgFault, fault_at};
use crate::grounds::arguments_at;
use crate::items::{u16_at, u64_at};
use crate::names::node_at;
use crate::unread::Unread;
use aw_choice::Choice;
use std::alloc::Global;

/// A choice.
#[tactic(auto, unfolding(crate::specs::Choices::choice))]
pub fn choice_at(alloc: Global, bytes: &[u8]) -> Result<(Choice, &[u8]), Unread>
    ensures { Gives (λ x. (choice_of x.0, x.1.now)) result (choice bytes.now) }
{
    match bytes {
        [] => Err(Unread::Short),
        [0, rest @ ..] => {
            let (sort, rest) = u16_at(rest)?;
            let (case, rest) = u64_at(rest)?;
            Ok((Choice::Start { sort, case }, rest))
        }
        [1, rest @ ..] => {
            let (node, rest) = node_at(alloc, rest)?;
            let (rule, rest) = u16_at(rest)?;
            let (args, rest) = arguments_at(alloc, rest)?;
            Ok((Choice::Develop { node, rule, args }, rest))
        }
        [_, ..] => Err(Unread::Bad { left: bytes.len() }),
    }
}

fn placed_choice(alloc: Global, bytes: &[u8]) -> Result<(Choice, usize), MsgFault>
    ensures { Decodes choice_of result (placed bytes.now (choice bytes.now)) }
{
    match choice_at(alloc, bytes) {
        Ok((choice, rest)) => Ok((choice, bytes.len().saturating_sub(rest.len()))),
        Err(unread) => Err(fault_at(bytes.len(), unread)),
    }
}

/// The choice at the front of some bytes, and how many bytes it has. `Short` where fewer bytes are left than the next item has,
/// `Bad` where an item breaks its rule, with the place of its first byte.
pub fn decode_choice(alloc: Global, bytes: &[u8]) -> Result<(Choice, usize), MsgFault>
    // What is read is spelled so.
    ensures found { Finds choice_of spelled_choice ChoiceInRange bytes.now result }
    // What is spelled so is read, unless memory runs out.
    ensures only { IsFound choice_of spelled_choice ChoiceSized ChoiceInRange bytes.now result }
    // Which fault it is.
    ensures exact { Decodes choice_of result (placed bytes.now (choice bytes.now)) }
{
    placed_choice(alloc, bytes)
}
