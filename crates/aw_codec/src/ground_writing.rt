//! Writers of arguments and choices.
ghost use Rattle.std.specs.Prelude.{◌≡◌, ◌≤◌, ◌++◌, IfOk, OnOk, OnErr, flat_map, map};
ghost use Rattle.std.specs.Io.{StartsWith};
ghost use Rattle.aw_term.specs.WellFormed.{Each};
ghost use Rattle.aw_term.specs.Views.{ground_of};
ghost use Rattle.aw_term.specs.Limits.{most_parts};
ghost use Rattle.aw_choice.specs.ChoiceView.{choice_of};
ghost use Rattle.aw_codec.specs.Grounds.{spelled_ground, spelled_grounds};
ghost use Rattle.aw_codec.specs.Choices.{spelled_choice};
ghost use Rattle.aw_codec.specs.Ranges.{HeadsInRange, GroundSized, GroundsSized, GroundsInRange, ChoiceSized, ChoiceInRange};

use crate::writing::{add_byte, add_node, add_text, add_u16, add_u64};
use aw_choice::Choice;
use aw_list::Text;
use aw_term::{Ground, Grounds};
use std::alloc::{AllocError, Global};

fn count_of(number: usize) -> u8
    ensures { number ≤ most_parts → result ≡ number }
{
    number.min(255) as u8
}

/// Adds an argument. After an error what stood in the text still stands at its front.
#[cycle(writing)]
fn add_ground(text: &mut Text, ground: &Ground) -> Result<(), AllocError>
    ensures ok { HeadsInRange (ground_of ground.now) → OnOk result (text.new ≡ text.old ++ spelled_ground (ground_of ground.now)) }
    ensures kept { StartsWith text.new text.old }
    ensures sized { OnOk result (GroundSized (ground_of ground.now)) }
{
    match ground {
        Ground::Con(con, parts) => {
            add_byte(text, 1)?;
            add_u16(text, *con)?;
            add_byte(text, count_of(parts.len()))?;
            add_each(text, parts.as_slice())
        }
        Ground::Num(number) => {
            add_byte(text, 2)?;
            add_u64(text, *number)
        }
        Ground::Text(content) => {
            add_byte(text, 3)?;
            add_text(text, content.as_slice())
        }
    }
}

#[cycle(writing)]
fn add_each(text: &mut Text, grounds: &[Ground]) -> Result<(), AllocError>
    ensures ok { Each HeadsInRange (map ground_of grounds.now) → OnOk result (text.new ≡ text.old ++ flat_map spelled_ground (map ground_of grounds.now)) }
    ensures kept { StartsWith text.new text.old }
    ensures sized { OnOk result (Each GroundSized (map ground_of grounds.now)) }
{
    for ground in grounds {
        add_ground(text, ground)?;
    }
    Ok(())
}

fn add_grounds(text: &mut Text, grounds: &Grounds) -> Result<(), AllocError>
    requires { GroundsInRange (map ground_of grounds.now) }
    ensures ok { OnOk result (text.new ≡ text.old ++ spelled_grounds (map ground_of grounds.now)) }
    ensures err { OnErr result (StartsWith text.new text.old) }
    ensures sized { OnOk result (GroundsSized (map ground_of grounds.now)) }
{
    add_byte(text, count_of(grounds.len()))?;
    add_each(text, grounds.as_slice())
}

/// Adds a choice. After an error what stood in the text still stands at its front.
pub fn add_choice(text: &mut Text, choice: &Choice) -> Result<(), AllocError>
    requires { ChoiceInRange (choice_of choice.now) }
    ensures ok { OnOk result (text.new ≡ text.old ++ spelled_choice (choice_of choice.now)) }
    ensures err { OnErr result (StartsWith text.new text.old) }
    ensures sized { OnOk result (ChoiceSized (choice_of choice.now)) }
{
    match choice {
        Choice::Start { sort, case } => {
            add_byte(text, 0)?;
            add_u16(text, *sort)?;
            add_u64(text, *case)
        }
        Choice::Develop { node, rule, args } => {
            add_byte(text, 1)?;
            add_node(text, node)?;
            add_u16(text, *rule)?;
            add_grounds(text, args)
        }
    }
}

/// The one spelling of a choice.
pub fn encode_choice(alloc: Global, choice: &Choice) -> Result<Text, AllocError>
    requires { ChoiceInRange (choice_of choice.now) }
    ensures text { IfOk result (λ text. text ≡ spelled_choice (choice_of choice.now)) }
    ensures sized { OnOk result (ChoiceSized (choice_of choice.now)) }
{
    let mut text = Text::new(alloc);
    add_choice(&mut text, choice)?;
    Ok(text)
}
