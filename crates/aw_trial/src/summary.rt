//! What a trial tells in the end.
ghost use Rattle.std.specs.Prelude.{◌≡◌, ◌++◌, IfOk, OnOk};
ghost use Rattle.aw_trial.specs.Summaries.{line, summary_text};

use aw_list::Text;
use aw_spelling::push_number;
use std::alloc::{AllocError, Global};

/// How many cases were started; how many choices were made, the starts aside, and how many of them were taken; how many messages were
/// sent; how many deliveries brought nothing new; how many artifact lines there are in the end, and how many bytes they have.
#[derive(Clone, Copy, Debug, PartialEq, Eq)]
pub struct Summary {
    pub starts: u64,
    pub choices: u64,
    pub taken: u64,
    pub messages: u64,
    pub repeats: u64,
    pub artifacts: u64,
    pub bytes: u64,
}

/// Adds a line of a name with its blank and a number.
fn push_line(text: &mut Text, name: &[u8], number: u64) -> Result<(), AllocError>
    ensures { OnOk result (text.new ≡ text.old ++ line name.now number) }
{
    text.push_bytes(name)?;
    push_number(text, number)?;
    text.push_bytes(b"\n")
}

/// The text of a summary: a line for the number of the trial, and one for each count.
pub fn summary_text(alloc: Global, n: u64, summary: &Summary) -> Result<Text, AllocError>
    ensures { IfOk result (λ text. text ≡ summary_text n summary.now) }
{
    let mut text = Text::new(alloc);
    push_line(&mut text, b"trial ", n)?;
    push_line(&mut text, b"starts ", summary.starts)?;
    push_line(&mut text, b"choices ", summary.choices)?;
    push_line(&mut text, b"taken ", summary.taken)?;
    push_line(&mut text, b"messages ", summary.messages)?;
    push_line(&mut text, b"repeats ", summary.repeats)?;
    push_line(&mut text, b"artifacts ", summary.artifacts)?;
    push_line(&mut text, b"bytes ", summary.bytes)?;
    Ok(text)
}
