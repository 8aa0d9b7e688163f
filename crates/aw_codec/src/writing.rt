//! Writers of names and texts: each adds the one spelling of a value at the end of a text, and what was written has the sizes of
//! the program's types.
ghost use Rattle.std.specs.Prelude.{◌≡◌, ◌≤◌, ◌++◌, ◌∷◌, [], length, IfOk, OnOk, OnErr, flat_map};
ghost use Rattle.std.specs.Io.{StartsWith};
ghost use Rattle.std.specs.Int.{w16, w64, to_be_bytes};
ghost use Rattle.aw_term.specs.WellFormed.{Each};
ghost use Rattle.aw_term.specs.Limits.{most_references};
ghost use Rattle.aw_codec.specs.Names.{spelled_step, spelled_node, spelled_slot, spelled_ref, spelled_refs};
ghost use Rattle.aw_codec.specs.Texts.{spelled_text};
ghost use Rattle.aw_codec.specs.Ranges.{StepSized, NodeSized, SlotSized, RefSized, RefsSized, TextSized};

use aw_list::Text;
use aw_name::{Node, Ref, Slot, Step};
use std::alloc::AllocError;

/// Adds a byte. After an error the text is as it was.
pub fn add_byte(text: &mut Text, byte: u8) -> Result<(), AllocError>
    ensures ok { OnOk result (text.new ≡ text.old ++ byte ∷ []) }
    ensures err { OnErr result (text.new ≡ text.old) }
{
    text.push_bytes(&[byte])
}

/// Adds a number of two bytes. After an error the text is as it was.
pub fn add_u16(text: &mut Text, number: u16) -> Result<(), AllocError>
    ensures ok { OnOk result (text.new ≡ text.old ++ to_be_bytes w16 number) }
    ensures err { OnErr result (text.new ≡ text.old) }
{
    text.push_bytes(&number.to_be_bytes())
}

/// Adds a number of eight bytes. After an error the text is as it was.
pub fn add_u64(text: &mut Text, number: u64) -> Result<(), AllocError>
    ensures ok { OnOk result (text.new ≡ text.old ++ to_be_bytes w64 number) }
    ensures err { OnErr result (text.new ≡ text.old) }
{
    text.push_bytes(&number.to_be_bytes())
}

fn add_step(text: &mut Text, step: &Step) -> Result<(), AllocError>
    ensures ok { OnOk result (text.new ≡ text.old ++ spelled_step step.now) }
    ensures err { OnErr result (StartsWith text.new text.old) }
    ensures sized { OnOk result (StepSized step.now) }
{
    add_u16(text, step.rule)?;
    add_byte(text, step.child)
}

fn add_steps(text: &mut Text, steps: &[Step]) -> Result<(), AllocError>
    ensures ok { OnOk result (text.new ≡ text.old ++ flat_map spelled_step steps.now) }
    ensures err { OnErr result (StartsWith text.new text.old) }
    ensures sized { OnOk result (Each StepSized steps.now) }
{
    for step in steps {
        add_step(text, step)?;
    }
    Ok(())
}

/// Adds the name of a node. After an error what stood in the text still stands at its front.
pub fn add_node(text: &mut Text, node: &Node) -> Result<(), AllocError>
    ensures ok { OnOk result (text.new ≡ text.old ++ spelled_node node.now) }
    ensures err { OnErr result (StartsWith text.new text.old) }
    ensures sized { OnOk result (NodeSized node.now) }
{
    add_u16(text, node.start)?;
    add_u64(text, node.case)?;
    add_byte(text, node.steps.len() as u8)?;
    add_steps(text, node.steps.as_slice())
}

fn add_slot(text: &mut Text, slot: Slot) -> Result<(), AllocError>
    ensures ok { OnOk result (text.new ≡ text.old ++ spelled_slot slot) }
    ensures err { OnErr result (StartsWith text.new text.old) }
    ensures sized { OnOk result (SlotSized slot) }
{
    match slot {
        Slot::Result(number) => {
            add_byte(text, 0)?;
            add_u16(text, number)
        }
        Slot::Part(number) => {
            add_byte(text, 1)?;
            add_u16(text, number)
        }
    }
}

/// Adds a reference. After an error what stood in the text still stands at its front.
pub fn add_ref(text: &mut Text, reference: &Ref) -> Result<(), AllocError>
    ensures ok { OnOk result (text.new ≡ text.old ++ spelled_ref reference.now) }
    ensures err { OnErr result (StartsWith text.new text.old) }
    ensures sized { OnOk result (RefSized reference.now) }
{
    add_node(text, &reference.node)?;
    add_slot(text, reference.slot)
}

fn add_each_ref(text: &mut Text, refs: &[Ref]) -> Result<(), AllocError>
    ensures ok { OnOk result (text.new ≡ text.old ++ flat_map spelled_ref refs.now) }
    ensures err { OnErr result (StartsWith text.new text.old) }
    ensures sized { OnOk result (RefsSized refs.now) }
{
    for reference in refs {
        add_ref(text, reference)?;
    }
    Ok(())
}

/// Adds references, few, behind their number. After an error what stood in the text still stands at its front.
pub fn add_refs(text: &mut Text, refs: &[Ref]) -> Result<(), AllocError>
    requires { length refs.now ≤ most_references }
    ensures ok { OnOk result (text.new ≡ text.old ++ spelled_refs refs.now) }
    ensures err { OnErr result (StartsWith text.new text.old) }
    ensures sized { OnOk result (RefsSized refs.now) }
{
    add_byte(text, refs.len() as u8)?;
    add_each_ref(text, refs)
}

/// The length of a content. One of more than 65,535 bytes is as if there were no memory for it.
fn length_of(content: &[u8]) -> Result<u16, AllocError>
    ensures { IfOk result (λ n. n ≡ length content.now) }
{
    match u16::try_from(content.len()) {
        Ok(length) => Ok(length),
        Err(_) => Err(AllocError),
    }
}

/// Adds a content, behind its length. One of more than 65,535 bytes is as if there were no memory for it.
/// After an error what stood in the text still stands at its front.
pub fn add_text(text: &mut Text, content: &[u8]) -> Result<(), AllocError>
    ensures ok { OnOk result (text.new ≡ text.old ++ spelled_text content.now) }
    ensures err { OnErr result (StartsWith text.new text.old) }
    ensures sized { OnOk result (TextSized content.now) }
{
    add_u16(text, length_of(content)?)?;
    text.push_bytes(content)
}
