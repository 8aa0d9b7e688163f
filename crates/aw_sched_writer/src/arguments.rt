//! The arguments of a choice, as a schedule has them.
ghost use Rattle.std.specs.Prelude.{◌≡◌, ◌++◌, OnOk, map};
ghost use Rattle.aw_term.specs.Artifacts.{listed, ground_text};
ghost use Rattle.aw_term.specs.Views.{ground_of};
ghost use Rattle.aw_grammar.specs.GrammarOf.{words_of};
ghost use Rattle.aw_sched_writer.specs.EventTexts.{args_text};

use aw_base::{Grammar, Ground, con_name};
use aw_list::Text;
use aw_spelling::{push_number, push_quoted};
use std::alloc::AllocError;

/// Adds an argument.
#[cycle(arguments)]
fn push_ground(text: &mut Text, g: &Grammar, ground: &Ground) -> Result<(), AllocError>
    ensures { OnOk result (text.new ≡ text.old ++ ground_text (words_of g.now) (ground_of ground.now)) }
{
    match ground {
        Ground::Num(number) => push_number(text, *number),
        Ground::Text(content) => push_quoted(text, content.as_slice()),
        Ground::Con(con, parts) => {
            text.push_bytes(con_name(g, *con))?;
            if parts.is_empty() {
                return Ok(());
            }
            text.push(b'(')?;
            push_grounds(text, g, parts.as_slice())?;
            text.push(b')')
        }
    }
}

/// Adds arguments, a comma and a space between each two.
#[cycle(arguments)]
fn push_grounds(text: &mut Text, g: &Grammar, grounds: &[Ground]) -> Result<(), AllocError>
    ensures { OnOk result (text.new ≡ text.old ++ listed (map (ground_text (words_of g.now)) (map ground_of grounds.now))) }
{
    let mut between: &[u8] = b"";
    for ground in grounds {
        text.push_bytes(between)?;
        push_ground(text, g, ground)?;
        between = b", ";
    }
    Ok(())
}

/// Adds the arguments of a choice, as ` {"Ada", 7}`, and nothing where there are none.
pub(crate) fn push_args(text: &mut Text, g: &Grammar, args: &[Ground]) -> Result<(), AllocError>
    ensures { OnOk result (text.new ≡ text.old ++ args_text (words_of g.now) (map ground_of args.now)) }
{
    if args.is_empty() {
        return Ok(());
    }
    text.push_array(b" {")?;
    push_grounds(text, g, args)?;
    text.push(b'}')
}
