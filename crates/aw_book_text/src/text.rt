//! Moves of a world, as a text that is read as a specification and these moves.
ghost use Rattle.std.specs.Prelude.{◌≡◌, [], ◌++◌, if◌then◌else◌, map as list_map, codes, IfOk, OnOk};
ghost use Rattle.aw_grammar.specs.GrammarOf.{words_of};
ghost use Rattle.aw_sched_writer.specs.EventTexts.{events_text};
ghost use Rattle.aw_sched_writer.specs.Moves.{asked_by, move_line, joined_text};
ghost use Rattle.aw_world.specs.MoveView.{move_of};

use aw_base::NameWriter;
use aw_grammar::Grammar;
use aw_list::Text;
use aw_sched_writer::{push_asked_line, push_deliver_line};
use aw_world::Move;
use std::alloc::{AllocError, Global};

/// Adds the line of a move.
fn push_move(text: &mut Text, names: &mut NameWriter<'_>, step: &Move) -> Result<(), AllocError>
    ensures text { OnOk result (text.new ≡ text.old ++ move_line (words_of names.old.grammar.now) (move_of step.now)) }
    ensures grammar { names.new.grammar.now ≡ names.old.grammar.now }
{
    match step {
        Move::Choose(choice) => push_asked_line(text, names, choice.get()),
        Move::Deliver(number) => push_deliver_line(text, *number),
    }
}

/// Adds the lines of moves.
fn push_moves(text: &mut Text, names: &mut NameWriter<'_>, moves: &[Move]) -> Result<(), AllocError>
    ensures { OnOk result (text.new ≡ text.old ++ events_text (words_of names.old.grammar.now) (list_map asked_by (list_map move_of moves.now))) }
{
    for step in moves {
        push_move(text, names, step)?;
    }
    Ok(())
}

/// Adds that all messages are delivered, where that is asked for.
fn push_end(text: &mut Text, settled: bool) -> Result<(), AllocError>
    ensures { OnOk result (text.new ≡ text.old ++ (if settled then codes "settle\n" else [])) }
{
    if !settled {
        return Ok(());
    }
    text.push_array(b"settle\n")
}

/// The text of a specification, and the line behind which its schedule stands.
fn front_of(alloc: Global, specification: &[u8]) -> Result<Text, AllocError>
    ensures { IfOk result (λ text. text ≡ specification.now ++ codes "schedule 2\n") }
{
    let mut text = Text::from_bytes(alloc, specification)?;
    text.push_array(b"schedule 2\n")?;
    Ok(text)
}

/// The text of a specification with these moves as its schedule, in which workspaces send loads, and behind them that all messages are
/// delivered, where that is asked for.
///
/// # Errors
/// Where memory runs out.
pub fn joined_text(
    alloc: Global,
    grammar: &Grammar,
    specification: &[u8],
    moves: &[Move],
    settled: bool,
) -> Result<Text, AllocError>
    ensures { IfOk result (λ text. text ≡ joined_text (words_of grammar.now) specification.now (list_map move_of moves.now) settled) }
{
    let mut names = NameWriter::new(alloc, grammar);
    let mut text = front_of(alloc, specification)?;
    push_moves(&mut text, &mut names, moves)?;
    push_end(&mut text, settled)?;
    Ok(text)
}
