//! The entries, and what is told of each.
ghost use Rattle.std.specs.Prelude.{◌≡◌, OnOk};
ghost use Rattle.aw_grammar.specs.GrammarOf.{grammar_of};
ghost use Rattle.aw_sched.specs.Answers.{MayCome};
ghost use Rattle.aw_term.specs.WellFormed.{Each};

use crate::drawing::{Stand, draw_choice};
use crate::draws::Draws;
use crate::entry::{Asked, read_asked};
use crate::run::Run;
use crate::tally::Tally;
use aw_accept::{Accepted, accept};
use aw_base::choice_ok;
use aw_list::Text;
use aw_spec::read_spec;
use aw_spelling::cut_at;
use bstr::ByteSlice;
use std::alloc::{AllocError, Global};
use table_common::TableFault;

/// What stands in front of an entry's name.
const MARK: &[u8] = b"=== ";

/// Draws a choice and makes it, where it may be asked.
fn take_turn(
    alloc: Global,
    draws: &mut Draws,
    accepted: &Accepted,
    run: &mut Run<'_>,
    cases: u64,
    tally: &mut Tally,
) -> Result<(), AllocError>
    requires same { run.old.plain.grammar.now ≡ accepted.now.grammar }
    requires fit { Each (MayCome (grammar_of accepted.now.grammar)) run.old.events.items }
    ensures same { run.new.plain.grammar.now ≡ accepted.now.grammar }
    ensures fit { OnOk result (Each (MayCome (grammar_of accepted.now.grammar)) run.new.events.items) }
{
    let choice = draw_choice(
        alloc,
        draws,
        &Stand {
            grammar: accepted.grammar(),
            rows: run.rows(),
            cases,
        },
    )?;
    if choice_ok(accepted.grammar(), &choice) {
        let answer = run.choose(accepted, choice)?;
        tally.count_answer(&answer);
        drop(answer);
    } else {
        drop(choice);
    }
    Ok(())
}

/// Draws the choices of a run, and makes them.
fn take_turns(
    alloc: Global,
    draws: &mut Draws,
    accepted: &Accepted,
    run: &mut Run<'_>,
    asked: &Asked,
    tally: &mut Tally,
) -> Result<(), AllocError>
    requires same { run.old.plain.grammar.now ≡ accepted.now.grammar }
    requires fit { Each (MayCome (grammar_of accepted.now.grammar)) run.old.events.items }
    ensures fit { OnOk result (Each (MayCome (grammar_of accepted.now.grammar)) run.new.events.items) }
{
    for _ in 0..asked.choices {
        take_turn(alloc, draws, accepted, run, asked.cases, tally)?;
    }
    Ok(())
}

/// Compares what is told of a run over trees with what is told of it over equations.
fn compare_told(
    alloc: Global,
    accepted: &Accepted,
    run: &Run<'_>,
    tally: &mut Tally,
) -> Result<(), AllocError>
    requires { Each (MayCome (grammar_of accepted.now.grammar)) run.now.events.items }
{
    let trees = run.told_of_trees(alloc, accepted.grammar())?;
    let equations = run.told_of_equations(alloc, accepted)?;
    tally.count_run(&trees, &equations);
    Ok(())
}

/// Draws a run from where nothing was chosen, and compares what both tell of it.
fn compare_drawn(
    alloc: Global,
    draws: &mut Draws,
    accepted: &Accepted,
    run: &mut Run<'_>,
    asked: &Asked,
    tally: &mut Tally,
) -> Result<(), AllocError>
    requires same { run.old.plain.grammar.now ≡ accepted.now.grammar }
    requires fit { Each (MayCome (grammar_of accepted.now.grammar)) run.old.events.items }
{
    take_turns(alloc, draws, accepted, run, asked, tally)?;
    compare_told(alloc, accepted, run, tally)
}

/// Draws a run, and compares what both tell of it.
fn compare_run(
    alloc: Global,
    draws: &mut Draws,
    accepted: &Accepted,
    asked: &Asked,
    tally: &mut Tally,
) -> Result<(), AllocError> {
    let mut run = Run::new(alloc, accepted);
    let compared = compare_drawn(alloc, draws, accepted, &mut run, asked, tally);
    drop(run);
    compared
}

/// Draws the runs of an entry.
fn compare_runs(alloc: Global, accepted: &Accepted, asked: &Asked) -> Result<Tally, AllocError> {
    let mut draws = Draws::new(asked.seed);
    let mut tally = Tally::new();
    for _ in 0..asked.runs {
        compare_run(alloc, &mut draws, accepted, asked, &mut tally)?;
    }
    Ok(tally)
}

/// The specification that a text spells.
fn accepted_of(alloc: Global, text: &[u8]) -> Result<Accepted, TableFault> {
    let Ok(spec) = read_spec(alloc, text) else {
        return Err(TableFault::Unreadable);
    };
    match accept(alloc, spec.into_grammar()) {
        Ok(accepted) => Ok(accepted),
        Err(refused) => {
            drop(refused);
            Err(TableFault::Unreadable)
        }
    }
}

/// An entry's name, what it asks for, and its specification.
fn parts_of(entry: &[u8]) -> Option<(&[u8], Asked, &[u8])> {
    let (name, rest) = cut_at(entry, b'\n')?;
    let (line, text) = cut_at(rest, b'\n')?;
    Some((name, read_asked(line)?, text))
}

/// Adds the line with an entry's name.
fn push_name(told: &mut Text, name: &[u8]) -> Result<(), AllocError> {
    told.push_bytes(MARK)?;
    told.push_bytes(name)?;
    told.push_bytes(b"\n")
}

/// Adds what is told of the runs of an accepted specification.
fn push_tally(
    alloc: Global,
    told: &mut Text,
    accepted: &Accepted,
    asked: &Asked,
) -> Result<(), TableFault> {
    let tally = compare_runs(alloc, accepted, asked)?;
    Ok(tally.push_told(told)?)
}

/// Adds what is told of the runs of an entry.
fn push_runs(alloc: Global, told: &mut Text, asked: &Asked, text: &[u8]) -> Result<(), TableFault> {
    let accepted = accepted_of(alloc, text)?;
    let pushed = push_tally(alloc, told, &accepted, asked);
    drop(accepted);
    pushed
}

/// Adds an entry's name and what is told of it.
fn push_entry(alloc: Global, told: &mut Text, entry: &[u8]) -> Result<(), TableFault> {
    let Some((name, asked, text)) = parts_of(entry) else {
        return Err(TableFault::Unreadable);
    };
    push_name(told, name)?;
    push_runs(alloc, told, &asked, text)
}

/// Adds what is told of all entries.
fn push_entries(alloc: Global, told: &mut Text, entries: &[u8]) -> Result<(), TableFault> {
    for entry in entries.split_str(MARK) {
        push_entry(alloc, told, entry)?;
    }
    Ok(())
}

/// What is told of all entries.
pub fn table(alloc: Global, text: &[u8]) -> Result<Text, TableFault> {
    let Some((_, entries)) = text.split_once_str(MARK) else {
        return Err(TableFault::Unreadable);
    };
    let mut told = Text::new(alloc);
    push_entries(alloc, &mut told, entries)?;
    Ok(told)
}
