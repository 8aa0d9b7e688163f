//! The lines that several commands write: of a choice with its answer, before the artifacts, and of the items of a worklist.
ghost use Rattle.std.specs.Prelude.{◌≡◌, ◌++◌, [], codes, decimal, map, OnOk, OnErr};
ghost use Rattle.std.specs.Io.{StartsWith};
ghost use Rattle.aw_term.specs.Artifacts.{item_text, node_text};
ghost use Rattle.aw_term.specs.Rules.{get};
ghost use Rattle.aw_term.specs.Runs.{choice_text, answer_line, item_lines};
ghost use Rattle.aw_choice.specs.ChoiceView.{answer_of, choice_of, item_of};
ghost use Rattle.aw_grammar.specs.GrammarOf.{words_of};

use crate::name_writer::NameWriter;
use crate::texts::{push_answer, push_item, rule_name, sort_name};
use aw_choice::{Answer, Choice, Item};
use aw_list::Text;
use aw_name::Node;
use aw_spelling::push_number;
use std::alloc::AllocError;

fn add_start(
    text: &mut Text,
    names: &mut NameWriter<'_>,
    sort: u16,
    case: u64,
) -> Result<(), AllocError>
    ensures ok { OnOk result (text.new ≡ text.old ++ (codes "start " ++ (get [] (words_of names.old.grammar.now).sorts sort ++ (codes " " ++ decimal case)))) }
    ensures err { OnErr result (StartsWith text.new text.old) }
    ensures grammar { names.new.grammar.now ≡ names.old.grammar.now }
{
    text.push_bytes(b"start ")?;
    text.push_bytes(sort_name(names.grammar(), sort))?;
    text.push_bytes(b" ")?;
    push_number(text, case)
}

fn add_develop(
    text: &mut Text,
    names: &mut NameWriter<'_>,
    node: &Node,
    rule: u16,
) -> Result<(), AllocError>
    ensures ok { OnOk result (text.new ≡ text.old ++ (codes "choose " ++ (node_text (words_of names.old.grammar.now) node.now ++ (codes " " ++ get [] (words_of names.old.grammar.now).rules rule)))) }
    ensures err { OnErr result (StartsWith text.new text.old) }
    ensures grammar { names.new.grammar.now ≡ names.old.grammar.now }
{
    text.push_bytes(b"choose ")?;
    names.push_node(text, node)?;
    text.push_bytes(b" ")?;
    text.push_bytes(rule_name(names.grammar(), rule))
}

fn add_choice(
    text: &mut Text,
    names: &mut NameWriter<'_>,
    choice: &Choice,
) -> Result<(), AllocError>
    ensures ok { OnOk result (text.new ≡ text.old ++ choice_text (words_of names.old.grammar.now) (choice_of choice.now)) }
    ensures err { OnErr result (StartsWith text.new text.old) }
    ensures grammar { names.new.grammar.now ≡ names.old.grammar.now }
{
    match choice {
        Choice::Start { sort, case } => add_start(text, names, *sort, *case),
        Choice::Develop { node, rule, .. } => add_develop(text, names, node, *rule),
    }
}

fn add_choice_line(
    text: &mut Text,
    names: &mut NameWriter<'_>,
    choice: &Choice,
    answer: &Answer,
) -> Result<(), AllocError>
    ensures ok { OnOk result (text.new ≡ text.old ++ answer_line (words_of names.old.grammar.now) (choice_of choice.now) (answer_of answer.now)) }
    ensures err { OnErr result (StartsWith text.new text.old) }
    ensures grammar { names.new.grammar.now ≡ names.old.grammar.now }
{
    push_choice(text, names, choice)?;
    text.push_bytes(b": ")?;
    push_answer(text, names, answer)?;
    text.push_bytes(b"\n")
}

fn add_artifacts_line(text: &mut Text, count: usize) -> Result<(), AllocError>
    ensures ok { OnOk result (text.new ≡ text.old ++ (codes "artifacts " ++ (decimal count ++ codes "\n"))) }
    ensures err { OnErr result (StartsWith text.new text.old) }
{
    text.push_bytes(b"artifacts ")?;
    push_number(text, count as u64)?;
    text.push_bytes(b"\n")
}

fn add_item_line(text: &mut Text, names: &mut NameWriter<'_>, item: &Item) -> Result<(), AllocError>
    ensures ok { OnOk result (text.new ≡ text.old ++ (item_text (words_of names.old.grammar.now) (item_of item.now) ++ codes "\n")) }
    ensures err { OnErr result (StartsWith text.new text.old) }
    ensures grammar { names.new.grammar.now ≡ names.old.grammar.now }
{
    push_item(text, names, item)?;
    text.push_bytes(b"\n")
}

fn add_item_lines(
    text: &mut Text,
    names: &mut NameWriter<'_>,
    items: &[Item],
) -> Result<(), AllocError>
    ensures ok { OnOk result (text.new ≡ text.old ++ item_lines (words_of names.old.grammar.now) (map item_of items.now)) }
    ensures err { OnErr result (StartsWith text.new text.old) }
    ensures grammar { names.new.grammar.now ≡ names.old.grammar.now }
{
    for item in items {
        add_item_line(text, names, item)?;
    }
    Ok(())
}

/// Adds the text of a choice, as `start visit 1` or `choose visit#1 admit`. An error changes nothing.
pub fn push_choice(
    text: &mut Text,
    names: &mut NameWriter<'_>,
    choice: &Choice,
) -> Result<(), AllocError>
    ensures ok { OnOk result (text.new ≡ text.old ++ choice_text (words_of names.old.grammar.now) (choice_of choice.now)) }
    ensures err { OnErr result (text.new ≡ text.old) }
    ensures grammar { names.new.grammar.now ≡ names.old.grammar.now }
{
    let before = text.len();
    match add_choice(text, names, choice) {
        Ok(()) => Ok(()),
        Err(failed) => {
            text.truncate(before);
            Err(failed)
        }
    }
}

/// Adds the line of a choice and its answer, as `start visit 1: taken`. An error changes nothing.
pub fn push_choice_line(
    text: &mut Text,
    names: &mut NameWriter<'_>,
    choice: &Choice,
    answer: &Answer,
) -> Result<(), AllocError>
    ensures ok { OnOk result (text.new ≡ text.old ++ answer_line (words_of names.old.grammar.now) (choice_of choice.now) (answer_of answer.now)) }
    ensures err { OnErr result (text.new ≡ text.old) }
    ensures grammar { names.new.grammar.now ≡ names.old.grammar.now }
{
    let before = text.len();
    match add_choice_line(text, names, choice, answer) {
        Ok(()) => Ok(()),
        Err(failed) => {
            text.truncate(before);
            Err(failed)
        }
    }
}

/// Adds the line that stands before so many artifacts, as `artifacts 2`. An error changes nothing.
pub fn push_artifacts_line(text: &mut Text, count: usize) -> Result<(), AllocError>
    ensures ok { OnOk result (text.new ≡ text.old ++ (codes "artifacts " ++ (decimal count ++ codes "\n"))) }
    ensures err { OnErr result (text.new ≡ text.old) }
{
    let before = text.len();
    match add_artifacts_line(text, count) {
        Ok(()) => Ok(()),
        Err(failed) => {
            text.truncate(before);
            Err(failed)
        }
    }
}

/// Adds a line for each item, as `item visit#1 admit ready`. An error changes nothing.
pub fn push_item_lines(
    text: &mut Text,
    names: &mut NameWriter<'_>,
    items: &[Item],
) -> Result<(), AllocError>
    ensures ok { OnOk result (text.new ≡ text.old ++ item_lines (words_of names.old.grammar.now) (map item_of items.now)) }
    ensures err { OnErr result (text.new ≡ text.old) }
    ensures grammar { names.new.grammar.now ≡ names.old.grammar.now }
{
    let before = text.len();
    match add_item_lines(text, names, items) {
        Ok(()) => Ok(()),
        Err(failed) => {
            text.truncate(before);
            Err(failed)
        }
    }
}
