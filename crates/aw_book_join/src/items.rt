//! How the rules stand at open tasks: a line for each.
ghost use Rattle.std.specs.Prelude.{◌≡◌, [], ◌∷◌, ◌++◌, map, OnOk};
ghost use Rattle.aw_choice.specs.ChoiceView.{item_of};
ghost use Rattle.aw_grammar.specs.GrammarOf.{words_of};
ghost use Rattle.aw_term.specs.Runs.{item_lines};
ghost use Rattle.aw_book_join.specs.Handing.{Hands, Writes, CountsWrites};
ghost use Rattle.aw_book_join.specs.Lines.{IsNoLine};
ghost use Rattle.aw_book_join.specs.Tasks.{items_of};

use crate::fault::TasksFault;
use crate::lines::PIECE;
use crate::view::{Case, is_of};
use aw_base::{NameWriter, push_item};
use aw_choice::Item;
use aw_grammar::Grammar;
use aw_list::Text;
use aw_out::{Sink, write_all};
use std::alloc::{AllocError, Global};

/// Adds the line of an item, if it is one of the case.
fn push_item_of(
    case: &Option<Case>,
    item: &Item,
    names: &mut NameWriter<'_>,
    text: &mut Text,
) -> Result<(), AllocError>
    ensures text { OnOk result (text.new ≡ text.old ++ item_lines (words_of names.old.grammar.now) (items_of case.now (item_of item.now ∷ []))) }
    ensures grammar { names.new.grammar.now ≡ names.old.grammar.now }
{
    if !is_of(case, &item.node) {
        return Ok(());
    }
    push_item(text, names, item)?;
    text.push(b'\n')
}

/// Writes the text, if it is long, and begins anew.
fn write_if_long<K: Sink>(text: &mut Text, out: &mut K) -> Result<(), TasksFault>
    ensures hands { Hands (K.written out.old) (K.written out.new) text.old text.new result }
    ensures counts { CountsWrites (K.faults out.old) (K.faults out.new) result }
    ensures no_line { IsNoLine result }
{
    if text.len() > PIECE {
        write_all(out, text.as_slice())?;
        text.truncate(0);
    }
    Ok(())
}

/// Adds the line of an item, if it is one of the case, and writes the text, if it is long.
fn write_next<K: Sink>(
    case: &Option<Case>,
    item: &Item,
    names: &mut NameWriter<'_>,
    text: &mut Text,
    out: &mut K,
) -> Result<(), TasksFault>
    ensures hands { Hands (K.written out.old) (K.written out.new)
        (text.old ++ item_lines (words_of names.old.grammar.now) (items_of case.now (item_of item.now ∷ []))) text.new result }
    ensures counts { CountsWrites (K.faults out.old) (K.faults out.new) result }
    ensures grammar { names.new.grammar.now ≡ names.old.grammar.now }
    ensures no_line { IsNoLine result }
{
    push_item_of(case, item, names, text)?;
    write_if_long(text, out)
}

/// Adds the lines of the items of the case, and writes all of them but the last.
fn write_each<K: Sink>(
    case: &Option<Case>,
    items: &[Item],
    names: &mut NameWriter<'_>,
    text: &mut Text,
    out: &mut K,
) -> Result<(), TasksFault>
    requires { text.old ≡ [] }
    ensures hands { Hands (K.written out.old) (K.written out.new)
        (item_lines (words_of names.old.grammar.now) (items_of case.now (map item_of items.now))) text.new result }
    ensures counts { CountsWrites (K.faults out.old) (K.faults out.new) result }
    ensures no_line { IsNoLine result }
{
    for item in items {
        write_next(case, item, names, text, out)?;
    }
    Ok(())
}

/// Writes a line for each item of the case.
pub(crate) fn write_items<K: Sink>(
    alloc: Global,
    grammar: &Grammar,
    case: &Option<Case>,
    items: &[Item],
    out: &mut K,
) -> Result<(), TasksFault>
    ensures writes { Writes (K.written out.old) (K.written out.new) (item_lines (words_of grammar.now) (items_of case.now (map item_of items.now))) result }
    ensures counts { CountsWrites (K.faults out.old) (K.faults out.new) result }
    ensures no_line { IsNoLine result }
{
    let mut names = NameWriter::new(alloc, grammar);
    let mut text = Text::new(alloc);
    write_each(case, items, &mut names, &mut text, out)?;
    write_all(out, text.as_slice())?;
    Ok(())
}
