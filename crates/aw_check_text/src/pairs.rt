//! The dependence relations of an accepted grammar, a line for each pair.
ghost use Rattle.std.specs.Prelude.{◌≡◌, ◌++◌, length, OnOk, IfOk};
ghost use Rattle.aw_grammar.specs.GrammarOf.{grammar_of, words_of};
ghost use Rattle.aw_accept.specs.Circular.{IsRelation};
ghost use Rattle.aw_check_text.specs.Told.{pair_line, pair_lines, value_lines, sort_lines, lines_of_sort, accepted_text, TellsAccepted};
ghost use Rattle.aw_check_text.specs.PairTests.{has_pair};

use aw_accept::Accepted;
use aw_base::sort_name;
use aw_grammar::Grammar;
use aw_iograph::Io;
use aw_list::Text;
use aw_spelling::push_number;
use std::alloc::{AllocError, Global};

/// Adds `io test 1 1`.
fn push_line(text: &mut Text, name: &[u8], i: u8, j: u8) -> Result<(), AllocError>
    ensures { OnOk result (text.new ≡ text.old ++ pair_line name.now i j) }
{
    text.push_bytes(b"io ")?;
    text.push_bytes(name)?;
    text.push_bytes(b" ")?;
    push_number(text, u64::from(i))?;
    text.push_bytes(b" ")?;
    push_number(text, u64::from(j))?;
    text.push_bytes(b"\n")
}

/// Adds the line of a pair, where the result depends on the inherited value.
fn push_pair(
    text: &mut Text,
    io: &Io,
    sort: u16,
    name: &[u8],
    i: u8,
    j: u8,
) -> Result<(), AllocError>
    ensures { OnOk result (text.new ≡ text.old ++ pair_lines (has_pair io.now sort) name.now i j) }
{
    if io.has(sort, i, j) {
        push_line(text, name, i, j)
    } else {
        Ok(())
    }
}

/// Adds the lines of an inherited value, for so many results.
fn push_value(
    text: &mut Text,
    io: &Io,
    sort: u16,
    name: &[u8],
    gives: u8,
    i: u8,
) -> Result<(), AllocError>
    ensures { OnOk result (text.new ≡ text.old ++ value_lines (has_pair io.now sort) name.now gives i) }
{
    for j in 0..gives {
        push_pair(text, io, sort, name, i, j + 1)?;
    }
    Ok(())
}

/// Adds the lines of so many inherited values and results.
fn push_values(
    text: &mut Text,
    io: &Io,
    sort: u16,
    name: &[u8],
    takes: u8,
    gives: u8,
) -> Result<(), AllocError>
    ensures { OnOk result (text.new ≡ text.old ++ sort_lines (has_pair io.now sort) name.now takes gives) }
{
    for i in 0..takes {
        push_value(text, io, sort, name, gives, i + 1)?;
    }
    Ok(())
}

/// Adds the lines of a sort.
fn push_sort(text: &mut Text, g: &Grammar, io: &Io, sort: u16) -> Result<(), AllocError>
    ensures { OnOk result (text.new ≡ text.old ++ lines_of_sort (has_pair io.now) (words_of g.now) (grammar_of g.now) sort) }
{
    push_values(
        text,
        io,
        sort,
        sort_name(g, sort),
        g.takes(sort),
        g.gives(sort),
    )
}

/// How many sorts there are: at most 256.
fn count_sorts(g: &Grammar) -> u16
    ensures { result ≡ length (grammar_of g.now).sorts }
{
    g.sorts.len() as u16
}

/// The line `accepted`, and a line for each pair of these relations, by sort, inherited value and result.
fn text_of(alloc: Global, g: &Grammar, io: &Io) -> Result<Text, AllocError>
    ensures { IfOk result (λ text. text ≡ accepted_text (has_pair io.now) (words_of g.now) (grammar_of g.now)) }
{
    let mut text = Text::from_bytes(alloc, b"accepted\n")?;
    for sort in 0..count_sorts(g) {
        push_sort(&mut text, g, io, sort)?;
    }
    Ok(text)
}

/// What is told of an accepted grammar: the line `accepted`, and then `io test 1 1` for each result that depends on an
/// inherited value, by sort, inherited value and result.
pub fn accepted_text(alloc: Global, accepted: &Accepted) -> Result<Text, AllocError>
    ensures tells { IfOk result (λ text. ∥ TellsAccepted (words_of accepted.now.grammar) (grammar_of accepted.now.grammar) text ∥₁) }
    ensures over { IsRelation accepted.now.grammar accepted.now.io →
        IfOk result (λ text. TellsAccepted (words_of accepted.now.grammar) (grammar_of accepted.now.grammar) text) }
{
    text_of(alloc, accepted.grammar(), accepted.io())
}
