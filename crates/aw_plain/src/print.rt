//! The artifact text of rows. Values are printed on a stack, so that the limit of a report ends even the largest.
ghost use Rattle.std.specs.Prelude.{◌≡◌, ◌↔◌, ◌+◌, ◌*◌, ◌<◌, ◌++◌, [], ℕ, List, Err, IfOk, IfErr, OnOk, IsTrue};
ghost use Rattle.aw_term.specs.Artifacts.{Words, listed, node_text, row_text, state_text, artifact_text};
ghost use Rattle.aw_grammar.specs.GrammarOf.{words_of};
ghost use Rattle.aw_out.specs.Report.{Prints};
ghost use Rattle.aw_plain_rows.specs.TreeView.{value_of, values_of};
ghost use Rattle.aw_plain_rows.specs.RowView.{plain_row, plain_state, config_of};
ghost use Rattle.aw_plain_rows.specs.Places.{places, places_of_all};
ghost use Rattle.aw_plain.specs.Pieces.{opening as plain_opening, arguments as plain_arguments, text_of, texts_under, following};
ghost use Rattle.aw_plain.specs.Pieces.{piece_text, piece_opening, pending, with_piece, piece_work, pieces_work, Continues};

use crate::fill::lift_all;
use aw_base::{Grammar, con_name, push_node, rule_name};
use aw_list::{Items, Text};
use aw_name::Node;
use aw_out::{PrintFault, Report};
use aw_plain_rows::{Row, State, Tree, Trees, copy_part};
use aw_spelling::{push_number, push_quoted};
use std::alloc::{AllocError, Global};

/// What is still to be printed: the first of some values, one behind another, or bytes.
#[derive(Drop)]
pub enum Piece<'t> {
    First(Tree),
    Next(Tree),
    Bytes(&'t [u8]),
}

/// Adds the name of a hole: `?visit#1:r1`.
fn push_hole(text: &mut Text, grammar: &Grammar, node: &Node, j: u16) -> Result<(), AllocError>
    ensures { OnOk result (text.new ≡ text.old ++ plain_opening (words_of grammar.now) (value_of (Tree.Hole node.now j))) }
{
    text.push_bytes(b"?")?;
    push_node(text, grammar, node)?;
    text.push_bytes(b":r")?;
    push_number(text, u64::from(j))
}

fn are_none(trees: &[Tree]) -> bool
    ensures { IsTrue result ↔ (trees.now ≡ []) }
{
    trees.is_empty()
}

/// Adds the text of a value up to its first part.
fn push_opening(text: &mut Text, grammar: &Grammar, tree: &Tree) -> Result<(), AllocError>
    ensures { OnOk result (text.new ≡ text.old ++ plain_opening (words_of grammar.now) (value_of tree.now)) }
{
    match tree {
        Tree::Num(n) => push_number(text, *n),
        Tree::Text(content) => push_quoted(text, content.as_slice()),
        Tree::Hole(node, j) => push_hole(text, grammar, node, *j),
        Tree::Con {
            con,
            whole: _,
            parts,
        } => {
            text.push_bytes(con_name(grammar, *con))?;
            if are_none(parts.as_slice()) {
                return Ok(());
            }
            text.push_bytes(b"(")
        }
    }
}

/// Notes values that stand behind another one, below a constructor that is marked whole or not.
fn push_following(
    pieces: &mut Vec<Piece<'_>>,
    trees: &[Tree],
    whole: bool,
) -> Result<(), AllocError>
    ensures text { OnOk result ((w : Words) → pending w pieces.new.items ≡ following (texts_under w whole trees.now) ++ pending w pieces.old.items) }
    ensures work { OnOk result (pieces_work pieces.new.items ≡ pieces_work pieces.old.items + 2 * places_of_all trees.now) }
{
    let mut k = trees.len();
    while k > 0 {
        k -= 1;
        pieces.push(Piece::Next(copy_part(&trees[k], whole)?))?;
    }
    Ok(())
}

/// Notes values with separators between them, below a constructor that is marked whole or not.
fn push_listed(pieces: &mut Vec<Piece<'_>>, trees: &[Tree], whole: bool) -> Result<(), AllocError>
    ensures text { OnOk result ((w : Words) → pending w pieces.new.items ≡ listed (texts_under w whole trees.now) ++ pending w pieces.old.items) }
    ensures work { OnOk result (pieces_work pieces.new.items ≡ pieces_work pieces.old.items + 2 * places_of_all trees.now) }
{
    match trees {
        [] => Ok(()),
        [first, rest @ ..] => {
            push_following(pieces, rest, whole)?;
            pieces.push(Piece::First(copy_part(first, whole)?))?;
            Ok(())
        }
    }
}

/// Notes the parts of a value.
fn push_parts(pieces: &mut Vec<Piece<'_>>, tree: &Tree) -> Result<(), AllocError>
    ensures text { OnOk result ((w : Words) → text_of w tree.now ++ pending w pieces.old.items ≡ plain_opening w (value_of tree.now) ++ pending w pieces.new.items) }
    ensures work { OnOk result (pieces_work pieces.new.items < pieces_work pieces.old.items + 2 * places tree.now) }
{
    match tree {
        Tree::Con {
            con: _con,
            whole,
            parts,
        } => {
            if are_none(parts.as_slice()) {
                return Ok(());
            }
            pieces.push(Piece::Bytes(b")"))?;
            push_listed(pieces, parts.as_slice(), *whole)
        }
        _ => Ok(()),
    }
}

/// Gathers a piece up to its first part. Its parts are noted.
fn begin_piece<'t>(
    text: &mut Text,
    grammar: &Grammar,
    pieces: &mut Vec<Piece<'t>>,
    piece: &Piece<'t>,
) -> Result<(), AllocError>
    ensures opening { OnOk result (text.new ≡ text.old ++ piece_opening (words_of grammar.now) piece.now) }
    ensures text { OnOk result ((w : Words) → piece_text w piece.now ++ pending w pieces.old.items ≡ piece_opening w piece.now ++ pending w pieces.new.items) }
    ensures work { OnOk result (pieces_work pieces.new.items < piece_work piece.now + pieces_work pieces.old.items) }
{
    match piece {
        Piece::First(tree) => {
            push_opening(text, grammar, tree)?;
            push_parts(pieces, tree)
        }
        Piece::Next(tree) => {
            text.push_bytes(b", ")?;
            push_opening(text, grammar, tree)?;
            push_parts(pieces, tree)
        }
        Piece::Bytes(bytes) => text.push_bytes(bytes),
    }
}

/// So many bytes are gathered before they are added to the report.
const GATHERED: usize = 4096;

/// Adds what was gathered to the report, where it is long.
fn add_gathered(text: &mut Text, report: &mut Report) -> Result<(), PrintFault>
    ensures ok { OnOk result ((more : List ℕ) → Continues (text.old ++ more) report.old (text.new ++ more) report.new) }
    ensures err { IfErr result (λ fault. Prints text.old report.old report.new (Err fault)) }
{
    if text.len() < GATHERED {
        return Ok(());
    }
    report.push(text.as_slice())?;
    *text = Text::new(text.allocator());
    Ok(())
}

/// Prints a piece up to its first part, behind what was gathered. Its parts are noted.
fn print_piece<'t>(
    grammar: &Grammar,
    pieces: &mut Vec<Piece<'t>>,
    piece: &Piece<'t>,
    text: &mut Text,
    report: &mut Report,
) -> Result<(), PrintFault>
    ensures ok { OnOk result (Continues (with_piece grammar.now text.old piece.now pieces.old.items) report.old (text.new ++ pending (words_of grammar.now) pieces.new.items) report.new) }
    ensures err { IfErr result (λ fault. Prints (with_piece grammar.now text.old piece.now pieces.old.items) report.old report.new (Err fault)) }
    ensures work { OnOk result (pieces_work pieces.new.items < piece_work piece.now + pieces_work pieces.old.items) }
{
    begin_piece(text, grammar, pieces, piece)?;
    add_gathered(text, report)
}

/// Prints all pieces, the last one first.
fn print_pieces(
    alloc: Global,
    grammar: &Grammar,
    mut pieces: Vec<Piece<'_>>,
    report: &mut Report,
) -> Result<(), PrintFault>
    ensures { Prints (pending (words_of grammar.now) pieces.entry.items) report.old report.new result }
{
    let mut text = Text::new(alloc);
    while let Some(piece) = pieces.pop() {
        print_piece(grammar, &mut pieces, &piece, &mut text, report)?;
    }
    report.push(text.as_slice())
}

/// Notes bytes.
fn push_bytes<'t>(pieces: &mut Vec<Piece<'t>>, bytes: &'t [u8]) -> Result<(), AllocError>
    ensures { OnOk result ((w : Words) → pending w pieces.new.items ≡ bytes.now ++ pending w pieces.old.items) }
{
    pieces.push(Piece::Bytes(bytes))?;
    Ok(())
}

/// The arguments of a state as values; none where no choice was taken.
fn arguments(alloc: Global, state: &State) -> Result<Trees, AllocError>
    ensures { IfOk result (λ ts. values_of ts ≡ plain_arguments (plain_state state.now)) }
{
    match state {
        State::Pending => Ok(Items::new(alloc)),
        State::Done { rule: _rule, args } => lift_all(alloc, args.as_slice()),
    }
}

/// Notes what a row is: open, or the rule that was taken with its arguments.
fn push_state<'t>(
    pieces: &mut Vec<Piece<'t>>,
    grammar: &'t Grammar,
    state: &State,
    args: &[Tree],
) -> Result<(), AllocError>
    requires { values_of args.now ≡ plain_arguments (plain_state state.now) }
    ensures { OnOk result (pending (words_of grammar.now) pieces.new.items ≡ state_text (words_of grammar.now) (plain_state state.now) ++ pending (words_of grammar.now) pieces.old.items) }
{
    match state {
        State::Pending => push_bytes(pieces, b"open"),
        State::Done {
            rule,
            args: _written,
        } => {
            push_bytes(pieces, b"}")?;
            push_listed(pieces, args, false)?;
            push_bytes(pieces, b" {")?;
            push_bytes(pieces, rule_name(grammar, *rule))
        }
    }
}

/// Notes a row with the name of its node and its arguments.
fn push_row<'t>(
    pieces: &mut Vec<Piece<'t>>,
    grammar: &'t Grammar,
    row: &Row,
    name: &'t [u8],
    args: &[Tree],
) -> Result<(), AllocError>
    requires name { name.now ≡ node_text (words_of grammar.now) row.now.node }
    requires args { values_of args.now ≡ plain_arguments (plain_state row.now.state) }
    ensures { OnOk result (pending (words_of grammar.now) pieces.new.items ≡ row_text (words_of grammar.now) (plain_row row.now) ++ pending (words_of grammar.now) pieces.old.items) }
{
    push_bytes(pieces, b">\n")?;
    push_listed(pieces, row.results.as_slice(), false)?;
    push_bytes(pieces, b") <")?;
    push_listed(pieces, row.inherited.as_slice(), false)?;
    push_bytes(pieces, b" (")?;
    push_state(pieces, grammar, &row.state, args)?;
    push_bytes(pieces, b" ")?;
    push_bytes(pieces, name)
}

/// Prints the line of a row.
fn print_row(
    alloc: Global,
    grammar: &Grammar,
    row: &Row,
    report: &mut Report,
) -> Result<(), PrintFault>
    ensures { Prints (row_text (words_of grammar.now) (plain_row row.now)) report.old report.new result }
{
    let mut name = Text::new(alloc);
    push_node(&mut name, grammar, &row.node)?;
    let args = arguments(alloc, &row.state)?;
    let mut pieces = Vec::new(alloc);
    push_row(&mut pieces, grammar, row, name.as_slice(), args.as_slice())?;
    print_pieces(alloc, grammar, pieces, report)
}

/// Prints one line for each row, in their order. Where the text would pass the report's limit, or memory is missing, the
/// report has got the front of the text.
pub fn print_rows(
    alloc: Global,
    grammar: &Grammar,
    rows: &[Row],
    report: &mut Report,
) -> Result<(), PrintFault>
    ensures { Prints (artifact_text (words_of grammar.now) (config_of rows.now)) report.old report.new result }
{
    for row in rows {
        print_row(alloc, grammar, row, report)?;
    }
    Ok(())
}
