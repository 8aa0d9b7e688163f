//! Which choices may be asked of a grammar. The test takes no memory, and stops at the limits however large the arguments are.
ghost use Rattle.std.specs.Prelude.{◌≡◌, map, slice_get};
ghost use Rattle.aw_term.specs.Trees.{Con};
ghost use Rattle.aw_term.specs.Views.{ground_of};
ghost use Rattle.aw_term.specs.WellFormed.{head_fits};
ghost use Rattle.aw_grammar.specs.GrammarOf.{grammar_of};
ghost use Rattle.aw_choice.specs.ChoiceView.{choice_of};
ghost use Rattle.aw_base.specs.ChoiceFits.{args_ok, choice_ok};
ghost use Rattle.aw_base.specs.NodeNames.{is_start};
ghost use Rattle.aw_base.specs.Allowance.{left_after, left_after_all};

use crate::names::sort_of;
use aw_choice::Choice;
use aw_grammar::Grammar;
use aw_spelling::content_ok;
use aw_term::limits::{MOST_ARGUMENTS, MOST_LEVELS, MOST_SYMBOLS};
use aw_term::{Ground, Grounds};

/// Whether a constructor is declared with so many parts.
fn con_fits(g: &Grammar, con: u16, parts: usize) -> bool
    ensures { result ≡ head_fits (grammar_of g.now).arities (Con con) parts }
{
    match g.con(con) {
        Some(con) => usize::from(con.arity) == parts,
        None => false,
    }
}

/// How many of the allowed symbols an argument leaves; `None` where it does not fit, has more levels, or has more symbols.
#[cycle(allowance)]
fn left_after(g: &Grammar, t: &Ground, levels: u8, allowed: u16) -> Option<u16>
    ensures { result ≡ left_after (grammar_of g.now).arities levels allowed (ground_of t.now) }
{
    let levels = levels.checked_sub(1)?;
    let left = allowed.checked_sub(1)?;
    match t {
        Ground::Num(_) => Some(left),
        Ground::Text(text) => {
            if content_ok(text.as_slice()) {
                Some(left)
            } else {
                None
            }
        }
        Ground::Con(con, parts) => {
            if con_fits(g, *con, parts.len()) {
                left_after_all(g, parts.as_slice(), levels, left)
            } else {
                None
            }
        }
    }
}

/// The same for several arguments.
#[cycle(allowance)]
fn left_after_all(g: &Grammar, ts: &[Ground], levels: u8, allowed: u16) -> Option<u16>
    ensures { result ≡ left_after_all (grammar_of g.now).arities levels allowed (map ground_of ts.now) }
{
    let mut left = allowed;
    for t in ts {
        left = left_after(g, t, levels, left)?;
    }
    Some(left)
}

/// Whether arguments keep their limits: at most 8 of at most 256 symbols together, each at most 32 deep; and each constructor in them
/// has as many parts as it is declared with.
pub fn args_ok(g: &Grammar, args: &Grounds) -> bool
    ensures { result ≡ args_ok (grammar_of g.now) (map ground_of args.now) }
{
    args.len() <= MOST_ARGUMENTS
        && left_after_all(g, args.as_slice(), MOST_LEVELS, MOST_SYMBOLS).is_some()
}

/// Whether a sort is a start sort.
pub fn is_start(g: &Grammar, sort: u16) -> bool
    ensures { result ≡ is_start (slice_get (grammar_of g.now).sorts sort) }
{
    match g.sort(sort) {
        Some(sort) => sort.start,
        None => false,
    }
}

/// Whether a choice may be asked: a start of a start sort; or a declared rule on a valid node, with at most 8 arguments that have
/// at most 256 symbols together and are at most 32 deep, whose constructors are declared with so many parts and whose texts are contents.
pub fn choice_ok(g: &Grammar, c: &Choice) -> bool
    ensures { result ≡ choice_ok (grammar_of g.now) (choice_of c.now) }
{
    match c {
        Choice::Start { sort, .. } => is_start(g, *sort),
        Choice::Develop { node, rule, args } => {
            sort_of(g, node).is_some() && g.rule(*rule).is_some() && args_ok(g, args)
        }
    }
}
