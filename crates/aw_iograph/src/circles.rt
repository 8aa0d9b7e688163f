//! Whether an occurrence of a rule depends on itself.
ghost use Rattle.std.specs.Prelude.{◌≡◌, ◌<◌, length, slice_get, Some, IfOk};
ghost use Rattle.aw_term.specs.Rules as P;
ghost use Rattle.aw_grammar.specs.GrammarOf.{grammar_of};
ghost use Rattle.aw_iograph.specs.Dependence.{LeastOnCircle};
ghost use Rattle.aw_iograph.specs.Pairs.{Has};
ghost use Rattle.aw_iograph.specs.Rows.{FirstInOwnRow};

use crate::io::Io;
use crate::joins::rule_rows;
use crate::occ::Occ;
use crate::rows::has_bit;
use crate::rules::small_rule;
use aw_grammar::Grammar;
use std::alloc::{AllocError, Global};

/// The bits of a row: one for each of 8 inherited values of the left side and of each of 8 children.
const BITS: u8 = 72;

/// The inherited values of a child, or of the left side, have the numbers from 1 up to this one.
const LAST: u8 = 8;

/// The first inherited value that is in the row of its own place.
fn first_on_circle(rows: &[u128]) -> Option<Occ>
    requires { length rows.now ≡ 144 }
    ensures { FirstInOwnRow rows.now result }
{
    for bit in 0..BITS {
        let at = Occ {
            child: bit / LAST,
            result: false,
            number: bit % LAST + 1,
        };
        if has_bit(rows[at.place()], bit) {
            return Some(at);
        }
    }
    None
}

/// The least occurrence of a rule that reaches itself over the text of the rule and the relations at its children.
///
/// A circle leads through a child, and comes to a result of it from one of its inherited values. So the least occurrence on a
/// circle is an inherited value.
pub fn circle(alloc: Global, g: &Grammar, io: &Io, rule: u16) -> Result<Option<Occ>, AllocError>
    requires { rule < length g.now.rules }
    ensures { IfOk result (λ found. (r : P.Rule) → slice_get (grammar_of g.now).rules rule ≡ Some r → LeastOnCircle (Has io.now) r found) }
{
    let rule = small_rule(g, usize::from(rule));
    let rows = rule_rows(alloc, g, io, rule)?;
    Ok(first_on_circle(rows.as_slice()))
}
