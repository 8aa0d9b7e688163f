//! Where a grammar is circular.
ghost use Rattle.std.specs.Prelude.{◌≡◌, ◌++◌, OnOk, OnErr, IfOk};
ghost use Rattle.aw_grammar.specs.GrammarOf.{words_of};
ghost use Rattle.aw_check_text.specs.Told.{side_text, occ_text, circle_text};

use aw_accept::Fault;
use aw_base::rule_name;
use aw_grammar::Grammar;
use aw_iograph::Occ;
use aw_list::Text;
use aw_spelling::push_number;
use std::alloc::{AllocError, Global};

/// The word for results, or for inherited values.
fn side(is_result: bool) -> &'static [u8]
    ensures { result.now ≡ side_text is_result }
{
    if is_result { b"out" } else { b"in" }
}

/// Adds `1.in2`, or `0.out1`.
fn push_occ(text: &mut Text, occ: Occ) -> Result<(), AllocError>
    ensures { OnOk result (text.new ≡ text.old ++ occ_text occ) }
{
    push_number(text, u64::from(occ.child))?;
    text.push_bytes(b".")?;
    text.push_bytes(side(occ.result))?;
    push_number(text, u64::from(occ.number))
}

/// `loop at 1.in1`: a rule, and an occurrence in it that depends on itself.
fn circle_text(alloc: Global, g: &Grammar, fault: Fault) -> Result<Text, AllocError>
    ensures { IfOk result (λ text. text ≡ circle_text (words_of g.now) fault) }
{
    let mut text = Text::from_bytes(alloc, rule_name(g, fault.rule))?;
    text.push_bytes(b" at ")?;
    push_occ(&mut text, fault.occ)?;
    Ok(text)
}

/// Adds `loop at 1.in1`: a rule, and an occurrence in it that depends on itself. An error changes nothing.
pub fn push_circle(text: &mut Text, g: &Grammar, fault: Fault) -> Result<(), AllocError>
    ensures ok { OnOk result (text.new ≡ text.old ++ circle_text (words_of g.now) fault) }
    ensures err { OnErr result (text.new ≡ text.old) }
{
    let added = circle_text(text.allocator(), g, fault)?;
    text.push_bytes(added.as_slice())
}
