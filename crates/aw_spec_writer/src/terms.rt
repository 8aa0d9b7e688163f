//! Written terms of a rule. A number that is not declared prints as an empty name.
ghost use Rattle.std.specs.Prelude.{◌≡◌, ◌++◌, OnOk, map};
ghost use Rattle.aw_term.specs.Views.{head_of, pattern_of, term_of};
ghost use Rattle.aw_term.specs.WellFormed.{Each};
ghost use Rattle.aw_grammar.specs.GrammarOf.{words_of};
ghost use Rattle.aw_spec_writer.specs.LineTexts.{literal_text, term_text, terms_text};
ghost use Rattle.aw_spec_writer.specs.SpecLines.{named};
ghost use Rattle.aw_spec_writer.specs.Writable.{IsSmall, NumbersFit};

use crate::names::name_at;
use aw_base::{Grammar, con_name};
use aw_list::Text;
use aw_spelling::{push_number, push_quoted};
use aw_term::{Expr, Lit, Pattern, Patterns, Terms};
use std::alloc::AllocError;

/// Adds a number or a text.
fn push_literal(text: &mut Text, lit: &Lit) -> Result<(), AllocError>
    ensures text { OnOk result (text.new ≡ text.old ++ literal_text (head_of lit.now)) }
    ensures numbers { IsSmall (head_of lit.now) }
{
    match lit {
        Lit::Num(n) => push_number(text, *n),
        Lit::Text(content) => push_quoted(text, content.as_slice()),
    }
}

/// Adds a pattern.
#[cycle(patterns)]
pub(crate) fn push_pattern(
    text: &mut Text,
    g: &Grammar,
    vars: &[Text],
    pattern: &Pattern,
) -> Result<(), AllocError>
    ensures text { OnOk result (text.new ≡ text.old ++ term_text (named (words_of g.now).cons vars.now (pattern_of pattern.now))) }
    ensures numbers { OnOk result (NumbersFit (pattern_of pattern.now)) }
{
    match pattern {
        Pattern::Var(number) => text.push_bytes(name_at(vars, *number)),
        Pattern::Lit(lit) => push_literal(text, lit),
        Pattern::Con(con, parts) => {
            text.push_bytes(con_name(g, *con))?;
            if parts.is_empty() {
                return Ok(());
            }
            text.push_bytes(b"(")?;
            push_patterns(text, g, vars, parts)?;
            text.push_bytes(b")")
        }
    }
}

/// Adds patterns, with a comma and a space between each two.
#[cycle(patterns)]
pub(crate) fn push_patterns(
    text: &mut Text,
    g: &Grammar,
    vars: &[Text],
    patterns: &Patterns,
) -> Result<(), AllocError>
    ensures text { OnOk result (text.new ≡ text.old ++ terms_text (map (named (words_of g.now).cons vars.now) (map pattern_of patterns.now))) }
    ensures numbers { OnOk result (Each NumbersFit (map pattern_of patterns.now)) }
{
    let mut separator = b"".as_slice();
    for pattern in patterns.as_slice() {
        text.push_bytes(separator)?;
        push_pattern(text, g, vars, pattern)?;
        separator = b", ";
    }
    Ok(())
}

/// Adds an argument or a result.
#[cycle(terms)]
pub(crate) fn push_term(
    text: &mut Text,
    g: &Grammar,
    vars: &[Text],
    term: &Expr,
) -> Result<(), AllocError>
    ensures text { OnOk result (text.new ≡ text.old ++ term_text (named (words_of g.now).cons vars.now (term_of term.now))) }
    ensures numbers { OnOk result (NumbersFit (term_of term.now)) }
{
    match term {
        Expr::Var(number) => text.push_bytes(name_at(vars, *number)),
        Expr::Lit(lit) => push_literal(text, lit),
        Expr::Con(con, parts) => {
            text.push_bytes(con_name(g, *con))?;
            if parts.is_empty() {
                return Ok(());
            }
            text.push_bytes(b"(")?;
            push_terms(text, g, vars, parts)?;
            text.push_bytes(b")")
        }
    }
}

/// Adds arguments or results, with a comma and a space between each two.
#[cycle(terms)]
pub(crate) fn push_terms(
    text: &mut Text,
    g: &Grammar,
    vars: &[Text],
    terms: &Terms,
) -> Result<(), AllocError>
    ensures text { OnOk result (text.new ≡ text.old ++ terms_text (map (named (words_of g.now).cons vars.now) (map term_of terms.now))) }
    ensures numbers { OnOk result (Each NumbersFit (map term_of terms.now)) }
{
    let mut separator = b"".as_slice();
    for term in terms.as_slice() {
        text.push_bytes(separator)?;
        push_term(text, g, vars, term)?;
        separator = b", ";
    }
    Ok(())
}
