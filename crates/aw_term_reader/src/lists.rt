//! Readers of lists of terms and of names between marks.
ghost use Rattle.std.specs.Prelude.{map};
ghost use Rattle.aw_grammar.specs.Written.{bare_name, written_of};
ghost use Rattle.aw_term_reader.specs.Lexemes.{lexemes};
ghost use Rattle.aw_term_reader.specs.Terms as list;
ghost use Rattle.aw_term_reader.specs.Forms as form;
ghost use Rattle.aw_term_reader.specs.Gives.{Gives};

use crate::reader::{some_terms_up_to, terms_up_to};
use crate::unread::Unread;
use aw_grammar::{Names, RawTerm, RawTerms};
use aw_lex::{Token, TokenKind};
use aw_list::Text;
use std::alloc::Global;

/// The tokens behind this mark.
pub fn mark<'a>(byte: u8, line: &[u8], tokens: &'a [Token]) -> Result<&'a [Token], Unread>
    ensures { Gives (λ x. lexemes line.now x.now) result (form.mark byte (lexemes line.now tokens.entry.now)) }
{
    let [token, rest @ ..] = tokens else {
        return Err(Unread::Form);
    };
    match token.kind {
        TokenKind::Mark(found) if found == byte => Ok(rest),
        _ => Err(Unread::Form),
    }
}

/// The terms between two marks, and the tokens behind them.
pub fn terms_between<'a>(
    alloc: Global,
    start: u8,
    close: u8,
    line: &[u8],
    tokens: &'a [Token],
) -> Result<(RawTerms, &'a [Token]), Unread>
    ensures { Gives (λ x. (map written_of x.0, lexemes line.now x.1.now)) result (form.terms_between start close (lexemes line.now tokens.entry.now)) }
{
    let inside = mark(start, line, tokens)?;
    terms_up_to(alloc, close, line, inside)
}

/// The name that a term is, handed on.
fn name_of(term: RawTerm) -> Result<Text, Unread>
    ensures { Gives (λ x. x) result (bare_name (written_of term)) }
{
    match term.into_name() {
        Some(name) => Ok(name),
        None => Err(Unread::Form),
    }
}

fn names_of(alloc: Global, terms: RawTerms) -> Result<Names, Unread>
    ensures { Gives (λ x. x) result (list.names_of (map written_of terms)) }
{
    let mut names = Names::new(alloc);
    for term in terms.into_vec() {
        names.push(name_of(term)?)?;
    }
    Ok(names)
}

/// The names between two marks, and the tokens behind them.
pub fn names_between<'a>(
    alloc: Global,
    start: u8,
    close: u8,
    line: &[u8],
    tokens: &'a [Token],
) -> Result<(Names, &'a [Token]), Unread>
    ensures { Gives (λ x. (x.0, lexemes line.now x.1.now)) result (form.names_between start close (lexemes line.now tokens.entry.now)) }
{
    let (terms, rest) = terms_between(alloc, start, close, line, tokens)?;
    let names = names_of(alloc, terms)?;
    Ok((names, rest))
}

/// Nothing, or one term or more between braces, and the tokens behind them.
pub fn terms_in_braces<'a>(
    alloc: Global,
    line: &[u8],
    tokens: &'a [Token],
) -> Result<(RawTerms, &'a [Token]), Unread>
    ensures { Gives (λ x. (map written_of x.0, lexemes line.now x.1.now)) result (form.terms_in_braces (lexemes line.now tokens.entry.now)) }
{
    match tokens {
        [
            Token {
                kind: TokenKind::Mark(b'{'),
                ..
            },
            inside @ ..,
        ] => some_terms_up_to(alloc, b'}', line, inside),
        _ => Ok((RawTerms::new(alloc), tokens)),
    }
}

/// Nothing, or one name or more between braces, and the tokens behind them.
pub fn names_in_braces<'a>(
    alloc: Global,
    line: &[u8],
    tokens: &'a [Token],
) -> Result<(Names, &'a [Token]), Unread>
    ensures { Gives (λ x. (x.0, lexemes line.now x.1.now)) result (form.names_in_braces (lexemes line.now tokens.entry.now)) }
{
    let (terms, rest) = terms_in_braces(alloc, line, tokens)?;
    let names = names_of(alloc, terms)?;
    Ok((names, rest))
}
