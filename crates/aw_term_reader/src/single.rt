//! Readers of one token.
ghost use Rattle.std.specs.Prelude.{◌≡◌};
ghost use Rattle.aw_term_reader.specs.Lexemes.{slice, lexemes};
ghost use Rattle.aw_term_reader.specs.Forms as form;
ghost use Rattle.aw_term_reader.specs.Gives.{Gives};

use crate::unread::Unread;
use aw_lex::{Token, TokenKind};
use aw_spelling::number_value;

/// The bytes of a token of the line.
pub fn bytes_of<'a>(line: &'a [u8], token: Token) -> &'a [u8]
    ensures { result.now ≡ slice line.entry.now token }
{
    let start = token.start.min(line.len());
    let (_, behind) = line.split_at(start);
    let len = token.end.saturating_sub(token.start).min(behind.len());
    let (bytes, _) = behind.split_at(len);
    bytes
}

/// A name, and the tokens behind it.
pub fn name<'a>(line: &'a [u8], tokens: &'a [Token]) -> Result<(&'a [u8], &'a [Token]), Unread>
    ensures { Gives (λ x. (x.0.now, lexemes line.entry.now x.1.now)) result (form.name (lexemes line.entry.now tokens.entry.now)) }
{
    let [token, rest @ ..] = tokens else {
        return Err(Unread::Form);
    };
    match token.kind {
        TokenKind::Name => Ok((bytes_of(line, *token), rest)),
        _ => Err(Unread::Form),
    }
}

/// A number, and the tokens behind it.
pub fn number<'a>(line: &[u8], tokens: &'a [Token]) -> Result<(u64, &'a [Token]), Unread>
    ensures { Gives (λ x. (x.0, lexemes line.now x.1.now)) result (form.number (lexemes line.now tokens.entry.now)) }
{
    let [token, rest @ ..] = tokens else {
        return Err(Unread::Form);
    };
    match token.kind {
        TokenKind::Number => Ok((number_value(bytes_of(line, *token)).unwrap_or(0), rest)),
        _ => Err(Unread::Form),
    }
}

/// The text of a node name, and the tokens behind it.
pub fn node<'a>(line: &'a [u8], tokens: &'a [Token]) -> Result<(&'a [u8], &'a [Token]), Unread>
    ensures { Gives (λ x. (x.0.now, lexemes line.entry.now x.1.now)) result (form.node (lexemes line.entry.now tokens.entry.now)) }
{
    let [token, rest @ ..] = tokens else {
        return Err(Unread::Form);
    };
    match token.kind {
        TokenKind::Node => Ok((bytes_of(line, *token), rest)),
        _ => Err(Unread::Form),
    }
}

/// No tokens are left.
pub fn end(line: &[u8], tokens: &[Token]) -> Result<(), Unread>
    ensures { Gives (λ done. done) result (form.end (lexemes line.now tokens.now)) }
{
    match tokens {
        [] => Ok(()),
        _ => Err(Unread::Form),
    }
}
