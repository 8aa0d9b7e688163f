//! Tokens and lines.
use crate::words::{push_count, push_hex, push_word, push_yes};
use aw_lex::{LexFault, Token, TokenKind, is_passed_over, next_line, tokens};
use aw_list::Text;
use std::alloc::{AllocError, Global};

/// Adds the kind of a token.
fn push_kind(told: &mut Text, kind: TokenKind) -> Result<(), AllocError> {
    match kind {
        TokenKind::Name => push_word(told, b"name"),
        TokenKind::Number => push_word(told, b"number"),
        TokenKind::Node => push_word(told, b"node"),
        TokenKind::Text => push_word(told, b"text"),
        TokenKind::Mark(byte) => push_word(told, &[byte]),
    }
}

/// Adds the kind of a token, and where it begins and ends.
fn push_token(told: &mut Text, token: Token) -> Result<(), AllocError> {
    push_kind(told, token.kind)?;
    push_count(told, token.start as u64)?;
    push_count(told, token.end as u64)
}

/// Adds all tokens.
fn push_all(told: &mut Text, found: &[Token]) -> Result<(), AllocError> {
    for token in found {
        push_token(told, *token)?;
    }
    Ok(())
}

/// Adds the tokens of a line, or the place of what is none.
pub fn push_tokens(alloc: Global, told: &mut Text, line: &[u8]) -> Result<(), AllocError> {
    match tokens(alloc, line) {
        Ok(found) => push_all(told, found.as_slice()),
        Err(LexFault::Bad { at }) => {
            push_word(told, b"bad")?;
            push_count(told, at as u64)
        }
        Err(LexFault::NoMemory) => Err(AllocError),
    }
}

/// Adds the first line of a text, and what stands behind it.
pub fn push_line(alloc: Global, told: &mut Text, text: &[u8]) -> Result<(), AllocError> {
    match next_line(text) {
        Some((line, rest)) => {
            push_hex(alloc, told, line)?;
            push_hex(alloc, told, rest)
        }
        None => push_word(told, b"none"),
    }
}

/// Adds whether a line is passed over.
pub fn push_passed_over(told: &mut Text, line: &[u8]) -> Result<(), AllocError> {
    push_yes(told, is_passed_over(line))
}
