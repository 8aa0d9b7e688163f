//! The tokens of a line.
ghost use Rattle.std.specs.Prelude.{◌≡◌, IfOk, OnOk};
ghost use Rattle.aw_lex.specs.Tokens.{tokens_of, Lexed, LexedInto, AreSlices};

use crate::front::{Front, front_of};
use aw_list::Items;
use std::alloc::{AllocFailed, Global};

/// What a token is.
#[derive(Clone, Copy, Debug, PartialEq, Eq)]
pub enum TokenKind {
    /// A word of a role, a constructor, a sort, a rule or a variable, or a keyword.
    Name,
    /// A number in decimal digits.
    Number,
    /// The name of a node.
    Node,
    /// A text in quotes.
    Text,
    /// One of `( ) < > { } , : = ;`.
    Mark(u8),
}

/// A token, which is the slice of its line from `start` up to `end`.
#[derive(Clone, Copy, Debug, PartialEq, Eq)]
pub struct Token {
    pub kind: TokenKind,
    pub start: usize,
    pub end: usize,
}

/// The tokens of a line, in order.
pub type Tokens = Items<Token>;

/// Why a line has no tokens.
#[derive(Clone, Copy, Debug, PartialEq, Eq)]
pub enum LexFault {
    /// The place of the first byte of the first item that is no token.
    Bad { at: usize },
    /// There is no memory for the tokens.
    NoMemory,
}

impl<T: Drop> From<AllocFailed<T>> for LexFault {
    ghost use Rattle.std.specs.Prelude.{◌≡◌};
    ghost use Rattle.aw_lex.specs.declared.token.LexFault.TheVariants.{NoMemory};

    ghost from_gives = { λ _ e. e ≡ NoMemory };

    fn from(_failed: AllocFailed<T>) -> LexFault {
        LexFault::NoMemory
    }
}

/// Reads the tokens of a line, in order, in place of those that a list holds, and keeps its memory: one list serves line after line.
/// A line that holds anything else is `Bad` at the first such item. An error leaves any tokens in the list.
pub fn read_tokens(found: &mut Tokens, line: &[u8]) -> Result<(), LexFault>
    ensures exact { LexedInto found.new result (tokens_of line.now) }
    ensures slices { OnOk result (AreSlices line.now 0 found.new) }
{
    found.truncate(0);
    let mut at = 0;
    while at < line.len() {
        let (_, rest) = line.split_at(at);
        match front_of(rest) {
            Front::Blank => at += 1,
            Front::Token(kind, len) => {
                let end = at + len;
                found.push(Token {
                    kind,
                    start: at,
                    end,
                })?;
                at = end;
            }
            Front::Bad => return Err(LexFault::Bad { at }),
        }
    }
    Ok(())
}

/// The tokens of a line, in order. A line that holds anything else is `Bad` at the first such item.
pub fn tokens(alloc: Global, line: &[u8]) -> Result<Tokens, LexFault>
    ensures exact { Lexed result (tokens_of line.now) }
    ensures slices { IfOk result (λ found. AreSlices line.now 0 found) }
{
    let mut found = Tokens::new(alloc);
    read_tokens(&mut found, line)?;
    Ok(found)
}
