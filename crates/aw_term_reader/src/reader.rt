//! Reading written terms, one token after the other, on a stack of its own.
ghost use Rattle.std.specs.Prelude.{◌≡◌, [], map, ℕ, List, IfOk, OnOk, unwrap_or};
ghost use Rattle.aw_grammar.specs.Written.{written_of};
ghost use Rattle.aw_term_reader.specs.Lexemes.{lexeme, lexemes, said};
ghost use Rattle.aw_term_reader.specs.Lexemes as lex;
ghost use Rattle.aw_spelling.specs.Spelling.{unquoted};
ghost use Rattle.aw_term_reader.specs.Terms as terms;
ghost use Rattle.aw_term_reader.specs.Reader.{expected_of, reading_of, Does};
ghost use Rattle.aw_term_reader.specs.Gives.{Gives};

use crate::single::bytes_of;
use crate::unread::Unread;
use aw_grammar::{Lit, RawTerm, RawTerms};
use aw_lex::{Token, TokenKind};
use aw_list::{Items, Text};
use aw_spelling::{content_value, number_value};
use std::alloc::{AllocError, Global};
use std::mem;

/// A constructor whose parts are being read, and the terms that stand before it.
#[derive(Debug, Drop)]
struct Opened {
    name: Text,
    before: RawTerms,
}

/// What may come next.
#[derive(Debug, Drop)]
enum Expected {
    TermOrEnd,
    TermOnly,
    CommaOrEnd,
    /// What may follow this bare name.
    BehindName(Text),
}

/// Terms as far as they are read. A written term may be as deep as a line is long, so constructors that are open stand on a stack, the
/// innermost last.
#[derive(Debug, Drop)]
struct TermReader {
    opened: Items<Opened>,
    terms: RawTerms,
    expected: Expected,
}

/// What one token does.
#[derive(Clone, Copy, Debug)]
enum Read {
    /// Reading goes on.
    On,
    /// The list is at its end.
    AtEnd,
}

fn content_of(alloc: Global, bytes: &[u8]) -> Result<Text, AllocError>
    ensures { IfOk result (λ text. text ≡ unwrap_or (unquoted bytes.now) []) }
{
    match content_value(alloc, bytes)? {
        Some(content) => Ok(content),
        None => Ok(Text::new(alloc)),
    }
}

impl TermReader {
    fn new(alloc: Global, expected: Expected) -> TermReader
        ensures { reading_of result ≡ terms.nothing_read (expected_of expected) }
    {
        TermReader {
            opened: Items::new(alloc),
            terms: RawTerms::new(alloc),
            expected,
        }
    }

    fn push_term(&mut self, term: RawTerm) -> Result<(), AllocError>
        ensures { OnOk result (reading_of self.new ≡ terms.with_term (reading_of self.old) (written_of term)) }
    {
        self.terms.push(term)?;
        self.expected = Expected::CommaOrEnd;
        Ok(())
    }

    /// What a closing mark does.
    fn at_close(&mut self, close: u8, mark: u8) -> Result<Read, Unread>
        ensures { Does self.new result (terms.closed close (reading_of self.old).opened (reading_of self.old).terms mark) }
    {
        match self.opened.pop() {
            None if mark == close => Ok(Read::AtEnd),
            Some(Opened { name, before }) if mark == b')' => {
                let parts = mem::replace(&mut self.terms, before);
                self.push_term(RawTerm::Apply(name, parts))?;
                Ok(Read::On)
            }
            _ => Err(Unread::Form),
        }
    }

    /// What a token does where a term is to come.
    fn at_term(&mut self, line: &[u8], token: Token) -> Result<Read, Unread>
        ensures { Does self.new result (terms.at_term (reading_of self.old) (lexeme line.now token)) }
    {
        let alloc = self.terms.allocator();
        let bytes = bytes_of(line, token);
        match token.kind {
            TokenKind::Name => {
                self.expected = Expected::BehindName(Text::from_bytes(alloc, bytes)?);
                Ok(Read::On)
            }
            TokenKind::Number => {
                let number = Lit::Num(number_value(bytes).unwrap_or(0));
                self.push_term(RawTerm::Lit(number))?;
                Ok(Read::On)
            }
            TokenKind::Text => {
                let text = Lit::Text(content_of(alloc, bytes)?);
                self.push_term(RawTerm::Lit(text))?;
                Ok(Read::On)
            }
            TokenKind::Node | TokenKind::Mark(_) => Err(Unread::Form),
        }
    }

    /// What a mark does behind a term.
    fn at_comma(&mut self, close: u8, mark: u8) -> Result<Read, Unread>
        ensures { Does self.new result (terms.at_comma close (reading_of self.old) (lex.Mark mark)) }
    {
        if mark == b',' {
            self.expected = Expected::TermOnly;
            Ok(Read::On)
        } else {
            self.at_close(close, mark)
        }
    }

    /// What a token does where a list begins.
    fn at_start(&mut self, close: u8, line: &[u8], token: Token) -> Result<Read, Unread>
        ensures { Does self.new result (terms.at_start close (reading_of self.old) (lexeme line.now token)) }
    {
        match token.kind {
            TokenKind::Mark(mark) => self.at_close(close, mark),
            _ => self.at_term(line, token),
        }
    }

    /// Parentheses open behind a bare name: its parts follow.
    fn open(&mut self, name: Text) -> Result<(), AllocError>
        ensures { OnOk result (reading_of self.new ≡ terms.with_opened (reading_of self.old) name) }
    {
        let alloc = self.terms.allocator();
        let before = mem::replace(&mut self.terms, RawTerms::new(alloc));
        self.opened.push(Opened { name, before })?;
        self.expected = Expected::TermOrEnd;
        Ok(())
    }

    /// What a mark does behind a bare name.
    fn behind_name(&mut self, name: Text, close: u8, mark: u8) -> Result<Read, Unread>
        ensures { Does self.new result (terms.behind_name close (reading_of self.old) name (lex.Mark mark)) }
    {
        if mark == b'(' {
            self.open(name)?;
            Ok(Read::On)
        } else {
            self.push_term(RawTerm::Word(name))?;
            self.at_comma(close, mark)
        }
    }
}

impl TermReader {
    /// What a token does behind a term; only a mark has a place there.
    fn at_end(&mut self, close: u8, kind: TokenKind) -> Result<Read, Unread>
        ensures { (bytes : List ℕ) → Does self.new result (terms.at_comma close (reading_of self.old) (said kind bytes)) }
    {
        match kind {
            TokenKind::Mark(mark) => self.at_comma(close, mark),
            _ => Err(Unread::Form),
        }
    }

    /// What a token does behind a bare name; only a mark has a place there.
    fn at_name(&mut self, name: Text, close: u8, kind: TokenKind) -> Result<Read, Unread>
        ensures { (bytes : List ℕ) → Does self.new result (terms.behind_name close (reading_of self.old) name (said kind bytes)) }
    {
        match kind {
            TokenKind::Mark(mark) => self.behind_name(name, close, mark),
            _ => Err(Unread::Form),
        }
    }

    /// What a token does. The reader is of no use after an error.
    fn read_one(&mut self, close: u8, line: &[u8], token: Token) -> Result<Read, Unread>
        ensures { Does self.new result (terms.read_one close (reading_of self.old) (reading_of self.old).expected (lexeme line.now token)) }
    {
        match mem::replace(&mut self.expected, Expected::CommaOrEnd) {
            Expected::BehindName(name) => self.at_name(name, close, token.kind),
            Expected::TermOrEnd => self.at_start(close, line, token),
            Expected::TermOnly => self.at_term(line, token),
            Expected::CommaOrEnd => self.at_end(close, token.kind),
        }
    }
}

fn read_terms<'a>(
    alloc: Global,
    close: u8,
    expected: Expected,
    line: &[u8],
    tokens: &'a [Token],
) -> Result<(RawTerms, &'a [Token]), Unread>
    ensures { Gives (λ x. (map written_of x.0, lexemes line.now x.1.now)) result (terms.read_terms close (terms.nothing_read (expected_of expected)) (lexemes line.now tokens.entry.now)) }
{
    let mut reader = TermReader::new(alloc, expected);
    let mut rest = tokens;
    while let [token, behind @ ..] = rest {
        match reader.read_one(close, line, *token)? {
            Read::On => rest = behind,
            Read::AtEnd => return Ok((reader.terms, behind)),
        }
    }
    Err(Unread::Form)
}

/// Terms that end at a closing mark, none or more, and the tokens behind them.
pub fn terms_up_to<'a>(
    alloc: Global,
    close: u8,
    line: &[u8],
    tokens: &'a [Token],
) -> Result<(RawTerms, &'a [Token]), Unread>
    ensures { Gives (λ x. (map written_of x.0, lexemes line.now x.1.now)) result (terms.terms_up_to close (lexemes line.now tokens.entry.now)) }
{
    read_terms(alloc, close, Expected::TermOrEnd, line, tokens)
}

/// Terms that end at a closing mark, one or more, and the tokens behind them.
pub fn some_terms_up_to<'a>(
    alloc: Global,
    close: u8,
    line: &[u8],
    tokens: &'a [Token],
) -> Result<(RawTerms, &'a [Token]), Unread>
    ensures { Gives (λ x. (map written_of x.0, lexemes line.now x.1.now)) result (terms.some_terms_up_to close (lexemes line.now tokens.entry.now)) }
{
    read_terms(alloc, close, Expected::TermOnly, line, tokens)
}
