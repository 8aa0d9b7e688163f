//! Reading one line of a specification from its tokens.
ghost use Rattle.std.specs.Prelude.{◌≡◌, ◌<◌, ◌∷◌, length, map, IfSome, option_map, position};
ghost use Rattle.std.specs.Option.{option_copied};
ghost use Rattle.aw_term.specs.Trees.{nats_eq};
ghost use Rattle.aw_grammar.specs.Written.{child_of_raw, written_of};
ghost use Rattle.aw_term_reader.specs.Lexemes.{lexemes};
ghost use Rattle.aw_term_reader.specs.Gives.{Gives};
ghost use Rattle.aw_term_reader.specs.Forms.{only};
ghost use Rattle.aw_spec.specs.Lines as lines;
ghost use Rattle.aw_spec.specs.ReadLine as read;
ghost use Rattle.aw_spec.specs.Pieces.{parts_children, pieces_behind};
ghost use Rattle.aw_spec.specs.Views.{line_seen};

use crate::line::SpecLine;
use aw_base::{Names, RawChild, RawChildren, RawCon, RawRule, RawSort, RawTerms};
use aw_lex::{Token, TokenKind};
use aw_list::Text;
use aw_term_reader::{
    Unread, end, mark, name, names_between, names_in_braces, number, terms_between,
};
use std::alloc::Global;

fn parts_children(kind: TokenKind) -> bool
    ensures { result ≡ parts_children kind }
{
    match kind {
        TokenKind::Mark(byte) => byte == b';',
        _ => false,
    }
}

fn place_of_semicolon(tokens: &[Token]) -> Option<usize>
    ensures value { result ≡ position (λ t. parts_children t.kind) tokens.now }
    ensures within { IfSome result (λ at. at < length tokens.now) }
{
    tokens.iter().position(|token| parts_children(token.kind))
}

/// The tokens before the first `;`, and those behind it.
fn first_piece<'a>(line: &[u8], tokens: &'a [Token]) -> (&'a [Token], Option<&'a [Token]>)
    ensures value { read.pieces (lexemes line.now tokens.entry.now) ≡ lexemes line.now result.0.now ∷ pieces_behind (option_map (lexemes line.now) (option_copied result.1)) }
    ensures shorter { IfSome result.1 (λ rest. length rest.now < length tokens.entry.now) }
{
    match place_of_semicolon(tokens) {
        Some(at) => {
            let (piece, behind) = tokens.split_at(at);
            let (_, rest) = behind.split_at(1);
            (piece, Some(rest))
        }
        None => (tokens, None),
    }
}

/// A subtask, and nothing behind it.
fn child_of(alloc: Global, line: &[u8], tokens: &[Token]) -> Result<RawChild, Unread>
    ensures { Gives child_of_raw result (read.child_of (lexemes line.now tokens.now)) }
{
    let (sort, rest) = name(line, tokens)?;
    let (args, rest) = terms_between(alloc, b'(', b')', line, rest)?;
    let (results, rest) = names_between(alloc, b'<', b'>', line, rest)?;
    end(line, rest)?;
    Ok(RawChild {
        sort: Text::from_bytes(alloc, sort)?,
        args,
        results,
    })
}

fn children_of(alloc: Global, line: &[u8], tokens: &[Token]) -> Result<RawChildren, Unread>
    ensures { Gives (λ x. map child_of_raw x) result (read.children_of (read.pieces (lexemes line.now tokens.now))) }
{
    let mut children = RawChildren::new(alloc);
    let mut left = Some(tokens);
    while let Some(rest) = left {
        let (piece, behind) = first_piece(line, rest);
        children.push(child_of(alloc, line, piece)?)?;
        left = behind;
    }
    Ok(children)
}

/// Nothing, or `=` and children.
fn rest_of_rule(alloc: Global, line: &[u8], tokens: &[Token]) -> Result<RawChildren, Unread>
    ensures { Gives (λ x. map child_of_raw x) result (read.rest_of_rule (lexemes line.now tokens.now)) }
{
    match tokens {
        [] => Ok(RawChildren::new(alloc)),
        [
            Token {
                kind: TokenKind::Mark(b'='),
                ..
            },
            rest @ ..,
        ] => children_of(alloc, line, rest),
        _ => Err(Unread::Form),
    }
}

fn role_line(alloc: Global, line: &[u8], tokens: &[Token]) -> Result<SpecLine, Unread>
    ensures { Gives line_seen result (read.role_line (lexemes line.now tokens.now)) }
{
    let (role, rest) = name(line, tokens)?;
    end(line, rest)?;
    Ok(SpecLine::Role(Text::from_bytes(alloc, role)?))
}

fn con_line(alloc: Global, line: &[u8], tokens: &[Token]) -> Result<SpecLine, Unread>
    ensures { Gives line_seen result (read.con_line (lexemes line.now tokens.now)) }
{
    let (con, rest) = name(line, tokens)?;
    let (arity, rest) = number(line, rest)?;
    end(line, rest)?;
    Ok(SpecLine::Con(RawCon {
        name: Text::from_bytes(alloc, con)?,
        arity,
    }))
}

fn sort_line(alloc: Global, line: &[u8], tokens: &[Token]) -> Result<SpecLine, Unread>
    ensures { Gives line_seen result (read.sort_line (lexemes line.now tokens.now)) }
{
    let (sort, rest) = name(line, tokens)?;
    let (role, rest) = name(line, rest)?;
    let (takes, rest) = number(line, rest)?;
    let (gives, rest) = number(line, rest)?;
    end(line, rest)?;
    Ok(SpecLine::Sort(RawSort {
        name: Text::from_bytes(alloc, sort)?,
        role: Text::from_bytes(alloc, role)?,
        takes,
        gives,
    }))
}

fn start_line(alloc: Global, line: &[u8], tokens: &[Token]) -> Result<SpecLine, Unread>
    ensures { Gives line_seen result (read.start_line (lexemes line.now tokens.now)) }
{
    let (sort, rest) = name(line, tokens)?;
    end(line, rest)?;
    Ok(SpecLine::Start(Text::from_bytes(alloc, sort)?))
}

fn offer_line(alloc: Global, line: &[u8], tokens: &[Token]) -> Result<SpecLine, Unread>
    ensures { Gives line_seen result (read.offer_line (lexemes line.now tokens.now)) }
{
    let (sort, rest) = name(line, tokens)?;
    end(line, rest)?;
    Ok(SpecLine::Offer(Text::from_bytes(alloc, sort)?))
}

fn use_line(alloc: Global, line: &[u8], tokens: &[Token]) -> Result<SpecLine, Unread>
    ensures { Gives line_seen result (read.use_line (lexemes line.now tokens.now)) }
{
    let (role, rest) = name(line, tokens)?;
    let (sort, rest) = name(line, rest)?;
    end(line, rest)?;
    Ok(SpecLine::Use {
        role: Text::from_bytes(alloc, role)?,
        sort: Text::from_bytes(alloc, sort)?,
    })
}

fn type_line(alloc: Global, line: &[u8], tokens: &[Token]) -> Result<SpecLine, Unread>
    ensures { Gives line_seen result (read.type_line (lexemes line.now tokens.now)) }
{
    let (declared, rest) = name(line, tokens)?;
    end(line, rest)?;
    Ok(SpecLine::NewType(Text::from_bytes(alloc, declared)?))
}

fn shape_line(alloc: Global, line: &[u8], tokens: &[Token]) -> Result<SpecLine, Unread>
    ensures { Gives line_seen result (read.shape_line (lexemes line.now tokens.now)) }
{
    let (con, rest) = name(line, tokens)?;
    let (parts, rest) = names_between(alloc, b'(', b')', line, rest)?;
    let (own, rest) = name(line, rest)?;
    end(line, rest)?;
    Ok(SpecLine::Shape {
        con: Text::from_bytes(alloc, con)?,
        parts,
        own: Text::from_bytes(alloc, own)?,
    })
}

fn carry_line(alloc: Global, line: &[u8], tokens: &[Token]) -> Result<SpecLine, Unread>
    ensures { Gives line_seen result (read.carry_line (lexemes line.now tokens.now)) }
{
    let (sort, rest) = name(line, tokens)?;
    let (takes, rest) = names_between(alloc, b'(', b')', line, rest)?;
    let (gives, rest) = names_between(alloc, b'<', b'>', line, rest)?;
    end(line, rest)?;
    Ok(SpecLine::Carry {
        sort: Text::from_bytes(alloc, sort)?,
        takes,
        gives,
    })
}

fn depends_line(alloc: Global, line: &[u8], tokens: &[Token]) -> Result<SpecLine, Unread>
    ensures { Gives line_seen result (read.depends_line (lexemes line.now tokens.now)) }
{
    let (sort, rest) = name(line, tokens)?;
    let (i, rest) = number(line, rest)?;
    let (j, rest) = number(line, rest)?;
    end(line, rest)?;
    Ok(SpecLine::Depends {
        sort: Text::from_bytes(alloc, sort)?,
        i,
        j,
    })
}

fn free_line(line: &[u8], tokens: &[Token]) -> Result<SpecLine, Unread>
    ensures { Gives line_seen result (only lines.FreeLine (lexemes line.now tokens.now)) }
{
    end(line, tokens)?;
    Ok(SpecLine::Free)
}

/// A rule's patterns and results, and its children.
type RuleSides = ((RawTerms, RawTerms), RawChildren);

/// What stands behind a rule's sort.
fn sides_of_rule(alloc: Global, line: &[u8], tokens: &[Token]) -> Result<RuleSides, Unread>
    ensures { Gives (λ x. ((map written_of x.0.0, map written_of x.0.1), map child_of_raw x.1)) result (read.sides_of_rule (lexemes line.now tokens.now)) }
{
    let (patterns, rest) = terms_between(alloc, b'(', b')', line, tokens)?;
    let (results, rest) = terms_between(alloc, b'<', b'>', line, rest)?;
    let children = rest_of_rule(alloc, line, rest)?;
    Ok(((patterns, results), children))
}

/// The rule of this name, these parameters and this sort, and what stands behind them.
fn rule_behind(
    alloc: Global,
    rule: &[u8],
    params: Names,
    sort: &[u8],
    line: &[u8],
    tokens: &[Token],
) -> Result<SpecLine, Unread>
    ensures { Gives line_seen result (read.rule_behind rule.now params sort.now (lexemes line.now tokens.now)) }
{
    let ((patterns, results), children) = sides_of_rule(alloc, line, tokens)?;
    Ok(SpecLine::Rule(RawRule {
        name: Text::from_bytes(alloc, rule)?,
        params,
        sort: Text::from_bytes(alloc, sort)?,
        patterns,
        results,
        children,
    }))
}

fn rule_line(alloc: Global, line: &[u8], tokens: &[Token]) -> Result<SpecLine, Unread>
    ensures { Gives line_seen result (read.rule_line (lexemes line.now tokens.now)) }
{
    let (rule, rest) = name(line, tokens)?;
    let (params, rest) = names_in_braces(alloc, line, rest)?;
    let rest = mark(b':', line, rest)?;
    let (sort, rest) = name(line, rest)?;
    rule_behind(alloc, rule, params, sort, line, rest)
}

/// The number of a version: 2 alone, in which messages carry loads.
fn version_line(line: &[u8], tokens: &[Token]) -> Result<SpecLine, Unread>
    ensures { Gives line_seen result (read.version_line (lexemes line.now tokens.now)) }
{
    let (version, rest) = number(line, tokens)?;
    if version != 2 {
        return Err(Unread::Form);
    }
    end(line, rest)?;
    Ok(SpecLine::Schedule { loads: true })
}

/// Nothing behind the word, or the number of a version.
fn schedule_line(line: &[u8], tokens: &[Token]) -> Result<SpecLine, Unread>
    ensures { Gives line_seen result (read.schedule_line (lexemes line.now tokens.now)) }
{
    match tokens {
        [] => Ok(SpecLine::Schedule { loads: false }),
        _ => version_line(line, tokens),
    }
}

fn is_word(word: &[u8], wanted: &[u8]) -> bool
    ensures { result ≡ nats_eq word.now wanted.now }
{
    word == wanted
}

/// The line that the tokens spell, where they spell one.
pub fn parse_line(alloc: Global, line: &[u8], tokens: &[Token]) -> Result<SpecLine, Unread>
    ensures { Gives line_seen result (read.line_of (lexemes line.now tokens.now)) }
{
    let (word, rest) = name(line, tokens)?;
    if is_word(word, b"role") {
        role_line(alloc, line, rest)
    } else if is_word(word, b"con") {
        con_line(alloc, line, rest)
    } else if is_word(word, b"sort") {
        sort_line(alloc, line, rest)
    } else if is_word(word, b"start") {
        start_line(alloc, line, rest)
    } else if is_word(word, b"offer") {
        offer_line(alloc, line, rest)
    } else if is_word(word, b"use") {
        use_line(alloc, line, rest)
    } else if is_word(word, b"type") {
        type_line(alloc, line, rest)
    } else if is_word(word, b"shape") {
        shape_line(alloc, line, rest)
    } else if is_word(word, b"carry") {
        carry_line(alloc, line, rest)
    } else if is_word(word, b"depends") {
        depends_line(alloc, line, rest)
    } else if is_word(word, b"free") {
        free_line(line, rest)
    } else if is_word(word, b"rule") {
        rule_line(alloc, line, rest)
    } else if is_word(word, b"schedule") {
        schedule_line(line, rest)
    } else {
        Err(Unread::Form)
    }
}
