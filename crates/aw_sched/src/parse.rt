//! Reading one line of a schedule from its tokens.
ghost use Rattle.std.specs.Prelude.{◌≡◌};
ghost use Rattle.aw_term.specs.Trees.{nats_eq};
ghost use Rattle.aw_term_reader.specs.Lexemes.{lexemes};
ghost use Rattle.aw_term_reader.specs.Gives.{Gives};
ghost use Rattle.aw_term_reader.specs.Forms as form;
ghost use Rattle.aw_sched.specs.Lines as lines;
ghost use Rattle.aw_sched.specs.LineSeen.{line_seen};

use crate::line::SchedLine;
use aw_lex::Token;
use aw_term_reader::{Unread, end, name, node, number, terms_in_braces};
use std::alloc::Global;

fn start_line<'a>(line: &'a [u8], tokens: &'a [Token]) -> Result<SchedLine<'a>, Unread>
    ensures { Gives line_seen result (lines.start_line (lexemes line.entry.now tokens.entry.now)) }
{
    let (sort, rest) = name(line, tokens)?;
    let (case, rest) = number(line, rest)?;
    end(line, rest)?;
    Ok(SchedLine::Start { sort, case })
}

fn choose_line<'a>(
    alloc: Global,
    line: &'a [u8],
    tokens: &'a [Token],
) -> Result<SchedLine<'a>, Unread>
    ensures { Gives line_seen result (lines.choose_line (lexemes line.entry.now tokens.entry.now)) }
{
    let (node, rest) = node(line, tokens)?;
    let (rule, rest) = name(line, rest)?;
    let (args, rest) = terms_in_braces(alloc, line, rest)?;
    end(line, rest)?;
    Ok(SchedLine::Choose { node, rule, args })
}

fn deliver_line<'a>(line: &'a [u8], tokens: &'a [Token]) -> Result<SchedLine<'a>, Unread>
    ensures { Gives line_seen result (lines.deliver_line (lexemes line.entry.now tokens.entry.now)) }
{
    let (message, rest) = number(line, tokens)?;
    end(line, rest)?;
    Ok(SchedLine::Deliver(message))
}

fn settle_line<'a>(line: &'a [u8], tokens: &'a [Token]) -> Result<SchedLine<'a>, Unread>
    ensures { Gives line_seen result (form.only lines.SettleLine (lexemes line.entry.now tokens.entry.now)) }
{
    end(line, tokens)?;
    Ok(SchedLine::Settle)
}

fn list_line<'a>(line: &'a [u8], tokens: &'a [Token]) -> Result<SchedLine<'a>, Unread>
    ensures { Gives line_seen result (lines.list_line (lexemes line.entry.now tokens.entry.now)) }
{
    let (role, rest) = name(line, tokens)?;
    end(line, rest)?;
    Ok(SchedLine::List(role))
}

fn is_word(word: &[u8], wanted: &[u8]) -> bool
    ensures { result ≡ nats_eq word.now wanted.now }
{
    word == wanted
}

/// The line that the tokens spell, where they spell one.
pub fn parse_line<'a>(
    alloc: Global,
    line: &'a [u8],
    tokens: &'a [Token],
) -> Result<SchedLine<'a>, Unread>
    ensures { Gives line_seen result (lines.line_of (lexemes line.entry.now tokens.entry.now)) }
{
    let (word, rest) = name(line, tokens)?;
    if is_word(word, b"start") {
        start_line(line, rest)
    } else if is_word(word, b"choose") {
        choose_line(alloc, line, rest)
    } else if is_word(word, b"deliver") {
        deliver_line(line, rest)
    } else if is_word(word, b"settle") {
        settle_line(line, rest)
    } else if is_word(word, b"list") {
        list_line(line, rest)
    } else {
        Err(Unread::Form)
    }
}
