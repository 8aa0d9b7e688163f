//! Reading the specification at the front of a text.
ghost use Rattle.std.specs.Prelude.{◌≡◌, ◌==◌, ◌+◌, ◌<◌, ◌≤◌, ◌^◌, length, drop, IfOk, Ok, None};
ghost use Rattle.std.specs.List.{prefix_len};
ghost use Rattle.aw_lex.specs.Lines.{lines_of};
ghost use Rattle.aw_grammar.specs.Declarations.{grammar_in, words_in};
ghost use Rattle.aw_grammar.specs.GrammarOf.{grammar_of, words_of, declarations_of};
ghost use Rattle.aw_face.specs.Faces.{face_fault};
ghost use Rattle.aw_spec.specs.Reading as reading;
ghost use Rattle.aw_spec.specs.Reading.{specification};
ghost use Rattle.aw_spec.specs.Answers.{Ends, Spells, at_line};
ghost use Rattle.aw_spec.specs.ReaderAnswers.{draft_of, IsAtStage};
ghost use Rattle.aw_spec.specs.TypesFit.{TypesFit};
ghost use Rattle.aw_spec.specs.Views.{spec_seen};
ghost use Rattle.aw_typed.specs.Types.{AreFor};
ghost use Rattle.aw_typed.specs.Typing.{types_of, NumbersInRange};

use crate::draft::{AfterLine, Draft, LineFault};
use crate::fault::SpecFault;
use crate::reader::Reader;
use crate::spec_text::SpecText;
use aw_lex::{Tokens, next_line};
use std::alloc::Global;

fn at_line(fault: LineFault, line: u64) -> SpecFault
    ensures { result ≡ at_line line fault }
{
    match fault {
        LineFault::Bad(kind) => SpecFault::Bad { line, kind },
        LineFault::NoMemory => SpecFault::NoMemory,
    }
}

fn text_of(draft: Draft, loads: bool, lines: u64, rest: usize) -> SpecText
    ensures value { result ≡ record { grammar = draft.grammar; faces = draft.faces; lines = lines; rest = rest; loads = loads; types = draft.types; depends = draft.depends; free = draft.free } }
    ensures grammar { grammar_of result.grammar ≡ grammar_in (declarations_of result.grammar) }
    ensures words { words_of result.grammar ≡ words_in (declarations_of result.grammar) }
{
    let Draft {
        grammar,
        faces,
        types,
        depends,
        free,
    } = draft;
    SpecText {
        grammar,
        faces,
        lines,
        rest,
        loads,
        types,
        depends: depends.into_declared(),
        free,
    }
}

/// How many line feeds stand in front of a text.
fn leading_feeds(text: &[u8]) -> usize
    ensures value { result ≡ prefix_len (λ b. b == 10) text.now }
    ensures within { result ≤ length text.now }
{
    let mut count = 0;
    while count < text.len() {
        if text[count] != b'\n' {
            return count;
        }
        count += 1;
    }
    count
}

/// The text behind the line feeds in front of it, which are as many empty lines: these are counted, and nothing else is read of them.
fn past_feeds<'t>(text: &'t [u8], lines: &mut u64) -> &'t [u8]
    requires { lines.old + length text.now < 2 ^ 64 }
    ensures lines { lines.new ≡ lines.old + prefix_len (λ b. b == 10) text.now }
    ensures rest { result.now ≡ drop (prefix_len (λ b. b == 10) text.now) text.now }
{
    let feeds = leading_feeds(text);
    *lines += feeds as u64;
    &text[feeds..]
}

/// Where reading ended: whether the schedule is for messages that carry loads, how many lines there were, and how many bytes they took.
#[derive(Clone, Copy, Debug)]
struct Ended {
    loads: bool,
    lines: u64,
    rest: usize,
}

/// Reads the lines of a text by a reader that has read none.
fn lines_read(reader: &mut Reader, found: &mut Tokens, text: &[u8]) -> Result<Ended, SpecFault>
    requires none { draft_of reader.old ≡ reading.no_draft }
    requires stage { IsAtStage reader.old }
    ensures exact { Ends reader.new.draft result (specification (lines_of text.now)) }
    ensures within { IfOk result (λ e. e.rest ≤ length text.now) }
    ensures rest { IfOk result (λ e. lines_of (drop e.rest text.now) ≡ drop e.lines (lines_of text.now)) }
{
    let mut rest = text;
    let mut lines = 0;
    while let Some((line, behind)) = next_line(rest) {
        lines += 1;
        match reader.read_line(found, line) {
            Ok(AfterLine::Next) => rest = past_feeds(behind, &mut lines),
            Ok(AfterLine::End { loads }) => {
                let rest = text.len() - behind.len();
                return Ok(Ended { loads, lines, rest });
            }
            Err(fault) => return Err(at_line(fault, lines)),
        }
    }
    Ok(Ended {
        loads: false,
        lines,
        rest: text.len(),
    })
}

/// The specification that a reader has read, where reading ended without a fault.
fn spec_read(reader: Reader, ended: Result<Ended, SpecFault>) -> Result<SpecText, SpecFault>
    ensures exact { (r : reading.Reading) → Ends reader.draft ended r → Spells result r }
    ensures ended { IfOk result (λ s. ended ≡ Ok (record { loads = s.loads; lines = s.lines; rest = s.rest })) }
    ensures grammar { IfOk result (λ s. grammar_of s.grammar ≡ grammar_in (declarations_of s.grammar)) }
    ensures words { IfOk result (λ s. words_of s.grammar ≡ words_in (declarations_of s.grammar)) }
{
    match ended {
        Ok(Ended { loads, lines, rest }) => Ok(text_of(reader.draft, loads, lines, rest)),
        Err(fault) => {
            drop(reader);
            Err(fault)
        }
    }
}

fn read_lines(alloc: Global, text: &[u8]) -> Result<SpecText, SpecFault>
    ensures exact { Spells result (specification (lines_of text.now)) }
    ensures within { IfOk result (λ s. s.rest ≤ length text.now) }
    ensures rest { IfOk result (λ s. lines_of (drop s.rest text.now) ≡ drop s.lines (lines_of text.now)) }
    ensures grammar { IfOk result (λ s. grammar_of s.grammar ≡ grammar_in (declarations_of s.grammar)) }
    ensures words { IfOk result (λ s. words_of s.grammar ≡ words_in (declarations_of s.grammar)) }
{
    let mut reader = Reader::new(alloc);
    let mut found = Tokens::new(alloc);
    let ended = lines_read(&mut reader, &mut found, text);
    drop(found);
    spec_read(reader, ended)
}

/// The specification that the lines of a text spell up to the line `schedule` or `schedule 2`, or to the end; or the first line at fault with its first kind.
pub fn read_spec(alloc: Global, text: &[u8]) -> Result<SpecText, SpecFault>
    ensures exact { Spells result (specification (lines_of text.now)) }
    ensures within { IfOk result (λ s. s.rest ≤ length text.now) }
    ensures rest { IfOk result (λ s. lines_of (drop s.rest text.now) ≡ drop s.lines (lines_of text.now)) }
    ensures grammar { IfOk result (λ s. grammar_of s.grammar ≡ grammar_in (declarations_of s.grammar)) }
    ensures words { IfOk result (λ s. words_of s.grammar ≡ words_in (declarations_of s.grammar)) }
    // The rules keep to the faces of the roles.
    ensures faces { IfOk result (λ s. face_fault (grammar_of s.grammar) s.faces.offers s.faces.uses ≡ None) }
    // The types are for the grammar, and the dependences are of its sorts.
    ensures fits { IfOk result (λ s. TypesFit (spec_seen s)) }
    ensures types { IfOk result (λ s. AreFor (grammar_of s.grammar) (types_of s.types)) }
    ensures numbers { IfOk result (λ s. NumbersInRange (types_of s.types)) }
{
    read_lines(alloc, text)
}
