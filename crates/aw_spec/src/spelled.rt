//! What the bytes of a line spell.
ghost use Rattle.std.specs.Prelude.{IfOk};
ghost use Rattle.aw_lex.specs.Tokens.{tokens_of};
ghost use Rattle.aw_spec.specs.Declares.{IsDeclared};
ghost use Rattle.aw_spec.specs.Reading as reading;
ghost use Rattle.aw_spec.specs.ReaderAnswers.{IsSpelledBy};
ghost use Rattle.aw_spec.specs.Views.{line_seen};

use crate::draft::LineFault;
use crate::line::SpecLine;
use crate::parse::parse_line;
use aw_lex::{Tokens, read_tokens};

/// What bytes that are not passed over spell. Their tokens come in place of those that were found before.
pub fn spelled_line(found: &mut Tokens, line: &[u8]) -> Result<SpecLine, LineFault>
    ensures spelled { (d : reading.Draft) → IsSpelledBy d result (reading.if_tokens d line.now (tokens_of line.now)) }
    ensures declared { IfOk result (λ spelled. IsDeclared (line_seen spelled)) }
{
    read_tokens(found, line)?;
    let spelled = parse_line(found.allocator(), line, found.as_slice())?;
    Ok(spelled)
}
