//! Reading a specification line by line.
ghost use Rattle.std.specs.Prelude.{◌≡◌};

use crate::dependences::Dependences;
use crate::draft::{AfterLine, Draft, LineFault};
use crate::fault::SpecKind;
use crate::line::SpecLine;
use crate::spelled::spelled_line;
use aw_base::{Grammar, Names, Numbers};
use aw_face::{Faces, Uses};
use aw_lex::{Tokens, is_passed_over};
use aw_typed::{Carries, Shapes, Types};
use std::alloc::Global;

/// The lines so far: what they say, and the stage of the last, or 0.
#[derive(Debug, Drop)]
pub struct Reader {
    pub draft: Draft,
    pub stage: u8,
}

impl Reader {
    ghost use Rattle.aw_lex.specs.Tokens.{tokens_of};
    ghost use Rattle.aw_spec.specs.Reading as reading;
    ghost use Rattle.aw_spec.specs.Views.{line_seen};
    ghost use Rattle.aw_spec.specs.Declares.{IsDeclared};
    ghost use Rattle.aw_spec.specs.ReaderAnswers.{draft_of, IsAtStage, IsStill, Reads};

    /// No lines.
    pub fn new(alloc: Global) -> Reader
        ensures draft { draft_of result ≡ reading.no_draft }
        ensures stage { IsAtStage result }
    {
        let faces = Faces {
            offers: Numbers::new(alloc),
            uses: Uses::new(alloc),
        };
        let types = Types {
            typed: false,
            names: Names::new(alloc),
            shapes: Shapes::new(alloc),
            carries: Carries::new(alloc),
        };
        Reader {
            draft: Draft {
                grammar: Grammar::new(alloc),
                faces,
                types,
                depends: Dependences::new(alloc),
                free: false,
            },
            stage: 0,
        }
    }

    fn in_order(&mut self, line: SpecLine) -> Result<AfterLine, LineFault>
        requires declared { IsDeclared (line_seen line) }
        requires stage { IsAtStage self.old }
        ensures reads { Reads (draft_of self.old) self.new result (reading.in_order (draft_of self.old) (line_seen line)) }
        ensures stage { IsStill self.new result }
    {
        let stage = line.stage();
        if stage < self.stage {
            drop(line);
            return Err(LineFault::Bad(SpecKind::Order));
        }
        self.stage = stage;
        self.draft.says(line)
    }

    /// What comes of the bytes of a line that is not passed over.
    fn read_spelled(&mut self, found: &mut Tokens, line: &[u8]) -> Result<AfterLine, LineFault>
        requires { IsAtStage self.old }
        ensures reads { Reads (draft_of self.old) self.new result (reading.if_tokens (draft_of self.old) line.now (tokens_of line.now)) }
        ensures stage { IsStill self.new result }
    {
        match spelled_line(found, line) {
            Ok(spelled) => self.in_order(spelled),
            Err(fault) => Err(fault),
        }
    }

    /// What comes of the bytes of a line. The list of tokens is filled anew for each line. The reader is of no use after a fault.
    pub fn read_line(&mut self, found: &mut Tokens, line: &[u8]) -> Result<AfterLine, LineFault>
        requires { IsAtStage self.old }
        ensures reads { Reads (draft_of self.old) self.new result (reading.read_line (draft_of self.old) line.now) }
        ensures stage { IsStill self.new result }
    {
        if is_passed_over(line) {
            return Ok(AfterLine::Next);
        }
        self.read_spelled(found, line)
    }
}
