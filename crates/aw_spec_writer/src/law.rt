//! What is written is read again.
ghost use Rattle.std.specs.Prelude.{◌≡◌, IfOk, IfErr, length, false};
ghost use Rattle.aw_spec.specs.declared.fault.SpecFault.TheVariants.{NoMemory};
ghost use Rattle.aw_spec.specs.TypesFit.{TypesFit};
ghost use Rattle.aw_spec.specs.Views.{spec_seen};
ghost use Rattle.aw_spec_writer.specs.Laws.{InFrontIsRead, ReadFits, WrittenIsRead};
ghost use Rattle.aw_spec_writer.specs.SpecLines.{spec_lines};
ghost use Rattle.aw_spec_writer.specs.Writable.{FacesFit};

use crate::write::write_spec;
use aw_spec::{SpecFault, SpecText, read_spec};
use std::alloc::Global;

/// The text of a specification that can be written is read as that specification.
pub fn written_is_read()
    ensures { WrittenIsRead }
{}

/// The text of a specification that can be written is read alike with a line `schedule` and any text behind it, and the lines of
/// that text are left.
pub fn in_front_is_read()
    ensures { InFrontIsRead }
{}

/// What was read can be written: the faces and the types of a specification that was read fit it.
pub fn read_fits()
    ensures { ReadFits }
{}

/// The specification that its own text spells: the same declarations, faces and types, on as many lines as it has.
pub fn read_again(alloc: Global, s: &SpecText) -> Result<SpecText, SpecFault>
    requires faces { FacesFit (spec_seen s.now) }
    requires types { TypesFit (spec_seen s.now) }
    ensures ok { IfOk result (λ again. spec_seen again ≡ spec_seen s.now) }
    ensures lines { IfOk result (λ again. again.lines ≡ length (spec_lines (spec_seen s.now))) }
    ensures loads { IfOk result (λ again. again.loads ≡ false) }
    ensures err { IfErr result (λ e. e ≡ NoMemory) }
{
    let text = write_spec(alloc, s)?;
    read_spec(alloc, text.as_slice())
}
