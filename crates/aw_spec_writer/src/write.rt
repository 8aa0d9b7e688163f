//! Writing a specification.
ghost use Rattle.std.specs.Prelude.{◌≡◌, IfOk};
ghost use Rattle.aw_spec.specs.Views.{spec_seen};
ghost use Rattle.aw_spec_writer.specs.Laws.{IsReadAgain};
ghost use Rattle.aw_spec_writer.specs.SpecLines.{written};

use crate::lines::{push_declarations, push_faces, push_free};
use crate::rules::push_rules;
use crate::types::push_typing;
use aw_list::Text;
use aw_spec::SpecText;
use std::alloc::{AllocError, Global};

/// The text of a specification: a line for each declaration, each list in its order, and no line that ends it. Reading it gives
/// the same specification again, where its faces and its types fit it.
pub fn write_spec(alloc: Global, s: &SpecText) -> Result<Text, AllocError>
    ensures exact { IfOk result (λ text. text ≡ written (spec_seen s.now)) }
    ensures again { IfOk result (λ text. IsReadAgain (spec_seen s.now) text) }
{
    let mut text = Text::new(alloc);
    push_declarations(&mut text, &s.grammar)?;
    push_faces(&mut text, s)?;
    push_typing(&mut text, s)?;
    push_free(&mut text, s)?;
    push_rules(&mut text, &s.grammar)?;
    Ok(text)
}
