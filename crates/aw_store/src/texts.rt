//! Texts of bodies. A number that is not declared prints as an empty name.
ghost use Rattle.std.specs.Prelude.{◌≡◌, ◌++◌, [], map, OnOk, OnErr, IfOk};
ghost use Rattle.std.specs.Io.{StartsWith};
ghost use Rattle.aw_term.specs.Rules.{get};
ghost use Rattle.aw_term.specs.Artifacts.{ref_text, with_parts};
ghost use Rattle.aw_grammar.specs.GrammarOf.{words_of};
ghost use Rattle.aw_store.specs.EquationView.{body_of};
ghost use Rattle.aw_store.specs.BodyTexts.{body_text};

use crate::equation::Body;
use aw_base::{NameWriter, con_name, push_ref, push_refs};
use aw_grammar::Grammar;
use aw_list::Text;
use aw_name::Ref;
use aw_spelling::{push_number, push_quoted};
use std::alloc::{AllocError, Global};

fn add_con(
    text: &mut Text,
    names: &mut NameWriter<'_>,
    con: u16,
    parts: &[Ref],
) -> Result<(), AllocError>
    ensures ok { OnOk result (text.new ≡ text.old ++ with_parts (get [] (words_of names.old.grammar.now).cons con) (map (ref_text (words_of names.old.grammar.now)) parts.now)) }
    ensures err { OnErr result (StartsWith text.new text.old) }
    ensures grammar { names.new.grammar.now ≡ names.old.grammar.now }
{
    text.push_bytes(con_name(names.grammar(), con))?;
    if parts.is_empty() {
        return Ok(());
    }
    text.push_bytes(b"(")?;
    push_refs(text, names, parts)?;
    text.push_bytes(b")")
}

fn add_body(text: &mut Text, names: &mut NameWriter<'_>, body: &Body) -> Result<(), AllocError>
    ensures ok { OnOk result (text.new ≡ text.old ++ body_text (words_of names.old.grammar.now) (body_of body.now)) }
    ensures err { OnErr result (StartsWith text.new text.old) }
    ensures grammar { names.new.grammar.now ≡ names.old.grammar.now }
{
    match body {
        Body::Same(r) => push_ref(text, names, r),
        Body::Con(c, parts) => add_con(text, names, *c, parts.as_slice()),
        Body::Num(n) => push_number(text, *n),
        Body::Text(t) => push_quoted(text, t.as_slice()),
    }
}

/// The text of a body, as `pair(job#1:p1, job#1:p3)`.
pub fn body_text(alloc: Global, g: &Grammar, body: &Body) -> Result<Text, AllocError>
    ensures { IfOk result (λ text. text ≡ body_text (words_of g.now) (body_of body.now)) }
{
    let mut text = Text::new(alloc);
    add_body(&mut text, &mut NameWriter::new(alloc, g), body)?;
    Ok(text)
}

/// Adds the text that `body_text` makes. An error changes nothing.
pub fn push_body(text: &mut Text, names: &mut NameWriter<'_>, body: &Body) -> Result<(), AllocError>
    ensures ok { OnOk result (text.new ≡ text.old ++ body_text (words_of names.old.grammar.now) (body_of body.now)) }
    ensures err { OnErr result (text.new ≡ text.old) }
    ensures grammar { names.new.grammar.now ≡ names.old.grammar.now }
{
    let before = text.len();
    match add_body(text, names, body) {
        Ok(()) => Ok(()),
        Err(failed) => {
            text.truncate(before);
            Err(failed)
        }
    }
}
