//! The lines of roles, constructors, sorts, starts, offers and uses, and the line `free`.
ghost use Rattle.std.specs.Prelude.{◌≡◌, ◌++◌, ◌∷◌, [], OnOk, map, codes, decimal};
ghost use Rattle.aw_grammar.specs.GrammarOf.{words_of, declarations_of};
ghost use Rattle.aw_spec.specs.Lines.{RoleLine};
ghost use Rattle.aw_spec.specs.Views.{spec_seen};
ghost use Rattle.aw_spec_writer.specs.LineTexts.{text_of_lines};
ghost use Rattle.aw_spec_writer.specs.SpecLines as lines;

use aw_base::{Con, Grammar, Sort, role_name, sort_name};
use aw_face::{Faces, Using};
use aw_list::Text;
use aw_spec::SpecText;
use aw_spelling::push_number;
use std::alloc::AllocError;

/// Adds a line of a word and a name.
pub(crate) fn push_line(text: &mut Text, word: &[u8], name: &[u8]) -> Result<(), AllocError>
    ensures { OnOk result (text.new ≡ text.old ++ (word.now ++ (name.now ++ codes "\n"))) }
{
    text.push_bytes(word)?;
    text.push_bytes(name)?;
    text.push_bytes(b"\n")
}

fn push_roles(text: &mut Text, g: &Grammar) -> Result<(), AllocError>
    ensures { OnOk result (text.new ≡ text.old ++ text_of_lines (map (λ name. RoleLine name) g.now.roles)) }
{
    for name in g.roles.as_slice() {
        push_line(text, b"role ", name.as_slice())?;
    }
    Ok(())
}

fn push_con(text: &mut Text, con: &Con) -> Result<(), AllocError>
    ensures { OnOk result (text.new ≡ text.old ++ text_of_lines (lines.con_line con.now ∷ [])) }
{
    text.push_bytes(b"con ")?;
    text.push_bytes(con.name.as_slice())?;
    text.push_bytes(b" ")?;
    push_number(text, u64::from(con.arity))?;
    text.push_bytes(b"\n")
}

fn push_cons(text: &mut Text, g: &Grammar) -> Result<(), AllocError>
    ensures { OnOk result (text.new ≡ text.old ++ text_of_lines (map lines.con_line g.now.cons)) }
{
    for con in g.cons.as_slice() {
        push_con(text, con)?;
    }
    Ok(())
}

/// Adds how many values a sort takes and gives, and ends its line.
fn push_counts(text: &mut Text, sort: &Sort) -> Result<(), AllocError>
    ensures { OnOk result (text.new ≡ text.old ++ (codes " " ++ (decimal sort.now.takes ++ (codes " " ++ (decimal sort.now.gives ++ codes "\n"))))) }
{
    text.push_bytes(b" ")?;
    push_number(text, u64::from(sort.takes))?;
    text.push_bytes(b" ")?;
    push_number(text, u64::from(sort.gives))?;
    text.push_bytes(b"\n")
}

fn push_sort(text: &mut Text, g: &Grammar, sort: &Sort) -> Result<(), AllocError>
    ensures { OnOk result (text.new ≡ text.old ++ text_of_lines (lines.sort_line g.now.roles sort.now ∷ [])) }
{
    text.push_bytes(b"sort ")?;
    text.push_bytes(sort.name.as_slice())?;
    text.push_bytes(b" ")?;
    text.push_bytes(role_name(g, sort.role))?;
    push_counts(text, sort)
}

fn push_sorts(text: &mut Text, g: &Grammar) -> Result<(), AllocError>
    ensures { OnOk result (text.new ≡ text.old ++ text_of_lines (map (lines.sort_line g.now.roles) g.now.sorts)) }
{
    for sort in g.sorts.as_slice() {
        push_sort(text, g, sort)?;
    }
    Ok(())
}

/// Adds the line of a start sort, and nothing of another.
fn push_if_start(text: &mut Text, sort: &Sort) -> Result<(), AllocError>
    ensures { OnOk result (text.new ≡ text.old ++ text_of_lines (lines.start_line sort.now)) }
{
    if !sort.start {
        return Ok(());
    }
    push_line(text, b"start ", sort.name.as_slice())
}

fn push_starts(text: &mut Text, g: &Grammar) -> Result<(), AllocError>
    ensures { OnOk result (text.new ≡ text.old ++ text_of_lines (lines.start_lines g.now.sorts)) }
{
    for sort in g.sorts.as_slice() {
        push_if_start(text, sort)?;
    }
    Ok(())
}

fn push_offers(text: &mut Text, g: &Grammar, f: &Faces) -> Result<(), AllocError>
    ensures { OnOk result (text.new ≡ text.old ++ text_of_lines (map (lines.offer_line (words_of g.now).sorts) f.now.offers)) }
{
    for sort in f.offers.as_slice() {
        push_line(text, b"offer ", sort_name(g, *sort))?;
    }
    Ok(())
}

fn push_use(text: &mut Text, g: &Grammar, usage: &Using) -> Result<(), AllocError>
    ensures { OnOk result (text.new ≡ text.old ++ text_of_lines (lines.use_line (words_of g.now).roles (words_of g.now).sorts usage.now ∷ [])) }
{
    text.push_bytes(b"use ")?;
    text.push_bytes(role_name(g, usage.role))?;
    push_line(text, b" ", sort_name(g, usage.sort))
}

fn push_uses(text: &mut Text, g: &Grammar, f: &Faces) -> Result<(), AllocError>
    ensures { OnOk result (text.new ≡ text.old ++ text_of_lines (map (lines.use_line (words_of g.now).roles (words_of g.now).sorts) f.now.uses)) }
{
    for usage in f.uses.as_slice() {
        push_use(text, g, usage)?;
    }
    Ok(())
}

/// Adds the lines of roles, constructors, sorts and starts.
pub(crate) fn push_declarations(text: &mut Text, g: &Grammar) -> Result<(), AllocError>
    ensures { OnOk result (text.new ≡ text.old ++ text_of_lines (lines.declaration_lines (declarations_of g.now))) }
{
    push_roles(text, g)?;
    push_cons(text, g)?;
    push_sorts(text, g)?;
    push_starts(text, g)
}

/// Adds the line `free` where it is asked for.
pub(crate) fn push_free(text: &mut Text, s: &SpecText) -> Result<(), AllocError>
    ensures { OnOk result (text.new ≡ text.old ++ text_of_lines (lines.free_lines (spec_seen s.now))) }
{
    if !s.free {
        return Ok(());
    }
    text.push_bytes(b"free\n")
}

/// Adds the lines of offers and uses.
pub(crate) fn push_faces(text: &mut Text, s: &SpecText) -> Result<(), AllocError>
    ensures { OnOk result (text.new ≡ text.old ++ text_of_lines (lines.face_lines (spec_seen s.now))) }
{
    push_offers(text, &s.grammar, &s.faces)?;
    push_uses(text, &s.grammar, &s.faces)
}
