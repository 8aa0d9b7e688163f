//! The lines of types, shapes, carries and dependences.
ghost use Rattle.std.specs.Prelude.{◌≡◌, ◌++◌, ◌∷◌, [], OnOk, map};
ghost use Rattle.aw_term.specs.Rules.{get};
ghost use Rattle.aw_grammar.specs.Declarations.{sort_names};
ghost use Rattle.aw_grammar.specs.GrammarOf.{declarations_of};
ghost use Rattle.aw_spec.specs.TypeLines.{type_names};
ghost use Rattle.aw_spec.specs.Views.{spec_seen};
ghost use Rattle.aw_spec_writer.specs.LineTexts.{names_text, text_of_lines};
ghost use Rattle.aw_spec_writer.specs.SpecLines as lines;

use crate::lines::push_line;
use aw_base::{Declared, Grammar, Numbers, Triple, sort_name};
use aw_list::Text;
use aw_spec::SpecText;
use aw_spelling::push_number;
use aw_typed::{Carry, Shape, Types};
use std::alloc::AllocError;

/// The name of a type by its number. A number past the last prints as an empty name.
fn type_name(t: &Types, number: u16) -> &[u8]
    ensures { result.now ≡ get [] (type_names t.now) number }
{
    match number {
        0 => b"num",
        1 => b"text",
        _ => match t.names.get(usize::from(number) - 2) {
            Some(name) => name.as_slice(),
            None => &[],
        },
    }
}

fn push_types(text: &mut Text, t: &Types) -> Result<(), AllocError>
    ensures { OnOk result (text.new ≡ text.old ++ text_of_lines (lines.type_lines t.now)) }
{
    for name in t.names.as_slice() {
        push_line(text, b"type ", name.as_slice())?;
    }
    Ok(())
}

/// Adds the names of types, with a comma and a space between each two.
fn push_type_names(text: &mut Text, t: &Types, numbers: &Numbers) -> Result<(), AllocError>
    ensures { OnOk result (text.new ≡ text.old ++ names_text (map (get [] (type_names t.now)) numbers.now)) }
{
    let mut separator = b"".as_slice();
    for number in numbers.as_slice() {
        text.push_bytes(separator)?;
        text.push_bytes(type_name(t, *number))?;
        separator = b", ";
    }
    Ok(())
}

/// Adds the line of a shape, where it is declared.
fn push_shape(
    text: &mut Text,
    t: &Types,
    con: &[u8],
    shape: &Option<Shape>,
) -> Result<(), AllocError>
    ensures { OnOk result (text.new ≡ text.old ++ text_of_lines (lines.shape_line (type_names t.now) con.now shape.now)) }
{
    let Some(shape) = shape else {
        return Ok(());
    };
    text.push_bytes(b"shape ")?;
    text.push_bytes(con)?;
    text.push_bytes(b" (")?;
    push_type_names(text, t, &shape.parts)?;
    push_line(text, b") ", type_name(t, shape.own))
}

fn push_shapes(text: &mut Text, g: &Grammar, t: &Types) -> Result<(), AllocError>
    ensures { OnOk result (text.new ≡ text.old ++ text_of_lines (lines.shape_lines (type_names t.now) t.now.shapes g.now.cons)) }
{
    for (i, shape) in t.shapes.as_slice().iter().enumerate() {
        let Some(con) = g.cons.get(i) else {
            return Ok(());
        };
        push_shape(text, t, con.name.as_slice(), shape)?;
    }
    Ok(())
}

/// Adds the line of a carry, where it is declared.
fn push_carry(
    text: &mut Text,
    t: &Types,
    sort: &[u8],
    carry: &Option<Carry>,
) -> Result<(), AllocError>
    ensures { OnOk result (text.new ≡ text.old ++ text_of_lines (lines.carry_line (type_names t.now) sort.now carry.now)) }
{
    let Some(carry) = carry else {
        return Ok(());
    };
    text.push_bytes(b"carry ")?;
    text.push_bytes(sort)?;
    text.push_bytes(b" (")?;
    push_type_names(text, t, &carry.takes)?;
    text.push_bytes(b")<")?;
    push_type_names(text, t, &carry.gives)?;
    text.push_bytes(b">\n")
}

fn push_carries(text: &mut Text, g: &Grammar, t: &Types) -> Result<(), AllocError>
    ensures { OnOk result (text.new ≡ text.old ++ text_of_lines (lines.carry_lines (type_names t.now) t.now.carries g.now.sorts)) }
{
    for (i, carry) in t.carries.as_slice().iter().enumerate() {
        let Some(sort) = g.sorts.get(i) else {
            return Ok(());
        };
        push_carry(text, t, sort.name.as_slice(), carry)?;
    }
    Ok(())
}

fn push_dependence(text: &mut Text, g: &Grammar, d: &Triple) -> Result<(), AllocError>
    ensures { OnOk result (text.new ≡ text.old ++ text_of_lines (lines.depends_line (sort_names (declarations_of g.now)) d.now ∷ [])) }
{
    text.push_bytes(b"depends ")?;
    text.push_bytes(sort_name(g, d.sort))?;
    text.push_bytes(b" ")?;
    push_number(text, u64::from(d.i))?;
    text.push_bytes(b" ")?;
    push_number(text, u64::from(d.j))?;
    text.push_bytes(b"\n")
}

fn push_depends(text: &mut Text, g: &Grammar, declared: &Declared) -> Result<(), AllocError>
    ensures { OnOk result (text.new ≡ text.old ++ text_of_lines (map (lines.depends_line (sort_names (declarations_of g.now))) declared.now)) }
{
    for d in declared.as_slice() {
        push_dependence(text, g, d)?;
    }
    Ok(())
}

/// Adds the lines of types, shapes, carries and dependences.
pub(crate) fn push_typing(text: &mut Text, s: &SpecText) -> Result<(), AllocError>
    ensures { OnOk result (text.new ≡ text.old ++ text_of_lines (lines.typing_lines (spec_seen s.now))) }
{
    push_types(text, &s.types)?;
    push_shapes(text, &s.grammar, &s.types)?;
    push_carries(text, &s.grammar, &s.types)?;
    push_depends(text, &s.grammar, &s.depends)
}
