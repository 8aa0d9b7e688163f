//! Specifications whose roles are checked apart. Of each entry it is told what each role finds with what is
//! declared, then the whole of its parts joined where each part says yes, and last waiting. Parts may be given more than is
//! declared: the first behind the word `first`, the others behind `other`. What stands in `stdout` was worked out by hand;
//! nothing in it comes from the program.
ghost use Rattle.std.specs.Prelude.{◌≡◌, IsTrue, None, IfOk};
ghost use Rattle.aw_term.specs.WellFormed.{Each};
ghost use Rattle.aw_grammar.specs.GrammarOf.{grammar_of};
ghost use Rattle.aw_face.specs.Faces.{face_fault};
ghost use Rattle.aw_modular.specs.Refusals.{IsPosition};
ghost use Rattle.aw_modular.specs.PartViews.{IsCopy};
ghost use Rattle.aw_modular.specs.Wholes.{ArePartsOf};
ghost use Rattle.table_language.specs.Parts.{IfSomePart, IfSomeParts};

use crate::told::{MARK, push_circular, push_name};
use aw_accept::{Accepted, Fault, Refused, accept};
use aw_base::{Declared, Triple};
use aw_check_text::{accepted_text, roles_text, wait_text};
use aw_face::Faces;
use aw_grammar::Grammar;
use aw_list::Text;
use aw_modular::{
    JoinFault, ModFault, Part, RoleYes, RoleYeses, are_positions, check_role, join, parting_laws,
    split,
};
use aw_spec::{SpecText, read_spec};
use aw_spelling::number_value;
use bstr::ByteSlice;
use std::alloc::{AllocError, Global};

/// What stands in front of an entry's specification.
const SPEC: &[u8] = b"spec\n";

/// A small number.
fn small(word: &[u8]) -> Option<u8> {
    u8::try_from(number_value(word)?).ok()
}

/// The dependence that a line spells behind its first word, where that is `depends` or a further word.
fn triple_of(g: &Grammar, line: &[u8], further: &[u8]) -> Option<Triple> {
    let mut words = line.fields();
    let first = words.next()?;
    if first != b"depends".as_slice() && first != further {
        return None;
    }
    let sort = g.sort_named(words.next()?)?;
    let i = small(words.next()?)?;
    let j = small(words.next()?)?;
    Some(Triple { sort, i, j })
}

/// What the lines in front of a specification declare, with those of a further word.
fn declared(
    alloc: Global,
    g: &Grammar,
    head: &[u8],
    further: &[u8],
) -> Result<Declared, AllocError> {
    let mut found = Declared::new(alloc);
    for line in head.lines() {
        if let Some(triple) = triple_of(g, line, further) {
            found.push(triple)?;
        }
    }
    Ok(found)
}

/// Checks a part with what is declared: for the first role this, and for the others that.
fn checked(
    alloc: Global,
    part: &Part,
    role: u16,
    first: &Declared,
    others: &Declared,
) -> Result<RoleYes, ModFault>
    requires faces { face_fault (grammar_of part.now.grammar) part.now.faces.offers part.now.faces.uses ≡ None }
    requires first { Each (IsPosition (grammar_of part.now.grammar).sorts) first.now }
    requires others { Each (IsPosition (grammar_of part.now.grammar).sorts) others.now }
    ensures { IfOk result (λ yes. IsCopy part.now yes.part) }
{
    if role == 0 {
        check_role(alloc, part, first)
    } else {
        check_role(alloc, part, others)
    }
}

/// The part of a role, where the role says yes.
fn part_of(
    alloc: Global,
    g: &Grammar,
    f: &Faces,
    role: u16,
    first: &Declared,
    others: &Declared,
) -> Result<Option<RoleYes>, AllocError>
    requires faces { face_fault (grammar_of g.now) f.now.offers f.now.uses ≡ None }
    requires first { Each (IsPosition (grammar_of g.now).sorts) first.now }
    requires others { Each (IsPosition (grammar_of g.now).sorts) others.now }
    ensures { IfOk result (λ found. IfSomePart g.now role found) }
{
    let part = split(alloc, g, f, role)?;
    let found = checked(alloc, &part, role, first, others);
    drop(part);
    match found {
        Ok(yes) => Ok(Some(yes)),
        Err(ModFault::NoMemory) => Err(AllocError),
        Err(_) => Ok(None),
    }
}

/// How many roles there are: at most 64.
fn count_roles(g: &Grammar) -> u16 {
    g.roles.len() as u16
}

/// The parts of all roles, where each says yes.
fn parts_of(
    alloc: Global,
    g: &Grammar,
    f: &Faces,
    first: &Declared,
    others: &Declared,
) -> Result<Option<RoleYeses>, AllocError>
    requires faces { face_fault (grammar_of g.now) f.now.offers f.now.uses ≡ None }
    requires first { Each (IsPosition (grammar_of g.now).sorts) first.now }
    requires others { Each (IsPosition (grammar_of g.now).sorts) others.now }
    ensures { IfOk result (λ found. IfSomeParts g.now found) }
{
    let mut parts = RoleYeses::new(alloc);
    for role in 0..count_roles(g) {
        match part_of(alloc, g, f, role, first, others)? {
            Some(yes) => parts.push(yes)?,
            None => return Ok(None),
        }
    }
    Ok(Some(parts))
}

/// Adds what is told of an accepted grammar.
fn push_accepted(alloc: Global, told: &mut Text, accepted: Accepted) -> Result<(), AllocError> {
    let text = accepted_text(alloc, &accepted);
    drop(accepted);
    told.push_bytes(text?.as_slice())
}

/// Adds why parts have no whole.
fn push_fault(told: &mut Text, fault: JoinFault) -> Result<(), AllocError> {
    let differs = matches!(fault, JoinFault::Differs { .. });
    drop(fault);
    if differs {
        told.push_bytes(b"differs\n")
    } else {
        Err(AllocError)
    }
}

/// Adds what the whole of parts is.
fn push_whole(
    alloc: Global,
    told: &mut Text,
    parts: RoleYeses,
    g: &Grammar,
) -> Result<(), AllocError>
    requires { ArePartsOf g.now 0 parts }
{
    if parts.is_empty() {
        return Ok(());
    }
    parting_laws();
    match join(alloc, parts) {
        Ok(accepted) => push_accepted(alloc, told, accepted),
        Err(fault) => push_fault(told, fault),
    }
}

/// What an entry declares: of all roles, and what the first part and the others are given.
#[derive(Drop)]
struct Given {
    all: Declared,
    first: Declared,
    others: Declared,
}

/// What the lines in front of a specification declare.
fn read_given(alloc: Global, g: &Grammar, head: &[u8]) -> Result<Given, AllocError> {
    let all = declared(alloc, g, head, b"")?;
    let first = declared(alloc, g, head, b"first")?;
    let others = declared(alloc, g, head, b"other")?;
    Ok(Given { all, first, others })
}

/// Whether all that is declared is in the range of its sorts.
fn is_in_range(g: &Grammar, given: &Given) -> bool
    ensures all { IsTrue result → Each (IsPosition (grammar_of g.now).sorts) given.now.all }
    ensures first { IsTrue result → Each (IsPosition (grammar_of g.now).sorts) given.now.first }
    ensures others { IsTrue result → Each (IsPosition (grammar_of g.now).sorts) given.now.others }
{
    are_positions(g, &given.all)
        && are_positions(g, &given.first)
        && are_positions(g, &given.others)
}

/// Adds what is found of roles, and the whole where each says yes with what its part is given, which is in range.
fn push_found(
    alloc: Global,
    told: &mut Text,
    g: &Grammar,
    f: &Faces,
    given: &Given,
) -> Result<(), AllocError>
    requires faces { face_fault (grammar_of g.now) f.now.offers f.now.uses ≡ None }
    requires all { Each (IsPosition (grammar_of g.now).sorts) given.now.all }
    requires first { Each (IsPosition (grammar_of g.now).sorts) given.now.first }
    requires others { Each (IsPosition (grammar_of g.now).sorts) given.now.others }
{
    told.push_bytes(roles_text(alloc, g, f, &given.all)?.as_slice())?;
    match parts_of(alloc, g, f, &given.first, &given.others)? {
        Some(parts) => push_whole(alloc, told, parts, g),
        None => Ok(()),
    }
}

/// Adds what is found of roles with what is declared, or that this is not in range.
fn push_roles(
    alloc: Global,
    told: &mut Text,
    g: &Grammar,
    f: &Faces,
    head: &[u8],
) -> Result<(), AllocError>
    requires { face_fault (grammar_of g.now) f.now.offers f.now.uses ≡ None }
{
    let given = read_given(alloc, g, head)?;
    if is_in_range(g, &given) {
        push_found(alloc, told, g, f, &given)
    } else {
        told.push_bytes(b"not in range\n")
    }
}

/// Adds what is told of waiting.
fn push_waiting(alloc: Global, told: &mut Text, grammar: Grammar) -> Result<(), AllocError> {
    match accept(alloc, grammar) {
        Ok(accepted) => {
            let text = wait_text(alloc, &accepted);
            drop(accepted);
            told.push_bytes(text?.as_slice())
        }
        Err(Refused::Circular { grammar, rule, occ }) => {
            let pushed = push_circular(told, &grammar, Fault { rule, occ });
            drop(grammar);
            pushed
        }
        Err(Refused::NoMemory) => Err(AllocError),
    }
}

/// Adds what is told of a specification.
fn push_spec(alloc: Global, told: &mut Text, spec: SpecText, head: &[u8]) -> Result<(), AllocError>
    requires { face_fault (grammar_of spec.grammar) spec.faces.offers spec.faces.uses ≡ None }
{
    let SpecText { grammar, faces, .. } = spec;
    let pushed = push_roles(alloc, told, &grammar, &faces, head);
    drop(faces);
    match pushed {
        Ok(()) => push_waiting(alloc, told, grammar),
        Err(fault) => {
            drop(grammar);
            Err(fault)
        }
    }
}

/// Adds the lines of an entry. What has no line is none.
fn push_entry(alloc: Global, told: &mut Text, entry: &[u8]) -> Result<(), AllocError> {
    let Some((name, rest)) = entry.split_once_str(b"\n") else {
        return Ok(());
    };
    push_name(told, name)?;
    let Some((head, input)) = rest.split_once_str(SPEC) else {
        return told.push_bytes(b"no specification\n");
    };
    match read_spec(alloc, input) {
        Ok(spec) => push_spec(alloc, told, spec, head),
        Err(_) => told.push_bytes(b"not read\n"),
    }
}

/// Adds the lines of all entries. What stands before the first mark is none.
pub fn push_apart(alloc: Global, told: &mut Text, text: &[u8]) -> Result<(), AllocError> {
    for entry in text.split_str(MARK) {
        push_entry(alloc, told, entry)?;
    }
    Ok(())
}
