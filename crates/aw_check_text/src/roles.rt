//! What is told of roles that are checked apart.
ghost use Rattle.std.specs.Prelude.{◌≡◌, ◌++◌, ◌&&◌, None, OnOk, IfOk};
ghost use Rattle.aw_term.specs.WellFormed.{Each};
ghost use Rattle.aw_grammar.specs.GrammarOf.{grammar_of, words_of};
ghost use Rattle.aw_face.specs.Faces.{face_fault};
ghost use Rattle.aw_modular.specs.Refusals.{IsPosition};
ghost use Rattle.aw_check_text.specs.ApartTold.{IsFound, TellsRoles, finding_line, finding_text, joined_line};
ghost use Rattle.aw_check_text.specs.Telling.{TellsOne, TellsPart};

use crate::circle::push_circle;
use crate::finding::Finding;
use aw_accept::Fault;
use aw_base::{Declared, Triple, role_name, sort_name};
use aw_face::Faces;
use aw_grammar::Grammar;
use aw_list::Text;
use aw_modular::{ModFault, Part, check_role, split};
use aw_spelling::push_number;
use std::alloc::{AllocError, Global};

/// Adds `exceeds note 2 1`.
fn push_excess(text: &mut Text, g: &Grammar, pair: Triple) -> Result<(), AllocError>
    ensures { OnOk result (text.new ≡ text.old ++ finding_text (words_of g.now) (Finding.Excess pair)) }
{
    text.push_bytes(b"exceeds ")?;
    text.push_bytes(sort_name(g, pair.sort))?;
    text.push_bytes(b" ")?;
    push_number(text, u64::from(pair.i))?;
    text.push_bytes(b" ")?;
    push_number(text, u64::from(pair.j))
}

/// Adds `ok`, `circular loop at 1.in1`, or `exceeds note 2 1`.
fn push_finding(text: &mut Text, g: &Grammar, found: Finding) -> Result<(), AllocError>
    ensures { OnOk result (text.new ≡ text.old ++ finding_text (words_of g.now) found) }
{
    match found {
        Finding::Yes => text.push_bytes(b"ok"),
        Finding::Circle(fault) => {
            text.push_bytes(b"circular ")?;
            push_circle(text, g, fault)
        }
        Finding::Excess(pair) => push_excess(text, g, pair),
    }
}

/// Adds `role lab ok`, where the grammar is that of the role's rules.
fn push_line(text: &mut Text, g: &Grammar, role: u16, found: Finding) -> Result<(), AllocError>
    ensures { OnOk result (text.new ≡ text.old ++ finding_line (words_of g.now) role found) }
{
    text.push_bytes(b"role ")?;
    text.push_bytes(role_name(g, role))?;
    text.push_bytes(b" ")?;
    push_finding(text, g, found)?;
    text.push_bytes(b"\n")
}

/// What checking a part finds.
fn find(alloc: Global, part: &Part, declared: &Declared) -> Result<Finding, AllocError>
    requires faces { face_fault (grammar_of part.now.grammar) part.now.faces.offers part.now.faces.uses ≡ None }
    requires range { Each (IsPosition (grammar_of part.now.grammar).sorts) declared.now }
    ensures { IfOk result (λ found. IsFound part.now.faces.offers declared.now (grammar_of part.now.grammar) part.now.role found) }
{
    match check_role(alloc, part, declared) {
        Ok(yes) => {
            drop(yes);
            Ok(Finding::Yes)
        }
        Err(ModFault::Circular { rule, occ }) => Ok(Finding::Circle(Fault { rule, occ })),
        Err(ModFault::Exceeds { sort, i, j }) => Ok(Finding::Excess(Triple { sort, i, j })),
        Err(ModFault::NoMemory) => Err(AllocError),
    }
}

/// Adds the line of a part, and says whether its role says yes.
fn push_part(text: &mut Text, part: &Part, declared: &Declared) -> Result<bool, AllocError>
    requires faces { face_fault (grammar_of part.now.grammar) part.now.faces.offers part.now.faces.uses ≡ None }
    requires range { Each (IsPosition (grammar_of part.now.grammar).sorts) declared.now }
    ensures { IfOk result (λ yes. TellsPart part.now declared.now text.old text.new yes) }
{
    let found = find(text.allocator(), part, declared)?;
    push_line(text, &part.grammar, part.role, found)?;
    Ok(found.is_yes())
}

/// Adds the line of a role, and says whether it says yes.
fn push_role(
    text: &mut Text,
    g: &Grammar,
    f: &Faces,
    declared: &Declared,
    role: u16,
) -> Result<bool, AllocError>
    requires faces { face_fault (grammar_of g.now) f.now.offers f.now.uses ≡ None }
    requires range { Each (IsPosition (grammar_of g.now).sorts) declared.now }
    ensures { IfOk result (λ yes. TellsOne f.now.offers declared.now (words_of g.now) (grammar_of g.now) role text.old text.new yes) }
{
    let part = split(text.allocator(), g, f, role)?;
    let told = push_part(text, &part, declared);
    drop(part);
    told
}

/// Whether two things hold.
fn both(first: bool, second: bool) -> bool
    ensures { result ≡ (first && second) }
{
    first && second
}

/// Adds `joined`, where each role says yes.
fn push_joined(text: &mut Text, joined: bool) -> Result<(), AllocError>
    ensures { OnOk result (text.new ≡ text.old ++ joined_line joined) }
{
    if joined {
        text.push_bytes(b"joined\n")
    } else {
        Ok(())
    }
}

/// How many roles there are: at most 64.
fn count_roles(g: &Grammar) -> u16
    ensures { result ≡ (grammar_of g.now).roles }
{
    g.roles.len() as u16
}

/// What is told of the roles of a grammar that keeps to its faces: for each role in order `role lab ok`,
/// `role lab circular loop at 1.in1` or `role lab exceeds note 2 1`, and then `joined` where each says yes. Want of memory is
/// the only error.
pub fn roles_text(
    alloc: Global,
    g: &Grammar,
    f: &Faces,
    declared: &Declared,
) -> Result<Text, AllocError>
    requires faces { face_fault (grammar_of g.now) f.now.offers f.now.uses ≡ None }
    requires range { Each (IsPosition (grammar_of g.now).sorts) declared.now }
    ensures { IfOk result (λ text. TellsRoles f.now.offers declared.now (words_of g.now) (grammar_of g.now) text) }
{
    let mut text = Text::new(alloc);
    let mut joined = true;
    for role in 0..count_roles(g) {
        let yes = push_role(&mut text, g, f, declared, role)?;
        joined = both(joined, yes);
    }
    push_joined(&mut text, joined)?;
    Ok(text)
}
