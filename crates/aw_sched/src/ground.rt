//! Arguments of a choice, from the terms that are written.
ghost use Rattle.std.specs.Prelude.{◌≡◌, [], map};
ghost use Rattle.aw_term.specs.Trees.{Made, Nil};
ghost use Rattle.aw_term.specs.Views.{ground_of, head_of};
ghost use Rattle.aw_grammar.specs.Written.{Apply, Word, side_by_side, written_of};
ghost use Rattle.aw_grammar.specs.GrammarOf.{words_of};
ghost use Rattle.aw_sched.specs.Events.{args_are_past};
ghost use Rattle.aw_grammar.specs.Named.{number_named};
ghost use Rattle.aw_sched.specs.ArgumentRoots.{FindsRoot};
ghost use Rattle.aw_sched.specs.Grounds.{Finds, known_ground, known_grounds};

use crate::fault::{LineFault, SchedKind};
use aw_base::{
    Grammar, Ground, Grounds, Lit, MOST_ARGUMENTS, MOST_LEVELS, MOST_SYMBOLS, RawTerm, RawTerms,
    Text, room_after_all,
};
use std::alloc::Global;
use std::mem;

/// Whether arguments are past a limit: 8 arguments, 256 symbols together, 32 levels each.
pub(crate) fn args_are_past(args: &RawTerms) -> bool
    ensures { result ≡ args_are_past (map written_of args.now) }
{
    args.len() > MOST_ARGUMENTS || room_after_all(args, MOST_LEVELS, MOST_SYMBOLS).is_none()
}

fn con_named(g: &Grammar, name: &[u8]) -> Result<u16, LineFault>
    ensures { Finds (λ c. c) (number_named (words_of g.now).cons name.now) result }
{
    match g.con_named(name) {
        Some(con) => Ok(con),
        None => Err(LineFault::Bad(SchedKind::Unknown)),
    }
}

/// What is found at the root of a term: the whole argument, or its constructor, its parts as they are written, and room for them.
#[derive(Drop)]
enum ArgumentRoot {
    Whole(Ground),
    Parts {
        con: u16,
        parts: RawTerms,
        found: Grounds,
    },
}

/// The argument that a bare name is.
fn root_of_word(alloc: Global, g: &Grammar, name: &[u8]) -> Result<ArgumentRoot, LineFault>
    ensures { FindsRoot (words_of g.now).cons (Word name.now) result }
{
    let con = con_named(g, name)?;
    Ok(ArgumentRoot::Whole(Ground::Con(con, Grounds::new(alloc))))
}

/// The root of an argument whose parts stand in parentheses. They are taken out of there.
fn root_of_parts(
    alloc: Global,
    g: &Grammar,
    name: &[u8],
    parts: &mut RawTerms,
) -> Result<ArgumentRoot, LineFault>
    ensures { FindsRoot (words_of g.now).cons (Apply name.now (side_by_side (map written_of parts.old))) result }
{
    let con = con_named(g, name)?;
    let found = Grounds::from_vec(Vec::with_capacity(alloc, parts.len())?);
    let parts = mem::replace(parts, RawTerms::new(alloc));
    Ok(ArgumentRoot::Parts { con, parts, found })
}

/// The argument that is a number or a text, which is taken out of there.
fn ground_of_literal(alloc: Global, literal: &mut Lit) -> Ground
    ensures { ground_of result ≡ Made (head_of literal.old) Nil }
{
    match literal {
        Lit::Num(n) => Ground::Num(*n),
        Lit::Text(text) => Ground::Text(mem::replace(text, Text::new(alloc))),
    }
}

/// The root of an argument, its name looked up; its texts and parts are taken out of the term.
fn root_of(alloc: Global, g: &Grammar, mut term: RawTerm) -> Result<ArgumentRoot, LineFault>
    ensures { FindsRoot (words_of g.now).cons (written_of term) result }
{
    match &mut term {
        RawTerm::Word(name) => root_of_word(alloc, g, name.as_slice()),
        RawTerm::Apply(name, parts) => root_of_parts(alloc, g, name.as_slice(), parts),
        RawTerm::Lit(literal) => Ok(ArgumentRoot::Whole(ground_of_literal(alloc, literal))),
    }
}

/// An argument with its names looked up.
#[cycle(ground)]
fn ground(alloc: Global, g: &Grammar, term: RawTerm) -> Result<Ground, LineFault>
    ensures { Finds ground_of (known_ground (words_of g.now).cons (written_of term)) result }
{
    match root_of(alloc, g, term)? {
        ArgumentRoot::Whole(argument) => Ok(argument),
        ArgumentRoot::Parts {
            con,
            parts,
            mut found,
        } => {
            add_grounds(alloc, g, parts, &mut found)?;
            Ok(Ground::Con(con, found))
        }
    }
}

/// Adds the arguments to none, with their names looked up.
#[cycle(ground)]
fn add_grounds(
    alloc: Global,
    g: &Grammar,
    terms: RawTerms,
    found: &mut Grounds,
) -> Result<(), LineFault>
    requires { found.old ≡ [] }
    ensures { Finds (λ _. map ground_of found.new) (known_grounds (words_of g.now).cons (map written_of terms)) result }
{
    for term in terms.into_vec() {
        let argument = ground(alloc, g, term)?;
        found.push(argument)?;
    }
    Ok(())
}

/// The arguments with their names looked up. They are at most 32 deep. Texts are handed on with their memory.
pub(crate) fn grounds(alloc: Global, g: &Grammar, terms: RawTerms) -> Result<Grounds, LineFault>
    ensures { Finds (λ found. map ground_of found) (known_grounds (words_of g.now).cons (map written_of terms)) result }
{
    let mut found = Grounds::from_vec(Vec::with_capacity(alloc, terms.len())?);
    add_grounds(alloc, g, terms, &mut found)?;
    Ok(found)
}
