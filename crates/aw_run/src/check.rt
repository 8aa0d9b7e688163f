//! The command that tells the dependences of a specification, its roles checked apart and its waiting, or its least circle.
ghost use Rattle.std.specs.Prelude.{◌≡◌, None, IfOk};
ghost use Rattle.aw_term.specs.WellFormed.{Each};
ghost use Rattle.aw_grammar.specs.GrammarOf.{grammar_of, words_of};
ghost use Rattle.aw_face.specs.Faces.{face_fault};
ghost use Rattle.aw_modular.specs.Refusals.{IsPosition};
ghost use Rattle.aw_spec.specs.TypesFit.{TypesFit};
ghost use Rattle.aw_spec.specs.Views.{spec_seen};
ghost use Rattle.aw_accept.specs.Circular.{IsRelation};
ghost use Rattle.aw_run.specs.Checked.{TellsApart, TellsFree, TellsChecked};
ghost use Rattle.aw_front.specs.Output.{IfAccepted};
ghost use Rattle.aw_run.specs.Output.{TellsSpecification, WritesChecked};
ghost use Rattle.aw_front.specs.Replies.{Replies};

use aw_accept::{Accepted, accept};
use aw_base::Declared;
use aw_check_text::{accepted_text, roles_text, wait_text};
use aw_face::Faces;
use aw_front::{Reply, Status, not_accepted};
use aw_grammar::Grammar;
use aw_list::Text;
use aw_spec::SpecText;
use std::alloc::{AllocError, Global};

/// What is told of the roles checked apart: nothing, where no dependence is declared.
fn apart_text(
    alloc: Global,
    g: &Grammar,
    faces: &Faces,
    depends: &Declared,
) -> Result<Text, AllocError>
    requires faces { face_fault (grammar_of g.now) faces.now.offers faces.now.uses ≡ None }
    requires range { Each (IsPosition (grammar_of g.now).sorts) depends.now }
    ensures { IfOk result (λ text. TellsApart depends.now faces.now.offers (words_of g.now) (grammar_of g.now) text) }
{
    if depends.is_empty() {
        return Ok(Text::new(alloc));
    }
    roles_text(alloc, g, faces, depends)
}

/// What is told of waiting: nothing, where it is not asked for.
fn free_text(alloc: Global, accepted: &Accepted, free: bool) -> Result<Text, AllocError>
    ensures { IfOk result (λ text. TellsFree free (words_of accepted.now.grammar) (grammar_of accepted.now.grammar) text) }
{
    if free {
        wait_text(alloc, accepted)
    } else {
        Ok(Text::new(alloc))
    }
}

/// What is told of an accepted specification.
fn checked_text(
    alloc: Global,
    accepted: &Accepted,
    faces: &Faces,
    depends: &Declared,
    free: bool,
) -> Result<Text, AllocError>
    requires relation { IsRelation accepted.now.grammar accepted.now.io }
    requires faces { face_fault (grammar_of accepted.now.grammar) faces.now.offers faces.now.uses ≡ None }
    requires range { Each (IsPosition (grammar_of accepted.now.grammar).sorts) depends.now }
    ensures { IfOk result (λ text. TellsChecked depends.now faces.now.offers free (words_of accepted.now.grammar) (grammar_of accepted.now.grammar) text) }
{
    let mut text = accepted_text(alloc, accepted)?;
    let roles = apart_text(alloc, accepted.grammar(), faces, depends)?;
    let waits = free_text(alloc, accepted, free)?;
    text.push_bytes(roles.as_slice())?;
    text.push_bytes(waits.as_slice())?;
    Ok(text)
}

/// The reply to a specification that was accepted.
fn tell_specification(
    alloc: Global,
    accepted: &Accepted,
    faces: &Faces,
    depends: &Declared,
    free: bool,
) -> Result<Reply, AllocError>
    requires relation { IsRelation accepted.now.grammar accepted.now.io }
    requires faces { face_fault (grammar_of accepted.now.grammar) faces.now.offers faces.now.uses ≡ None }
    requires range { Each (IsPosition (grammar_of accepted.now.grammar).sorts) depends.now }
    ensures { IfOk result (Replies (WritesChecked depends.now faces.now.offers free (words_of accepted.now.grammar) (grammar_of accepted.now.grammar))) }
{
    Ok(Reply {
        status: Status::Done,
        text: checked_text(alloc, accepted, faces, depends, free)?,
    })
}

/// What is asked of a specification beside its grammar: its faces, its declared dependences, and whether it says that it is free of
/// waiting.
#[derive(Drop)]
struct Asked {
    faces: Faces,
    depends: Declared,
    free: bool,
}

/// The grammar of a specification, and what is asked of it. The rest is dropped.
fn grammar_and_asked(spec: SpecText) -> (Grammar, Asked)
    ensures grammar { result.0 ≡ spec.grammar }
    ensures asked { result.1 ≡ record { faces = spec.faces; depends = spec.depends; free = spec.free } }
{
    let SpecText {
        grammar,
        faces,
        depends,
        free,
        ..
    } = spec;
    let asked = Asked {
        faces,
        depends,
        free,
    };
    (grammar, asked)
}

/// The reply to a specification that was accepted, of which this is asked.
fn tell_asked(alloc: Global, accepted: &Accepted, asked: &Asked) -> Result<Reply, AllocError>
    requires relation { IsRelation accepted.now.grammar accepted.now.io }
    requires faces { face_fault (grammar_of accepted.now.grammar) asked.now.faces.offers asked.now.faces.uses ≡ None }
    requires range { Each (IsPosition (grammar_of accepted.now.grammar).sorts) asked.now.depends }
    ensures { IfOk result (Replies
        (WritesChecked asked.now.depends asked.now.faces.offers asked.now.free (words_of accepted.now.grammar) (grammar_of accepted.now.grammar))) }
{
    tell_specification(alloc, accepted, &asked.faces, &asked.depends, asked.free)
}

/// The reply to a good specification.
pub fn check(alloc: Global, spec: SpecText) -> Result<Reply, AllocError>
    requires faces { face_fault (grammar_of spec.grammar) spec.faces.offers spec.faces.uses ≡ None }
    requires fits { TypesFit (spec_seen spec) }
    ensures { IfOk result (λ reply. Replies (IfAccepted (spec_seen spec) (TellsSpecification (spec_seen spec))) reply) }
{
    let (grammar, asked) = grammar_and_asked(spec);
    match accept(alloc, grammar) {
        Ok(accepted) => {
            let reply = tell_asked(alloc, &accepted, &asked);
            drop(accepted);
            drop(asked);
            reply
        }
        Err(refused) => {
            drop(asked);
            not_accepted(alloc, refused)
        }
    }
}
