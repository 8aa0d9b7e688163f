//! The front of an input, for the commands that serve: its specification is read, its types are checked, and it is accepted.
ghost use Rattle.std.specs.Prelude.{◌≡◌, ◌≤◌, length, IfErr, IfOk, IsTrue, Ok};
ghost use Rattle.aw_grammar.specs.GrammarOf.{grammar_of};
ghost use Rattle.aw_typed.specs.Types.{AreFor};
ghost use Rattle.aw_typed.specs.Typing.{types_of, IsMadeFor, NumbersInRange};
ghost use Rattle.aw_spec.specs.Views.{spec_seen};
ghost use Rattle.aw_spec_writer.specs.SpecLines.{written};
ghost use Rattle.aw_front.specs.Fronts.{IsFrontOf, IsJudged, Nothing, ReadyOr};
ghost use Rattle.aw_front.specs.Output.{IfAccepted, IfTyped};

use crate::limit::INPUT_LIMIT;
use crate::refusals::{bad_specification, bad_types, not_accepted};
use crate::reply::Reply;
use aw_accept::{Accepted, accept};
use aw_base::Grammar;
use aw_list::Text;
use aw_spec::{SpecFault, SpecText, read_spec};
use aw_spec_writer::write_spec;
use aw_typed::{Typed, type_check};
use std::alloc::{AllocError, Global};

/// An accepted specification with its types, and its text where that was asked for.
#[derive(Drop)]
pub struct Opened {
    pub accepted: Accepted,
    pub typed: Typed,
    pub text: Text,
}

/// What stands at the front of an input.
#[derive(Drop)]
pub enum Front {
    /// A specification to be served.
    Ready(Opened),
    /// No good specification, and this is said of it.
    Refused(Reply),
}

/// The text of a specification, where it is asked for.
fn text_of(alloc: Global, spec: &SpecText, writes: bool) -> Result<Text, AllocError>
    ensures { IfOk result (λ text. IsTrue writes → text ≡ written (spec_seen spec.now)) }
{
    if writes {
        write_spec(alloc, spec)
    } else {
        Ok(Text::new(alloc))
    }
}

/// The grammar of a specification, the rest of which is dropped.
pub fn grammar_alone(spec: SpecText) -> Grammar
    ensures { result ≡ spec.grammar }
{
    let SpecText { grammar, .. } = spec;
    grammar
}

/// A grammar that is accepted, or what is said of one that is not.
fn judge(alloc: Global, grammar: Grammar) -> Result<Result<Accepted, Reply>, AllocError>
    ensures { IfOk result (λ judged. IsJudged grammar judged) }
{
    match accept(alloc, grammar) {
        Ok(accepted) => Ok(Ok(accepted)),
        Err(refused) => Ok(Err(not_accepted(alloc, refused)?)),
    }
}

/// What acceptance says of a grammar, behind a text that was made.
fn judge_behind(
    alloc: Global,
    grammar: Grammar,
    text: Result<Text, AllocError>,
) -> Result<(Result<Accepted, Reply>, Text), AllocError>
    ensures judged { IfOk result (λ r. IsJudged grammar r.0) }
    ensures text { IfOk result (λ r. text ≡ Ok r.1) }
{
    match text {
        Ok(text) => {
            let judged = judge(alloc, grammar)?;
            Ok((judged, text))
        }
        Err(error) => {
            drop(grammar);
            Err(error)
        }
    }
}

/// What acceptance says of a specification, and its text where that is asked for.
fn judge_with_text(
    alloc: Global,
    spec: SpecText,
    writes: bool,
) -> Result<(Result<Accepted, Reply>, Text), AllocError>
    ensures judged { IfOk result (λ r. IsJudged spec.grammar r.0) }
    ensures text { IfOk result (λ r. IsTrue writes → r.1 ≡ written (spec_seen spec)) }
{
    let text = text_of(alloc, &spec, writes);
    let grammar = grammar_alone(spec);
    judge_behind(alloc, grammar, text)
}

/// The front of a specification by what acceptance said of it.
fn front_of_judged(judged: Result<Accepted, Reply>, typed: Typed, text: Text) -> Front
    ensures ready { IfOk judged (λ a. result ≡ Front.Ready (record { accepted = a; typed = typed; text = text })) }
    ensures refused { IfErr judged (λ said. result ≡ Front.Refused said) }
{
    match judged {
        Ok(accepted) => Front::Ready(Opened {
            accepted,
            typed,
            text,
        }),
        Err(reply) => Front::Refused(reply),
    }
}

/// The front of a good specification whose types have no fault.
fn front_of_typed(
    alloc: Global,
    spec: SpecText,
    typed: Typed,
    writes: bool,
) -> Result<Front, AllocError>
    requires types { typed.types ≡ spec.types }
    requires made { IsMadeFor (grammar_of spec.grammar) typed }
    ensures { IfOk result (λ front. ReadyOr (IfAccepted (spec_seen spec) Nothing) (spec_seen spec) writes front) }
{
    let (judged, text) = judge_with_text(alloc, spec, writes)?;
    Ok(front_of_judged(judged, typed, text))
}

/// The front of a good specification.
fn front_of_specification(alloc: Global, spec: SpecText, writes: bool) -> Result<Front, AllocError>
    requires sizes { AreFor (grammar_of spec.grammar) (types_of spec.types) }
    requires numbers { NumbersInRange (types_of spec.types) }
    ensures { IfOk result (λ front. ReadyOr (IfTyped (spec_seen spec) (IfAccepted (spec_seen spec) Nothing)) (spec_seen spec) writes front) }
{
    match type_check(alloc, &spec.grammar, &spec.types) {
        Ok(typed) => front_of_typed(alloc, spec, typed, writes),
        Err(fault) => {
            let said = bad_types(alloc, &spec.grammar, fault);
            drop(spec);
            Ok(Front::Refused(said?))
        }
    }
}

/// The front of an input that is within its limit, with the text of its specification where that is asked for.
pub fn front_of_input(alloc: Global, input: &[u8], writes: bool) -> Result<Front, AllocError>
    requires within { length input.now ≤ INPUT_LIMIT }
    ensures { IfOk result (λ front. IsFrontOf input.now writes front) }
{
    match read_spec(alloc, input) {
        Ok(spec) => front_of_specification(alloc, spec, writes),
        Err(SpecFault::Bad { line, kind }) => {
            Ok(Front::Refused(bad_specification(alloc, line, kind)?))
        }
        Err(SpecFault::NoMemory) => Err(AllocError),
    }
}
