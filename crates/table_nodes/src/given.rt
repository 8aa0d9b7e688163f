//! The specification of a part or an entry.
ghost use Rattle.std.specs.Prelude.{◌≡◌, IfOk};
ghost use Rattle.aw_grammar.specs.GrammarOf.{grammar_of};
ghost use Rattle.aw_typed.specs.Types.{AreFor};
ghost use Rattle.aw_typed.specs.Typing.{types_of, IsMadeFor, NumbersInRange};

use aw_accept::{Accepted, accept};
use aw_spec::{SpecText, read_spec};
use aw_typed::{Typed, type_check};
use std::alloc::Global;
use table_common::TableFault;

/// A grammar that is not circular, and its types.
#[derive(Drop)]
pub struct Given {
    pub accepted: Accepted,
    pub typed: Typed,
}

/// The grammar of a specification, where it is not circular.
fn accepted_of(alloc: Global, spec: SpecText) -> Result<Accepted, TableFault>
    ensures { IfOk result (λ accepted. accepted.grammar ≡ spec.grammar) }
{
    match accept(alloc, spec.into_grammar()) {
        Ok(accepted) => Ok(accepted),
        Err(refused) => {
            drop(refused);
            Err(TableFault::Unreadable)
        }
    }
}

/// What is given by a specification whose types have no fault.
fn given_typed(alloc: Global, spec: SpecText, typed: Typed) -> Result<Given, TableFault>
    requires { IsMadeFor (grammar_of spec.grammar) typed }
    ensures { IfOk result (λ given. IsMadeFor (grammar_of given.accepted.grammar) given.typed) }
{
    match accepted_of(alloc, spec) {
        Ok(accepted) => Ok(Given { accepted, typed }),
        Err(fault) => Err(fault),
    }
}

/// What is given by a specification.
fn given_spec(alloc: Global, spec: SpecText) -> Result<Given, TableFault>
    requires sizes { AreFor (grammar_of spec.grammar) (types_of spec.types) }
    requires numbers { NumbersInRange (types_of spec.types) }
    ensures { IfOk result (λ given. IsMadeFor (grammar_of given.accepted.grammar) given.typed) }
{
    match type_check(alloc, &spec.grammar, &spec.types) {
        Ok(typed) => given_typed(alloc, spec, typed),
        Err(_) => {
            drop(spec);
            Err(TableFault::Unreadable)
        }
    }
}

/// What the text of a specification gives.
pub fn given_of(alloc: Global, declared: &[u8]) -> Result<Given, TableFault>
    ensures { IfOk result (λ given. IsMadeFor (grammar_of given.accepted.grammar) given.typed) }
{
    match read_spec(alloc, declared) {
        Ok(spec) => given_spec(alloc, spec),
        Err(_) => Err(TableFault::Unreadable),
    }
}
