//! A grammar in which nothing is typed.
ghost use Rattle.std.specs.Prelude.{◌≡◌, false, replicate, None, IfOk};
ghost use Rattle.aw_grammar.specs.GrammarOf.{grammar_of};
ghost use Rattle.aw_typed.specs.Typing.{types_of, IsMadeFor, NumbersInRange};
ghost use Rattle.aw_typed.specs.Types.{AreFor};

use crate::checking::type_check;
use crate::data::{Carries, Shapes, Typed, Types};
use aw_grammar::{Grammar, Names};
use std::alloc::{AllocError, Global};

/// No shapes of so many constructors.
fn no_shapes(alloc: Global, count: usize) -> Result<Shapes, AllocError>
    ensures { IfOk result (λ shapes. shapes ≡ replicate count None) }
{
    let mut shapes = Shapes::new(alloc);
    for _ in 0..count {
        shapes.push(None)?;
    }
    Ok(shapes)
}

/// No carries of so many sorts.
fn no_carries(alloc: Global, count: usize) -> Result<Carries, AllocError>
    ensures { IfOk result (λ carries. carries ≡ replicate count None) }
{
    let mut carries = Carries::new(alloc);
    for _ in 0..count {
        carries.push(None)?;
    }
    Ok(carries)
}

/// The types of a grammar that has none.
fn no_types(alloc: Global, g: &Grammar) -> Result<Types, AllocError>
    ensures untyped { IfOk result (λ t. t.typed ≡ false) }
    ensures sizes { IfOk result (λ t. AreFor (grammar_of g.now) (types_of t)) }
    ensures numbers { IfOk result (λ t. NumbersInRange (types_of t)) }
{
    Ok(Types {
        typed: false,
        names: Names::new(alloc),
        shapes: no_shapes(alloc, g.cons.len())?,
        carries: no_carries(alloc, g.sorts.len())?,
    })
}

/// What every grammar is without types: each choice has arguments that fit.
pub fn untyped(alloc: Global, g: &Grammar) -> Result<Typed, AllocError>
    ensures made { IfOk result (λ y. IsMadeFor (grammar_of g.now) y) }
    ensures untyped { IfOk result (λ y. y.types.typed ≡ false) }
{
    let types = no_types(alloc, g)?;
    match type_check(alloc, g, &types) {
        Ok(typed) => Ok(typed),
        Err(_) => Err(AllocError),
    }
}
