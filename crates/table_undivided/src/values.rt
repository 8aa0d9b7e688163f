//! Arguments that are drawn.
use crate::draws::Draws;
use aw_grammar::Grammar;
use aw_list::Text;
use aw_term::{Ground, Grounds};
use std::alloc::{AllocError, Global};

/// So many small numbers.
fn numbers(alloc: Global, draws: &mut Draws, count: u8) -> Result<Grounds, AllocError> {
    let mut values = Grounds::new(alloc);
    for _ in 0..count {
        values.push(Ground::Num(draws.draw(2)))?;
    }
    Ok(values)
}

/// A constructor with numbers, or a number where none is declared.
fn constructed(alloc: Global, draws: &mut Draws, g: &Grammar) -> Result<Ground, AllocError> {
    if g.cons.is_empty() {
        return Ok(Ground::Num(0));
    }
    let con = draws.draw(g.cons.len() as u64) as u16;
    match g.con(con) {
        Some(declared) => Ok(Ground::Con(con, numbers(alloc, draws, declared.arity)?)),
        None => Ok(Ground::Num(0)),
    }
}

/// A number, a text or a constructor.
fn value(alloc: Global, draws: &mut Draws, g: &Grammar) -> Result<Ground, AllocError> {
    match draws.draw(3) {
        0 => Ok(Ground::Num(draws.draw(3))),
        1 => {
            let letter = b'a' + draws.draw(2) as u8;
            Ok(Ground::Text(Text::from_bytes(alloc, &[letter])?))
        }
        _ => constructed(alloc, draws, g),
    }
}

/// So many arguments.
pub fn arguments(
    alloc: Global,
    draws: &mut Draws,
    g: &Grammar,
    count: u8,
) -> Result<Grounds, AllocError> {
    let mut args = Grounds::new(alloc);
    for _ in 0..count {
        args.push(value(alloc, draws, g)?)?;
    }
    Ok(args)
}
