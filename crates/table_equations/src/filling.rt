//! The equations over which the lines are printed.
use crate::narrow::is_narrow;
use aw_base::{Node, Ref, Slot, Trail};
use aw_list::Text;
use aw_store::{Body, Equation, Facts, Refs};
use std::alloc::{AllocError, Global};

/// The numbers of the constructors, in the order in which they are declared.
const PAIR: u16 = 0;

pub const BOX: u16 = 1;

pub const NONE: u16 = 2;

/// `visit#CASE`.
pub fn node(alloc: Global, case: u64) -> Node {
    Node {
        start: 0,
        case,
        steps: Trail::new(alloc),
    }
}

/// `visit#1:pK`.
fn part(alloc: Global, k: u16) -> Ref {
    Ref {
        node: node(alloc, 1),
        slot: Slot::Part(k),
    }
}

/// `visit#1:rJ`.
fn result(alloc: Global, j: u16) -> Ref {
    Ref {
        node: node(alloc, 1),
        slot: Slot::Result(j),
    }
}

/// These parts of the first visit.
pub fn parts(alloc: Global, numbers: &[u16]) -> Result<Refs, AllocError> {
    let mut refs = Vec::new(alloc);
    for k in numbers {
        refs.push(part(alloc, *k))?;
    }
    Refs::from_vec(refs)
}

/// Adds an equation; all that are printed have at most 8 references.
fn add<F: Facts>(f: &mut F, left: Ref, body: Body) -> Result<(), AllocError> {
    let e = Equation { left, body };
    if is_narrow(&e) {
        f.add(e)?;
    }
    Ok(())
}

/// Adds the results of the first visit: `pair("Ada", 7)`, and a part without an equation.
fn add_results<F: Facts>(alloc: Global, f: &mut F) -> Result<(), AllocError> {
    add(f, result(alloc, 1), Body::Con(PAIR, parts(alloc, &[2, 3])?))?;
    let name = Text::from_bytes(alloc, b"Ada")?;
    add(f, part(alloc, 2), Body::Text(name))?;
    add(f, part(alloc, 3), Body::Num(7))?;
    add(f, result(alloc, 2), Body::Same(part(alloc, 4)))?;
    add(f, part(alloc, 4), Body::Same(part(alloc, 5)))
}

/// Adds what lines are printed of: part 1 has no end, the parts 6 and 7 are one another, and each part from 10 on has the
/// next one twice.
pub fn fill<F: Facts>(alloc: Global, f: &mut F) -> Result<(), AllocError> {
    add(f, part(alloc, 1), Body::Con(BOX, parts(alloc, &[1])?))?;
    add_results(alloc, f)?;
    add(f, part(alloc, 6), Body::Same(part(alloc, 7)))?;
    add(f, part(alloc, 7), Body::Same(part(alloc, 6)))?;
    add(f, part(alloc, 8), Body::Con(NONE, Refs::new(alloc)))?;
    for k in 10..50u16 {
        let body = Body::Con(PAIR, parts(alloc, &[k + 1, k + 1])?);
        add(f, part(alloc, k), body)?;
    }
    Ok(())
}
