//! Lines of types: what they declare, and what is wrong with them.
ghost use Rattle.std.specs.Prelude.{◌≡◌, ◌≤◌, length, IfOk, Some, None, is_some, if◌then◌else◌};
ghost use Rattle.std.specs.Option.{option_copied};
ghost use Rattle.aw_name_index.specs.Places.{is_same, place_of, stands};
ghost use Rattle.aw_spec.specs.TypeLines as lines;
ghost use Rattle.aw_spec.specs.TypePlaces.{place_from};

use crate::dependences::Dependences;
use aw_base::{Con, Names, Numbers, Sort};
use aw_list::{Items, Text};
use aw_typed::{Carry, Shape, Types};
use std::alloc::AllocError;
use std::mem;

fn is_same_name(x: &[u8], y: &[u8]) -> bool
    ensures { result ≡ is_same x.now y.now }
{
    x == y
}

/// The number of a type that is declared, by its name; the first has number 2.
fn declared_type(names: &Names, name: &[u8]) -> Option<u16>
    requires { length names.now ≤ 256 }
    ensures { result ≡ place_from 2 name.now names.now }
{
    for (i, declared) in names.as_slice().iter().enumerate() {
        if is_same_name(name, declared.as_slice()) {
            return Some((i + 2) as u16);
        }
    }
    None
}

/// The number of a type by its name.
#[tactic(auto, using(crate::proofs::TypeSteps::number_of_declared))]
pub(crate) fn type_named(types: &Types, name: &[u8]) -> Option<u16>
    requires { length types.now.names ≤ 256 }
    ensures { result ≡ place_of name.now (lines.type_names types.now) }
{
    if is_same_name(name, b"num") {
        return Some(0);
    }
    if is_same_name(name, b"text") {
        return Some(1);
    }
    declared_type(&types.names, name)
}

/// Whether a name is that of a type.
pub(crate) fn is_type(types: &Types, name: &[u8]) -> bool
    requires { length types.now.names ≤ 256 }
    ensures { result ≡ stands name.now (lines.type_names types.now) }
{
    type_named(types, name).is_some()
}

/// The numbers of types by their names, where each name is that of a type.
fn types_named(types: &Types, names: &Names) -> Result<Option<Numbers>, AllocError>
    requires { length types.now.names ≤ 256 }
    ensures { IfOk result (λ found. found ≡ lines.types_named (lines.type_names types.now) names.now) }
{
    let mut numbers = Numbers::new(names.allocator());
    for name in names.as_slice() {
        let Some(number) = type_named(types, name.as_slice()) else {
            return Ok(None);
        };
        numbers.push(number)?;
    }
    Ok(Some(numbers))
}

/// The shape of these types, where each is one.
pub(crate) fn shape_named(
    types: &Types,
    parts: &Names,
    own: &Text,
) -> Result<Option<Shape>, AllocError>
    requires { length types.now.names ≤ 256 }
    ensures { IfOk result (λ found. found ≡ lines.shape_named (lines.type_names types.now) parts.now own.now) }
{
    let Some(parts) = types_named(types, parts)? else {
        return Ok(None);
    };
    match type_named(types, own.as_slice()) {
        Some(own) => Ok(Some(Shape { parts, own })),
        None => Ok(None),
    }
}

/// The carry of these types, where each is one.
pub(crate) fn carry_named(
    types: &Types,
    takes: &Names,
    gives: &Names,
) -> Result<Option<Carry>, AllocError>
    requires { length types.now.names ≤ 256 }
    ensures { IfOk result (λ found. found ≡ lines.carry_named (lines.type_names types.now) takes.now gives.now) }
{
    let Some(takes) = types_named(types, takes)? else {
        return Ok(None);
    };
    match types_named(types, gives)? {
        Some(gives) => Ok(Some(Carry { takes, gives })),
        None => Ok(None),
    }
}

/// Whether something is declared of the item at a place.
pub(crate) fn is_declared_at<T>(items: &Items<Option<T>>, at: Option<u16>) -> bool
    ensures { result ≡ is_some (lines.declared_at items.now at) }
{
    let Some(at) = at else {
        return false;
    };
    match items.get(usize::from(at)) {
        Some(item) => item.is_some(),
        None => false,
    }
}

/// Declares this of the item at a place, where there is one.
pub(crate) fn put_at<T: Drop>(items: &mut Items<Option<T>>, at: Option<u16>, item: Option<T>)
    ensures { items.new ≡ lines.with_at items.old at item }
{
    let Some(at) = at else {
        return;
    };
    let at = usize::from(at);
    if at >= items.len() {
        return;
    }
    let alloc = items.allocator();
    let mut put = mem::replace(items, Items::new(alloc)).into_vec();
    put[at] = item;
    *items = Items::from_vec(put);
}

/// Whether a shape has another number of parts than its constructor.
pub(crate) fn is_other_arity(con: Option<&Con>, shape: &Option<Shape>) -> bool
    ensures { result ≡ lines.is_other_arity (option_copied con.entry) shape.now }
{
    match (con, shape) {
        (Some(con), Some(shape)) => shape.parts.len() != usize::from(con.arity),
        _ => false,
    }
}

/// Whether a carry has another number of inherited values or results than its sort.
pub(crate) fn are_other_counts(sort: Option<&Sort>, carry: &Option<Carry>) -> bool
    ensures { result ≡ lines.are_other_counts (option_copied sort.entry) carry.now }
{
    match (sort, carry) {
        (Some(sort), Some(carry)) => {
            carry.takes.len() != usize::from(sort.takes)
                || carry.gives.len() != usize::from(sort.gives)
        }
        _ => false,
    }
}

/// A number that is a position of some, counted from 1.
fn position(count: u8, i: u64) -> Option<u8>
    ensures { result ≡ (if lines.is_position count i then Some i else None) }
{
    if 1 <= i && i <= u64::from(count) {
        Some(i as u8)
    } else {
        None
    }
}

/// The positions of these numbers, where a sort has such an inherited value and such a result.
pub(crate) fn positions(sort: Option<&Sort>, i: u64, j: u64) -> Option<(u8, u8)>
    ensures { result ≡ (if lines.are_no_positions (option_copied sort.entry) i j then None else Some (i, j)) }
{
    let sort = sort?;
    Some((position(sort.takes, i)?, position(sort.gives, j)?))
}

/// Whether it is declared of the sort at a place that result `j` may depend on inherited value `i`.
pub(crate) fn is_dependence(declared: &Dependences, at: Option<u16>, i: u64, j: u64) -> bool
    ensures { result ≡ lines.is_dependence declared.now at i j }
{
    match at {
        Some(sort) => declared.has(sort, i, j),
        None => false,
    }
}
