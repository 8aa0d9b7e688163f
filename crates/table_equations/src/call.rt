//! Calls on any store, and what it answers.
use crate::narrow::{are_narrow, is_narrow};
use aw_name::Ref;
use aw_store::{
    Added, Body, Chase, Equation, Equations, Facts, Kind, chase, copy_equation, equation_at, ref_at,
};
use std::alloc::{AllocError, Global};

/// A call on a store.
#[derive(Drop)]
pub enum Call {
    Name(Ref),
    Slot(Ref),
    Reserve(Equations),
    Add(Equation),
    /// The name, the kind and the body at the slot of a reference.
    Read(Ref),
    Chase(Ref),
    Count,
}

/// What a store answers.
#[derive(PartialEq, Eq, Drop)]
pub enum Told {
    Named(usize),
    Slot(Option<usize>),
    Reserved,
    Added(Added),
    /// The reference is not named, so nothing is read or chased.
    Unnamed,
    Stands {
        name: Ref,
        kind: Kind,
        body: Option<Body>,
    },
    End(Chase),
    Count(usize),
    /// A constructor with more than 8 references, which no store takes.
    TooWide,
}

fn reserve<F: Facts>(f: &mut F, es: &Equations) -> Result<Told, AllocError> {
    if !are_narrow(es.as_slice()) {
        return Ok(Told::TooWide);
    }
    f.reserve(es)?;
    Ok(Told::Reserved)
}

fn add<F: Facts>(f: &mut F, e: Equation) -> Result<Told, AllocError> {
    if !is_narrow(&e) {
        return Ok(Told::TooWide);
    }
    Ok(Told::Added(f.add(e)?))
}

fn read<F: Facts>(alloc: Global, f: &F, r: &Ref) -> Result<Told, AllocError> {
    match f.slot_of(r) {
        Some(slot) => Ok(Told::Stands {
            name: ref_at(f, slot)?,
            kind: f.kind(slot),
            body: equation_at(alloc, f, slot)?,
        }),
        None => Ok(Told::Unnamed),
    }
}

fn chased<F: Facts>(f: &F, r: &Ref) -> Told {
    match f.slot_of(r) {
        Some(slot) => Told::End(chase(f, slot)),
        None => Told::Unnamed,
    }
}

/// What a store answers to a call.
pub fn answer<F: Facts>(alloc: Global, f: &mut F, call: &Call) -> Result<Told, AllocError> {
    match call {
        Call::Name(r) => Ok(Told::Named(f.intern(r)?)),
        Call::Slot(r) => Ok(Told::Slot(f.slot_of(r))),
        Call::Reserve(es) => reserve(f, es),
        Call::Add(e) => add(f, copy_equation(e)?),
        Call::Read(r) => read(alloc, f, r),
        Call::Chase(r) => Ok(chased(f, r)),
        Call::Count => Ok(Told::Count(f.count())),
    }
}
