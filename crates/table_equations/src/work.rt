//! Work on a store, and the number that it comes to.
use crate::nodes::{Size, equation, equations, reference};
use aw_cells::CellFacts;
use aw_name::{Node, Ref};
use aw_store::{Chase, Facts, Kind, chase};
use std::alloc::{AllocError, Global};

/// What is done with each reference of each node.
#[derive(Clone, Copy)]
pub enum Work {
    /// It is built, and dropped.
    Built,
    /// It is named.
    Named,
    /// Its equation is added.
    Added,
    /// All are named; then all equations are added.
    Both,
    /// Memory is taken for its equation, which is then added.
    Reserved,
    /// All are named, all equations added, and then each is found and chased.
    Read,
}

/// The sum of the case numbers of what is built of a node.
fn build_of(node: &Node) -> Result<u64, AllocError> {
    let mut sum: u64 = 0;
    for which in 0..4 {
        sum = sum.wrapping_add(reference(node, which)?.node.case);
    }
    Ok(sum)
}

fn build_all(alloc: Global, size: Size) -> Result<u64, AllocError> {
    let mut sum: u64 = 0;
    for i in 0..size.count() {
        sum = sum.wrapping_add(build_of(&size.node(alloc, i)?)?);
    }
    Ok(sum)
}

/// The sum of the slots of a node.
fn name_of(f: &mut CellFacts, node: &Node) -> Result<u64, AllocError> {
    let mut sum: u64 = 0;
    for which in 0..4 {
        sum = sum.wrapping_add(f.intern(&reference(node, which)?)? as u64);
    }
    Ok(sum)
}

fn name_all(alloc: Global, f: &mut CellFacts, size: Size) -> Result<u64, AllocError> {
    let mut sum: u64 = 0;
    for i in 0..size.count() {
        sum = sum.wrapping_add(name_of(f, &size.node(alloc, i)?)?);
    }
    Ok(sum)
}

fn add_of(alloc: Global, f: &mut CellFacts, node: &Node) -> Result<(), AllocError> {
    for which in 0..4 {
        drop(f.add(equation(alloc, node, which)?)?);
    }
    Ok(())
}

/// How many equations there are then.
fn add_all(alloc: Global, f: &mut CellFacts, size: Size) -> Result<u64, AllocError> {
    for i in 0..size.count() {
        add_of(alloc, f, &size.node(alloc, i)?)?;
    }
    Ok(f.count() as u64)
}

fn reserve_of(alloc: Global, f: &mut CellFacts, node: &Node) -> Result<(), AllocError> {
    for which in 0..4 {
        f.reserve(&equations(alloc, node, which)?)?;
        drop(f.add(equation(alloc, node, which)?)?);
    }
    Ok(())
}

/// How many equations there are then.
fn reserve_all(alloc: Global, f: &mut CellFacts, size: Size) -> Result<u64, AllocError> {
    for i in 0..size.count() {
        reserve_of(alloc, f, &size.node(alloc, i)?)?;
    }
    Ok(f.count() as u64)
}

fn look(f: &CellFacts, r: &Ref) -> u64 {
    let Some(slot) = f.slot_of(r) else {
        return 7;
    };
    match f.kind(slot) {
        Kind::Missing => 0,
        Kind::Same(_) => match chase(f, slot) {
            Chase::Found(end) | Chase::Missing(end) | Chase::Circle(end) => end as u64,
        },
        Kind::Con(_, _) => 2,
        Kind::Num(_) => 3,
        Kind::Text => 4,
    }
}

/// The sum of what stands at the slots of a node.
fn read_of(f: &CellFacts, node: &Node) -> Result<u64, AllocError> {
    let mut sum: u64 = 0;
    for which in 0..4 {
        sum = sum.wrapping_add(look(f, &reference(node, which)?));
    }
    Ok(sum)
}

fn read_all(alloc: Global, f: &CellFacts, size: Size) -> Result<u64, AllocError> {
    let mut sum: u64 = 0;
    for i in 0..size.count() {
        sum = sum.wrapping_add(read_of(f, &size.node(alloc, i)?)?);
    }
    Ok(sum)
}

/// Does the work on a store.
fn work_on(alloc: Global, f: &mut CellFacts, size: Size, work: Work) -> Result<u64, AllocError> {
    match work {
        Work::Built => build_all(alloc, size),
        Work::Named => name_all(alloc, f, size),
        Work::Added => add_all(alloc, f, size),
        Work::Both => {
            let _sum = name_all(alloc, f, size)?;
            add_all(alloc, f, size)
        }
        Work::Reserved => reserve_all(alloc, f, size),
        Work::Read => {
            let _sum = name_all(alloc, f, size)?;
            let _count = add_all(alloc, f, size)?;
            read_all(alloc, f, size)
        }
    }
}

/// Does the work on an empty store.
pub fn run(alloc: Global, size: Size, work: Work) -> Result<u64, AllocError> {
    let mut f = CellFacts::new(alloc);
    let done = work_on(alloc, &mut f, size, work);
    drop(f);
    done
}
