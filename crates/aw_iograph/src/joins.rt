//! Rows joined over the steps of a rule, child by child, without a list of its arcs.
ghost use Rattle.std.specs.Prelude.{◌≡◌, ◌+◌, ◌/◌, ◌%◌, ◌<◌, ◌≤◌, ℕ, length, IfOk, OnOk};
ghost use Rattle.aw_grammar.specs.GrammarView.{rule_of};
ghost use Rattle.aw_iograph.specs.declared.rows.Arc.{Arc as ArcValue};
ghost use Rattle.aw_iograph.specs.Arcs.{IsFlow, IsMarkedCall, IsCall, IsOfChild, IsOfChildren, IsStep, ArePlaced};
ghost use Rattle.aw_iograph.specs.Pairs.{Has};
ghost use Rattle.aw_iograph.specs.Rows.{IsIn, AreLed, IsJoined, Joins, HasEachWalk, HasOnlyWalks};
ghost use Rattle.aw_iograph.specs.Small.{IsSmall, HasFew, HasFewArgs};

use crate::arcs::{arc, call};
use crate::graph::{Entries, RuleGraph, entries, flow_terms};
use crate::io::Io;
use crate::rows::{PLACES, join_row};
use aw_grammar::{Child, Children, Grammar, Rule};
use aw_list::Items;
use std::alloc::{AllocError, Global};

/// Memory is taken at once for so many flows of a rule, which is enough for most.
const FLOWS: usize = 64;

/// Joins rows over flows, and says whether it is to be done again: whether a row grew after it had been read.
fn join_flows(flows: &RuleGraph, rows: &mut Vec<u128>, read: &mut Vec<bool>) -> bool
    requires size { length rows.old.items ≡ 144 }
    requires places { length read.old.items ≡ 144 }
    requires placed { ArePlaced (IsFlow flows.now) }
    ensures { Joins (IsFlow flows.now) rows.old.items rows.new.items read.old.items read.new.items result }
{
    let mut again = false;
    for flow in flows.as_slice() {
        if join_row(arc(flow), rows, read) {
            again = true;
        }
    }
    again
}

/// The same over the arc of a pair at a child, where it is marked.
fn join_call(
    marked: bool,
    child: u8,
    pair: usize,
    rows: &mut Vec<u128>,
    read: &mut Vec<bool>,
) -> bool
    requires pair { pair < 64 }
    requires size { length rows.old.items ≡ 144 }
    requires places { length read.old.items ≡ 144 }
    requires placed { ArePlaced (IsMarkedCall marked child (pair / 8 + 1) (pair % 8 + 1)) }
    ensures { Joins (IsMarkedCall marked child (pair / 8 + 1) (pair % 8 + 1)) rows.old.items rows.new.items read.old.items read.new.items result }
{
    if marked {
        join_row(call(child, pair), rows, read)
    } else {
        false
    }
}

/// The same over the arcs of all pairs of a child's sort.
fn join_calls(io: &Io, sort: u16, child: u8, rows: &mut Vec<u128>, read: &mut Vec<bool>) -> bool
    requires size { length rows.old.items ≡ 144 }
    requires places { length read.old.items ≡ 144 }
    requires placed { ArePlaced (IsCall io.now sort child) }
    ensures { Joins (IsCall io.now sort child) rows.old.items rows.new.items read.old.items read.new.items result }
{
    let mut again = false;
    for (pair, marked) in io.pairs(sort).iter().enumerate() {
        if join_call(*marked, child, pair, rows, read) {
            again = true;
        }
    }
    again
}

/// The same over the arcs of a child: first those to its arguments, and then those of its sort's pairs.
///
/// The list of flows serves each child in turn, so its memory is taken once.
fn join_child(
    entries: &Entries,
    io: &Io,
    child: &Child,
    number: u8,
    flows: &mut RuleGraph,
    rows: &mut Vec<u128>,
    read: &mut Vec<bool>,
) -> Result<bool, AllocError>
    requires args { length child.now.args ≤ 8 }
    requires size { length rows.old.items ≡ 144 }
    requires places { length read.old.items ≡ 144 }
    requires placed { ArePlaced (IsOfChild entries.now io.now number child.now) }
    ensures { IfOk result (λ again. Joins (IsOfChild entries.now io.now number child.now) rows.old.items rows.new.items read.old.items read.new.items again) }
{
    flows.truncate(0);
    flow_terms(entries, &child.args, number, false, flows)?;
    let first = join_flows(flows, rows, read);
    let then = join_calls(io, child.sort, number, rows, read);
    Ok(then || first)
}

/// The same over the arcs of the children, one child after the other.
fn join_children(
    entries: &Entries,
    io: &Io,
    children: &Children,
    flows: &mut RuleGraph,
    rows: &mut Vec<u128>,
    read: &mut Vec<bool>,
) -> Result<bool, AllocError>
    requires few { length children.now ≤ 8 }
    requires args { HasFewArgs children.now }
    requires size { length rows.old.items ≡ 144 }
    requires places { length read.old.items ≡ 144 }
    requires placed { ArePlaced (IsOfChildren entries.now io.now children.now (length children.now)) }
    ensures { IfOk result (λ again. Joins (IsOfChildren entries.now io.now children.now (length children.now)) rows.old.items rows.new.items read.old.items read.new.items again) }
{
    let mut again = false;
    for (k, child) in children.as_slice().iter().enumerate() {
        if join_child(entries, io, child, (k + 1) as u8, flows, rows, read)? {
            again = true;
        }
    }
    Ok(again)
}

/// The same over all arcs of a rule, those to its results last.
fn join_rule(
    entries: &Entries,
    io: &Io,
    rule: &Rule,
    flows: &mut RuleGraph,
    rows: &mut Vec<u128>,
    read: &mut Vec<bool>,
) -> Result<bool, AllocError>
    requires small { IsSmall rule.now }
    requires size { length rows.old.items ≡ 144 }
    requires places { length read.old.items ≡ 144 }
    requires placed { ArePlaced (IsStep entries.now io.now rule.now.children rule.now.results) }
    ensures { IfOk result (λ again. Joins (IsStep entries.now io.now rule.now.children rule.now.results) rows.old.items rows.new.items read.old.items read.new.items again) }
{
    let first = join_children(entries, io, &rule.children, flows, rows, read)?;
    flows.truncate(0);
    flow_terms(entries, &rule.results, 0, true, flows)?;
    let then = join_flows(flows, rows, read);
    Ok(then || first)
}

/// The same until no row grew after it had been read. Then the rows are joined over each arc.
fn join_all(
    entries: &Entries,
    io: &Io,
    rule: &Rule,
    flows: &mut RuleGraph,
    rows: &mut Vec<u128>,
    read: &mut Vec<bool>,
) -> Result<(), AllocError>
    requires small { IsSmall rule.now }
    requires size { length rows.old.items ≡ 144 }
    requires places { length read.old.items ≡ 144 }
    requires placed { ArePlaced (IsStep entries.now io.now rule.now.children rule.now.results) }
    ensures size { OnOk result (length rows.new.items ≡ 144) }
    ensures kept { OnOk result ((v i : ℕ) → IsIn rows.old.items v i → IsIn rows.new.items v i) }
    ensures led { OnOk result (AreLed (IsStep entries.now io.now rule.now.children rule.now.results) rows.old.items →
        AreLed (IsStep entries.now io.now rule.now.children rule.now.results) rows.new.items) }
    ensures joined { OnOk result ((a : ArcValue) → IsStep entries.now io.now rule.now.children rule.now.results a → IsJoined rows.new.items a) }
{
    while join_rule(entries, io, rule, flows, rows, read)? {}
    Ok(())
}

/// Which inherited values of a rule reach each of its places.
///
/// Where children take only what comes before them, no row grows after it was read, and the steps are gone through just once.
pub(crate) fn rule_rows(
    alloc: Global,
    g: &Grammar,
    io: &Io,
    rule: &Rule,
) -> Result<Vec<u128>, AllocError>
    requires small { IsSmall rule.now }
    requires few { HasFew (rule_of g.now.sorts rule.now) }
    ensures size { IfOk result (λ rows. length rows.items ≡ 144) }
    ensures there { IfOk result (λ rows. HasEachWalk (rule_of g.now.sorts rule.now) (Has io.now) rows.items) }
    ensures only { IfOk result (λ rows. HasOnlyWalks (rule_of g.now.sorts rule.now) (Has io.now) rows.items) }
{
    let entered = entries(alloc, g, rule)?;
    let mut flows = Items::from_vec(Vec::with_capacity(alloc, FLOWS)?);
    let mut rows = vec![in alloc; 0u128; PLACES]?;
    let mut read = vec![in alloc; false; PLACES]?;
    join_all(&entered, io, rule, &mut flows, &mut rows, &mut read)?;
    Ok(rows)
}
