//! Specifications: of each it is told what flows where in the text of each rule, and then which results depend on
//! which inherited values, or the least circle. What stands in `stdout` was worked out by hand; nothing in it comes from the
//! program.
ghost use Rattle.std.specs.Prelude.{◌<◌, length};

use crate::told::{MARK, push_circular, push_name};
use aw_accept::{Fault, Refused, accept};
use aw_base::{Grammar, rule_name};
use aw_check_text::accepted_text;
use aw_iograph::{Io, Occ, io_from, io_of, rule_graph};
use aw_list::Text;
use aw_spec::read_spec;
use aw_spelling::push_number;
use bstr::ByteSlice;
use std::alloc::{AllocError, Global};

/// Adds an occurrence, as `1.in2`.
fn push_occ(told: &mut Text, occ: Occ) -> Result<(), AllocError> {
    push_number(told, u64::from(occ.child))?;
    told.push_bytes(if occ.result { b".out" } else { b".in" })?;
    push_number(told, u64::from(occ.number))
}

/// Adds a line for each pair of occurrences in the text of a rule.
fn push_flows(alloc: Global, told: &mut Text, g: &Grammar, rule: u16) -> Result<(), AllocError>
    requires { rule < length g.now.rules }
{
    let graph = rule_graph(alloc, g, rule)?;
    for flow in graph.as_slice() {
        told.push_bytes(b"flow ")?;
        told.push_bytes(rule_name(g, rule))?;
        told.push_bytes(b" ")?;
        push_occ(told, flow.from)?;
        told.push_bytes(b" ")?;
        push_occ(told, flow.to)?;
        told.push_bytes(b"\n")?;
    }
    Ok(())
}

/// Adds the lines of all rules.
fn push_all_flows(alloc: Global, told: &mut Text, g: &Grammar) -> Result<(), AllocError> {
    for rule in 0..g.rules.len() {
        if let Ok(rule) = u16::try_from(rule) {
            push_flows(alloc, told, g, rule)?;
        }
    }
    Ok(())
}

/// Whether two relations have the same pairs for a sort.
fn is_same_at(a: &Io, b: &Io, sort: u16) -> bool {
    for pair in 0..64 {
        let (i, j) = (pair / 8 + 1, pair % 8 + 1);
        if a.has(sort, i, j) != b.has(sort, i, j) {
            return false;
        }
    }
    true
}

/// Whether dependences that are settled already settle to themselves.
fn are_settled(alloc: Global, g: &Grammar) -> Result<bool, AllocError> {
    let io = io_of(alloc, g)?;
    let again = io_from(alloc, g, &io)?;
    for sort in 0..256 {
        if !is_same_at(&io, &again, sort) {
            return Ok(false);
        }
    }
    Ok(true)
}

/// Adds the flows of each rule, and tells whether the dependences settle to themselves.
fn push_flows_settled(alloc: Global, told: &mut Text, g: &Grammar) -> Result<bool, AllocError> {
    push_all_flows(alloc, told, g)?;
    are_settled(alloc, g)
}

/// Adds what a grammar is answered with.
fn push_answer(alloc: Global, told: &mut Text, grammar: Grammar) -> Result<(), AllocError> {
    match accept(alloc, grammar) {
        Ok(accepted) => {
            let text = accepted_text(alloc, &accepted);
            drop(accepted);
            told.push_bytes(text?.as_slice())
        }
        Err(Refused::Circular { grammar, rule, occ }) => {
            let pushed = push_circular(told, &grammar, Fault { rule, occ });
            drop(grammar);
            pushed
        }
        Err(Refused::NoMemory) => Err(AllocError),
    }
}

/// Adds what is told of a grammar.
fn push_told(alloc: Global, told: &mut Text, grammar: Grammar) -> Result<(), AllocError> {
    match push_flows_settled(alloc, told, &grammar) {
        Ok(true) => push_answer(alloc, told, grammar),
        Ok(false) => {
            drop(grammar);
            told.push_bytes(b"not settled\n")
        }
        Err(fault) => {
            drop(grammar);
            Err(fault)
        }
    }
}

/// Adds the lines of an entry. What has no line is none.
fn push_entry(alloc: Global, told: &mut Text, entry: &[u8]) -> Result<(), AllocError> {
    let Some((name, input)) = entry.split_once_str(b"\n") else {
        return Ok(());
    };
    push_name(told, name)?;
    match read_spec(alloc, input) {
        Ok(spec) => push_told(alloc, told, spec.into_grammar()),
        Err(_) => told.push_bytes(b"not read\n"),
    }
}

/// Adds the lines of all entries. What stands before the first mark is none.
pub fn push_relations(alloc: Global, told: &mut Text, text: &[u8]) -> Result<(), AllocError> {
    for entry in text.split_str(MARK) {
        push_entry(alloc, told, entry)?;
    }
    Ok(())
}
