//! Walks over written terms: their size, and the names in them.
ghost use Rattle.std.specs.Prelude.{◌≡◌, ◌+◌, ◌++◌, map, OnOk};
ghost use Rattle.aw_term.specs.WellFormed.{leaves, leaves_of};
ghost use Rattle.aw_grammar.specs.Written.{written_of};
ghost use Rattle.aw_grammar.specs.Terms.{depth_of, depth_of_all, symbols_in, symbols_in_all, IsLeftOf};
ghost use Rattle.aw_grammar.specs.Resolved.{resolved, all_resolved};
ghost use Rattle.aw_grammar.specs.Kinds.{is_known, all_known};

use crate::raw::{RawTerm, RawTerms};
use crate::rule::Names;
use aw_name_index::NameIndex;
use std::alloc::AllocError;

/// What is left of the room for symbols after a term, or nothing where it is deeper than `depth` or has more symbols than `room`.
#[cycle(room)]
pub(crate) fn room_after(term: &RawTerm, depth: u8, room: u16) -> Option<u16>
    ensures { IsLeftOf room depth (depth_of (written_of term.now)) (symbols_in (written_of term.now)) result }
{
    if depth == 0 || room == 0 {
        return None;
    }
    match term {
        RawTerm::Word(_) | RawTerm::Lit(_) => Some(room - 1),
        RawTerm::Apply(_, parts) => room_after_all(parts, depth - 1, room - 1),
    }
}

/// What is left of the room for symbols after some terms, or nothing where one is deeper than `depth` or they have more symbols than `room`.
#[cycle(room)]
pub fn room_after_all(terms: &RawTerms, depth: u8, room: u16) -> Option<u16>
    ensures { IsLeftOf room depth (depth_of_all (map written_of terms.now)) (symbols_in_all (map written_of terms.now)) result }
{
    let mut left = room;
    for term in terms.as_slice() {
        left = room_after(term, depth, left)?;
    }
    Some(left)
}

/// Whether each constructor that is written with parentheses is declared.
#[cycle(known)]
pub(crate) fn is_known(cons: &NameIndex, term: &RawTerm) -> bool
    ensures { result ≡ is_known cons.now (written_of term.now) }
{
    match term {
        RawTerm::Word(_) | RawTerm::Lit(_) => true,
        RawTerm::Apply(name, parts) => cons.contains(name.as_slice()) && are_known(cons, parts),
    }
}

#[cycle(known)]
pub(crate) fn are_known(cons: &NameIndex, terms: &RawTerms) -> bool
    ensures { result ≡ all_known cons.now (map written_of terms.now) }
{
    for term in terms.as_slice() {
        if !is_known(cons, term) {
            return false;
        }
    }
    true
}

/// Adds the names of a term's variables, from left to right.
#[cycle(variables)]
pub(crate) fn push_variables(
    cons: &NameIndex,
    term: &RawTerm,
    names: &mut Names,
) -> Result<(), AllocError>
    ensures { OnOk result (names.new ≡ names.old ++ leaves (resolved cons.now (written_of term.now))) }
{
    match term {
        RawTerm::Word(name) => {
            if cons.find(name.as_slice()).is_none() {
                names.push(name.clone()?)?;
            }
            Ok(())
        }
        RawTerm::Lit(_) => Ok(()),
        RawTerm::Apply(_, parts) => push_all_variables(cons, parts, names),
    }
}

#[cycle(variables)]
pub(crate) fn push_all_variables(
    cons: &NameIndex,
    terms: &RawTerms,
    names: &mut Names,
) -> Result<(), AllocError>
    ensures { OnOk result (names.new ≡ names.old ++ leaves_of (all_resolved cons.now (map written_of terms.now))) }
{
    for term in terms.as_slice() {
        push_variables(cons, term, names)?;
    }
    Ok(())
}
