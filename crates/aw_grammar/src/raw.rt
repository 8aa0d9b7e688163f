//! Declarations as they are written: names that are not looked up yet.
ghost use Rattle.std.specs.Prelude.{◌<◌, ◌≤◌, ◌+◌, map, vec_len, vec_capacity};
ghost use Rattle.aw_grammar.specs.Written.{written_of};
ghost use Rattle.aw_grammar.specs.Terms.{symbols_in_all};

use crate::rule::Names;
use aw_list::{Items, Text};
use aw_term::Lit;

/// A written constructor: `arity` is the number as it stands there.
#[derive(Debug, Drop)]
pub struct RawCon {
    pub name: Text,
    pub arity: u64,
}

/// Written constructors, in order.
pub type RawCons = Items<RawCon>;

/// A written sort.
#[derive(Debug, Drop)]
pub struct RawSort {
    pub name: Text,
    pub role: Text,
    pub takes: u64,
    pub gives: u64,
}

/// Written sorts, in order.
pub type RawSorts = Items<RawSort>;

/// A written term. A bare word is a constructor where one of that name is declared, and else a variable; a constructor
/// that is written with parentheses and no parts is an `Apply` of none.
#[derive(Debug)]
pub enum RawTerm {
    Word(Text),
    Apply(Text, RawTerms),
    Lit(Lit),
}

impl RawTerm {
    ghost use Rattle.std.specs.Prelude.{◌≡◌};
    ghost use Rattle.aw_grammar.specs.Written.{bare_name};

    /// The name that the term is, handed on; `None` where it is no bare name.
    pub fn into_name(self) -> Option<Text>
        ensures { result ≡ bare_name (written_of self) }
    {
        match self {
            RawTerm::Word(name) => Some(name),
            RawTerm::Apply(_, _) | RawTerm::Lit(_) => None,
        }
    }
}

/// The list to be emptied next: these parts, which have room for one more, with the rest of the list that was open hung in
/// front of them as a term. What is empty never hangs, so each list is turned once.
fn hang_rest(name: Text, mut parts: Vec<RawTerm>, rest: Vec<RawTerm>) -> Vec<RawTerm>
    requires { vec_len parts < vec_capacity parts }
    ensures { symbols_in_all (map written_of result.items) ≤ symbols_in_all (map written_of parts.items) + symbols_in_all (map written_of rest.items) + 1 }
{
    if rest.is_empty() {
        rest.destroy_empty();
        return parts;
    }
    if parts.is_empty() {
        parts.destroy_empty();
        return rest;
    }
    match parts.insert(0, RawTerm::Apply(name, Items::from_vec(rest))) {
        Ok(()) => parts,
        Err(_) => unreachable!(),
    }
}

/// A term may be as deep as a text is long, so this takes no memory and no stack: what is left of a list that is being
/// emptied hangs in front of the one below it.
impl Drop for RawTerm {
    fn drop(mut self) {
        let mut open: Option<Vec<RawTerm>> = None;
        loop {
            match self {
                RawTerm::Word(_) => {}
                RawTerm::Lit(_) => {}
                RawTerm::Apply(name, parts) => {
                    let mut parts = parts.into_vec();
                    match parts.pop() {
                        None => parts.destroy_empty(),
                        Some(last) => {
                            if let Some(rest) = open {
                                parts = hang_rest(name, parts, rest);
                            }
                            open = Some(parts);
                            self = last;
                            continue;
                        }
                    }
                }
            }
            match open {
                None => return,
                Some(mut parts) => match parts.pop() {
                    None => {
                        parts.destroy_empty();
                        return;
                    }
                    Some(last) => {
                        open = Some(parts);
                        self = last;
                    }
                },
            }
        }
    }
}

/// Written terms, in order.
pub type RawTerms = Items<RawTerm>;

/// A written subtask.
#[derive(Debug, Drop)]
pub struct RawChild {
    pub sort: Text,
    pub args: RawTerms,
    pub results: Names,
}

/// The written subtasks of a rule, in order.
pub type RawChildren = Items<RawChild>;

/// A written rule.
#[derive(Debug, Drop)]
pub struct RawRule {
    pub name: Text,
    pub params: Names,
    pub sort: Text,
    pub patterns: RawTerms,
    pub results: RawTerms,
    pub children: RawChildren,
}

/// Written rules, in order.
pub type RawRules = Items<RawRule>;

/// All declarations of a specification.
#[derive(Debug, Drop)]
pub struct Parts {
    pub roles: Names,
    pub cons: RawCons,
    pub sorts: RawSorts,
    pub starts: Names,
    pub rules: RawRules,
}
