//! The terms that written terms stand for, and whether constructors have as many parts as they are declared with.
ghost use Rattle.std.specs.Prelude.{◌≡◌, map, Some, false, IfOk};
ghost use Rattle.aw_name_index.specs.Places.{place_of};
ghost use Rattle.aw_grammar.specs.Written.{Word, written_of};
ghost use Rattle.aw_grammar.specs.Kinds.{con_called, has_arity, has_arities, all_have_arities};
ghost use Rattle.aw_grammar.specs.Making.{AreNoCons, MakesPattern, MakesPatterns, MakesTerm, MakesTerms};
ghost use Rattle.aw_grammar.specs.Faultless.{is_declared, IsMade};
ghost use Rattle.aw_grammar.specs.GrammarOf.{words_of};

use crate::grammar::Grammar;
use crate::raw::{RawTerm, RawTerms};
use crate::variables::Variables;
use aw_list::{Items, Text};
use aw_term::{Expr, Lit, Pattern, Patterns, Terms};
use std::alloc::AllocError;

/// Whether a name that is a constructor's is declared with this number of parts.
fn has_arity(grammar: &Grammar, name: &Text, count: usize) -> bool
    ensures { result ≡ has_arity count (con_called name.now grammar.now.cons) }
{
    match grammar.con_called(name.as_slice()) {
        Some(con) => usize::from(con.arity) == count,
        None => true,
    }
}

/// Whether each constructor of a term has as many parts as it is declared with.
#[cycle(arities)]
pub(crate) fn has_arities(grammar: &Grammar, term: &RawTerm) -> bool
    ensures { result ≡ has_arities grammar.now.cons (written_of term.now) }
{
    match term {
        RawTerm::Word(name) => has_arity(grammar, name, 0),
        RawTerm::Lit(_) => true,
        RawTerm::Apply(name, parts) => {
            has_arity(grammar, name, parts.len()) && have_arities(grammar, parts)
        }
    }
}

#[cycle(arities)]
pub(crate) fn have_arities(grammar: &Grammar, terms: &RawTerms) -> bool
    ensures { result ≡ all_have_arities grammar.now.cons (map written_of terms.now) }
{
    for term in terms.as_slice() {
        if !has_arities(grammar, term) {
            return false;
        }
    }
    true
}

/// A copy of a number or a text.
fn copy_lit(lit: &Lit) -> Result<Lit, AllocError>
    ensures { IfOk result (λ copy. copy ≡ lit.now) }
{
    lit.clone()
}

/// The number of the constructor of a name, where it is declared with this number of parts.
fn con_of(grammar: &Grammar, name: &Text, count: usize) -> Option<u16>
    ensures { IsMade (is_declared count (con_called name.now grammar.now.cons)) (λ number. Some number ≡ place_of name.now (words_of grammar.now).cons) result }
{
    let place = grammar.con_index.find(name.as_slice())?;
    let con = grammar.cons.get(place)?;
    if usize::from(con.arity) != count {
        return None;
    }
    Some(place as u16)
}

/// The pattern that a bare word stands for, or `None` where it is neither a variable nor a constructor without parts.
fn word_pattern(grammar: &Grammar, variables: &Variables, name: &Text) -> Option<Pattern>
    requires { AreNoCons grammar.now variables.now.names }
    ensures { MakesPattern grammar.now variables.now.names (Word name.now) result }
{
    if let Some(variable) = variables.find(name.as_slice()) {
        return Some(Pattern::Var(variable));
    }
    let con = con_of(grammar, name, 0)?;
    Some(Pattern::Con(con, Items::new(name.allocator())))
}

/// The pattern that a written term stands for, or `None` where a word in it is at fault.
#[cycle(patterns)]
pub(crate) fn to_pattern(
    grammar: &Grammar,
    variables: &Variables,
    term: &RawTerm,
) -> Result<Option<Pattern>, AllocError>
    requires { AreNoCons grammar.now variables.now.names }
    ensures { IfOk result (MakesPattern grammar.now variables.now.names (written_of term.now)) }
{
    match term {
        RawTerm::Word(name) => Ok(word_pattern(grammar, variables, name)),
        RawTerm::Lit(lit) => Ok(Some(Pattern::Lit(copy_lit(lit)?))),
        RawTerm::Apply(name, parts) => {
            let Some(con) = con_of(grammar, name, parts.len()) else {
                return Ok(None);
            };
            let Some(made) = to_patterns(grammar, variables, parts)? else {
                return Ok(None);
            };
            Ok(Some(Pattern::Con(con, made)))
        }
    }
}

/// What these written terms stand for, or `None` where a word in one is at fault.
#[cycle(patterns)]
pub(crate) fn to_patterns(
    grammar: &Grammar,
    variables: &Variables,
    terms: &RawTerms,
) -> Result<Option<Patterns>, AllocError>
    requires { AreNoCons grammar.now variables.now.names }
    ensures { IfOk result (MakesPatterns grammar.now variables.now.names (map written_of terms.now)) }
{
    let mut made = Items::from_vec(Vec::with_capacity(terms.allocator(), terms.len())?);
    for term in terms.as_slice() {
        let Some(one) = to_pattern(grammar, variables, term)? else {
            return Ok(None);
        };
        made.push(one)?;
    }
    Ok(Some(made))
}

/// The expression that a bare word stands for, or `None` where it is neither a variable nor a constructor without parts.
fn word_term(grammar: &Grammar, variables: &Variables, name: &Text) -> Option<Expr>
    requires { AreNoCons grammar.now variables.now.names }
    ensures { MakesTerm grammar.now variables.now.names (Word name.now) result }
{
    if let Some(variable) = variables.find(name.as_slice()) {
        return Some(Expr::Var(variable));
    }
    let number = con_of(grammar, name, 0)?;
    Some(Expr::Con(number, Items::new(name.allocator())))
}

/// The expression that a written term stands for, or `None` where a word in it is at fault.
#[cycle(terms)]
pub(crate) fn to_term(
    grammar: &Grammar,
    variables: &Variables,
    term: &RawTerm,
) -> Result<Option<Expr>, AllocError>
    requires { AreNoCons grammar.now variables.now.names }
    ensures { IfOk result (MakesTerm grammar.now variables.now.names (written_of term.now)) }
{
    match term {
        RawTerm::Word(name) => Ok(word_term(grammar, variables, name)),
        RawTerm::Lit(lit) => Ok(Some(Expr::Lit(copy_lit(lit)?))),
        RawTerm::Apply(name, parts) => {
            let Some(con) = con_of(grammar, name, parts.len()) else {
                return Ok(None);
            };
            let Some(made) = to_terms(grammar, variables, parts)? else {
                return Ok(None);
            };
            Ok(Some(Expr::Con(con, made)))
        }
    }
}

/// What these written terms stand for, or `None` where a word in one is at fault.
#[cycle(terms)]
pub(crate) fn to_terms(
    grammar: &Grammar,
    variables: &Variables,
    terms: &RawTerms,
) -> Result<Option<Terms>, AllocError>
    requires { AreNoCons grammar.now variables.now.names }
    ensures { IfOk result (MakesTerms grammar.now variables.now.names (map written_of terms.now)) }
{
    let mut made = Items::from_vec(Vec::with_capacity(terms.allocator(), terms.len())?);
    for term in terms.as_slice() {
        let Some(one) = to_term(grammar, variables, term)? else {
            return Ok(None);
        };
        made.push(one)?;
    }
    Ok(Some(made))
}
