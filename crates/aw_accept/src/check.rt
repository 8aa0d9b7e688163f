//! Looking for a circle in every rule, and accepting a grammar that has none.
ghost use Rattle.std.specs.Prelude.{◌≡◌, length, IfOk, IfErr};
ghost use Rattle.aw_grammar.specs.GrammarOf.{grammar_of};
ghost use Rattle.aw_iograph.specs.Pairs.{Has, IsFor};
ghost use Rattle.aw_iograph.specs.Dependence.{IO, HasNoCircle};
ghost use Rattle.aw_accept.specs.Circular.{IsRelation, LeastFault, LeastFaultOver};
ghost use Rattle.aw_accept.specs.Refusals.{Tells};

use crate::accepted::Accepted;
use crate::refused::{Fault, Refused};
use aw_grammar::Grammar;
use aw_iograph::{Io, circle, io_of};
use std::alloc::{AllocError, Global};

/// How many rules there are: at most 1,024.
fn count_rules(g: &Grammar) -> u16
    ensures { result ≡ length g.now.rules }
{
    g.rules.len() as u16
}

/// The least rule in which an occurrence reaches itself over the text of the rule and these relations, and its least such
/// occurrence.
pub fn least_fault(alloc: Global, g: &Grammar, io: &Io) -> Result<Option<Fault>, AllocError>
    ensures { IfOk result (λ found. LeastFaultOver (grammar_of g.now) (Has io.now) found) }
{
    for rule in 0..count_rules(g) {
        match circle(alloc, g, io, rule)? {
            Some(occ) => return Ok(Some(Fault { rule, occ })),
            None => {}
        }
    }
    Ok(None)
}

/// The dependence relations of a grammar, and its least fault.
fn judged(alloc: Global, g: &Grammar) -> Result<(Io, Option<Fault>), AllocError>
    ensures made { IfOk result (λ found. IsFor g.now found.0) }
    ensures relation { IfOk result (λ found. IsRelation g.now found.0) }
    ensures least { IfOk result (λ found. LeastFault (grammar_of g.now) found.1) }
{
    let io = io_of(alloc, g)?;
    let fault = least_fault(alloc, g, &io)?;
    Ok((io, fault))
}

/// Accepts a grammar in which no occurrence of a rule depends on itself, over the text of the rule and the dependence
/// relations of the sorts of its children.
pub fn accept(alloc: Global, g: Grammar) -> Result<Accepted, Refused>
    ensures accepted { IfOk result (λ a. a.grammar ≡ g) }
    ensures relation { IfOk result (λ a. IsRelation g a.io) }
    ensures sound { IfOk result (λ a. HasNoCircle (grammar_of g) (IO (grammar_of g))) }
    ensures circular { IfErr result (λ e. Tells g e) }
{
    match judged(alloc, &g) {
        Ok((io, None)) => Ok(Accepted { grammar: g, io }),
        Ok((_, Some(Fault { rule, occ }))) => Err(Refused::Circular {
            grammar: g,
            rule,
            occ,
        }),
        Err(_) => {
            drop(g);
            Err(Refused::NoMemory)
        }
    }
}
