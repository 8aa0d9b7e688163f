//! Joining what was checked role by role.
ghost use Rattle.std.specs.Prelude.{◌≡◌, ◌↔◌, ◌++◌, IfOk, IfErr, IsTrue, OnOk};
ghost use Rattle.aw_grammar.specs.GrammarOf.{grammar_of};
ghost use Rattle.aw_accept.specs.declared.refused.Refused.TheVariants.{NoMemory};
ghost use Rattle.aw_iograph.specs.Dependence.{IO, HasNoCircle};
ghost use Rattle.aw_modular.specs.Wholes.{AllShare, AreInOrder, Gathers, IsWholeOf, LieWithin, TakesAllIn, TakesIn, TellsDifference, WouldFit, shared_of};

use crate::part::Part;
use crate::shared::{JoinFault, Shared};
use crate::yes::{RoleYes, RoleYeses};
use aw_accept::{Accepted, Refused, accept};
use aw_base::Declared;
use aw_face::Faces;
use aw_grammar::{Cons, Grammar, Names, Numbers, Rules, Sorts};
use std::alloc::{AllocError, Global};

/// What is offered, without what is used.
fn offers_of(faces: Faces) -> Numbers
    ensures { result ≡ faces.offers }
{
    let Faces { offers, .. } = faces;
    offers
}

/// The declarations of a grammar, and its rules.
fn declared_of(grammar: Grammar) -> (Names, Cons, Sorts, Rules)
    ensures { result ≡ (grammar.roles, grammar.cons, grammar.sorts, grammar.rules) }
{
    let Grammar {
        roles,
        cons,
        sorts,
        rules,
        ..
    } = grammar;
    (roles, cons, sorts, rules)
}

/// What a part has in common with the others, and its rules.
fn taken_apart(yes: RoleYes) -> (Shared, Rules)
    ensures shared { result.0 ≡ shared_of yes }
    ensures rules { result.1 ≡ yes.part.grammar.rules }
{
    let RoleYes { part, declared } = yes;
    let Part { grammar, faces, .. } = part;
    let (roles, cons, sorts, rules) = declared_of(grammar);
    let shared = Shared {
        roles,
        cons,
        sorts,
        offers: offers_of(faces),
        declared,
    };
    (shared, rules)
}

fn same_names(a: &Names, b: &Names) -> bool
    ensures { IsTrue result ↔ (a.now ≡ b.now) }
{
    a == b
}

fn same_cons(a: &Cons, b: &Cons) -> bool
    ensures { IsTrue result ↔ (a.now ≡ b.now) }
{
    a == b
}

fn same_sorts(a: &Sorts, b: &Sorts) -> bool
    ensures { IsTrue result ↔ (a.now ≡ b.now) }
{
    a == b
}

fn same_numbers(a: &Numbers, b: &Numbers) -> bool
    ensures { IsTrue result ↔ (a.now ≡ b.now) }
{
    a == b
}

fn same_declared(a: &Declared, b: &Declared) -> bool
    ensures { IsTrue result ↔ (a.now ≡ b.now) }
{
    a == b
}

/// Whether two parts have the same in common.
fn is_same(a: &Shared, b: &Shared) -> bool
    ensures { IsTrue result ↔ (a.now ≡ b.now) }
{
    same_names(&a.roles, &b.roles)
        && same_cons(&a.cons, &b.cons)
        && same_sorts(&a.sorts, &b.sorts)
        && same_numbers(&a.offers, &b.offers)
        && same_declared(&a.declared, &b.declared)
}

/// Adds rules at the end.
fn append(rules: &mut Rules, more: Rules) -> Result<(), AllocError>
    ensures { OnOk result (rules.new ≡ rules.old ++ more) }
{
    for rule in more.into_vec() {
        rules.push(rule)?;
    }
    Ok(())
}

/// Adds the rules of a part, or hands out what it has in common with others where that differs.
fn take_in(kept: &Shared, rules: &mut Rules, part: RoleYes) -> Result<Option<Shared>, AllocError>
    ensures { IfOk result (TakesIn kept.now part rules.old rules.new) }
{
    let (came, more) = taken_apart(part);
    if !is_same(&came, kept) {
        return Ok(Some(came));
    }
    append(rules, more)?;
    Ok(None)
}

/// Adds the rules of parts in order, or hands out what the first has that differs from this.
fn take_all_in(
    kept: &Shared,
    rules: &mut Rules,
    parts: Vec<RoleYes>,
) -> Result<Option<Shared>, AllocError>
    ensures { IfOk result (TakesAllIn kept.now parts.items rules.old rules.new) }
{
    for part in parts {
        if let Some(came) = take_in(kept, rules, part)? {
            return Ok(Some(came));
        }
    }
    Ok(None)
}

/// What the parts have in common, and the rules of all in order; or the first difference.
fn gathered(parts: RoleYeses) -> Result<(Shared, Rules), JoinFault>
    requires { AreInOrder parts }
    ensures same { IfOk result (λ found. Gathers parts found.0 found.1) }
    ensures differs { IfErr result (λ e. TellsDifference parts e) }
{
    let mut others = parts.into_vec();
    let first = others.remove(0);
    let (kept, mut rules) = taken_apart(first);
    if let Some(came) = take_all_in(&kept, &mut rules, others)? {
        return Err(JoinFault::Differs { kept, came });
    }
    Ok((kept, rules))
}

/// The only refusal of a grammar in which no value depends on itself.
fn only_memory(refused: Refused) -> AllocError
    requires { refused ≡ NoMemory }
{
    match refused {
        Refused::NoMemory => AllocError,
        Refused::Circular { .. } => unreachable!(),
    }
}

/// Accepts a grammar in which no value depends on itself.
fn accepted(alloc: Global, g: Grammar) -> Result<Accepted, AllocError>
    requires { HasNoCircle (grammar_of g) (IO (grammar_of g)) }
    ensures { IfOk result (λ a. a.grammar ≡ g) }
{
    match accept(alloc, g) {
        Ok(accepted) => Ok(accepted),
        Err(refused) => Err(only_memory(refused)),
    }
}

/// The whole of parts whose roles say yes, accepted: the rules of the parts in order, with the declarations that they share.
/// The dependence relation of the whole lies within the relations of the roles.
///
/// The parts are at least one, each of the role of its place, and would be well formed together.
///
/// Fails with `Differs` exactly where a part shares not all with the first: the first such part. Want of memory is the only
/// other error. A refusal drops the parts.
pub fn join(alloc: Global, parts: RoleYeses) -> Result<Accepted, JoinFault>
    requires order { AreInOrder parts }
    requires fit { WouldFit parts }
    ensures whole { IfOk result (λ a. IsWholeOf parts a.grammar) }
    ensures shared { IfOk result (λ a. AllShare parts) }
    ensures within { IfOk result (λ a. ∥ LieWithin parts a.grammar ∥₁) }
    ensures differs { IfErr result (λ e. TellsDifference parts e) }
{
    let (shared, rules) = gathered(parts)?;
    let Shared {
        roles,
        cons,
        sorts,
        ..
    } = shared;
    let whole = Grammar::of_declared(alloc, roles, cons, sorts, rules)?;
    Ok(accepted(alloc, whole)?)
}
