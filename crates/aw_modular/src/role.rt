//! Whether a role says yes.
ghost use Rattle.std.specs.Prelude.{◌≡◌, ◌↔◌, ℕ, None, IfOk, IfErr};
ghost use Rattle.aw_term.specs.WellFormed.{Each};
ghost use Rattle.aw_grammar.specs.GrammarOf.{grammar_of};
ghost use Rattle.aw_accept.specs.Circular.{LeastFaultOver};
ghost use Rattle.aw_iograph.specs.Pairs.{Has, IsFor};
ghost use Rattle.aw_iograph.specs.Dependence.{HasNoCircle};
ghost use Rattle.aw_face.specs.Faces.{face_fault};
ghost use Rattle.aw_modular.specs.Roles.{Known, SaysYes};
ghost use Rattle.aw_modular.specs.PartViews.{IsCopy, part_of};
ghost use Rattle.aw_modular.specs.Refusals.{IsPosition, IsExcess, LeastPair, TellsRole};

use crate::declaring::{all_declared, declared_elsewhere};
use crate::excess::first_excess;
use crate::part::Part;
use crate::refused::ModFault;
use crate::splitting::{copy_declared, copy_part};
use crate::yes::RoleYes;
use aw_accept::{Fault, least_fault};
use aw_base::{Declared, Triple};
use aw_iograph::{Io, io_from};
use std::alloc::{AllocError, Global};

/// What a role finds of its own sorts, and what is declared of the sorts of others.
fn known(alloc: Global, part: &Part, declared: &Declared) -> Result<Io, AllocError>
    requires { Each (IsPosition (grammar_of part.now.grammar).sorts) declared.now }
    ensures made { IfOk result (λ io. IsFor part.now.grammar io) }
    ensures exact { IfOk result (λ io. (s i j : ℕ) → Has io s i j ↔ Known (grammar_of part.now.grammar) part.now.role declared.now s i j) }
{
    let others = declared_elsewhere(alloc, &part.grammar, part.role, declared)?;
    io_from(alloc, &part.grammar, &others)
}

/// The least circle of a role over what is known.
fn circle(
    alloc: Global,
    part: &Part,
    declared: &Declared,
    found: &Io,
) -> Result<Option<Fault>, AllocError>
    requires { (s i j : ℕ) → Has found.now s i j ↔ Known (grammar_of part.now.grammar) part.now.role declared.now s i j }
    ensures { IfOk result (λ fault. LeastFaultOver (grammar_of part.now.grammar) (Known (grammar_of part.now.grammar) part.now.role declared.now) fault) }
{
    least_fault(alloc, &part.grammar, found)
}

/// The least pair of what a role offers that it finds and that is not declared.
fn excess(
    alloc: Global,
    part: &Part,
    declared: &Declared,
    found: &Io,
) -> Result<Option<Triple>, AllocError>
    requires range { Each (IsPosition (grammar_of part.now.grammar).sorts) declared.now }
    requires made { IsFor part.now.grammar found.now }
    requires known { (s i j : ℕ) → Has found.now s i j ↔ Known (grammar_of part.now.grammar) part.now.role declared.now s i j }
    ensures { IfOk result (λ pair. LeastPair (IsExcess part.now.faces.offers declared.now part.now.role (grammar_of part.now.grammar)) pair) }
{
    let all = all_declared(alloc, &part.grammar, declared)?;
    Ok(first_excess(part, &all, found))
}

/// Why a role does not say yes, if it does not.
fn judged(alloc: Global, part: &Part, declared: &Declared) -> Result<(), ModFault>
    requires { Each (IsPosition (grammar_of part.now.grammar).sorts) declared.now }
    ensures no_circle { IfOk result (λ done. HasNoCircle (grammar_of part.now.grammar) (Known (grammar_of part.now.grammar) part.now.role declared.now)) }
    ensures no_excess { IfOk result (λ done. LeastPair (IsExcess part.now.faces.offers declared.now part.now.role (grammar_of part.now.grammar)) None) }
    ensures no { IfErr result (λ e. TellsRole part.now.faces.offers declared.now part.now.role (grammar_of part.now.grammar) e) }
{
    let found = known(alloc, part, declared)?;
    if let Some(Fault { rule, occ }) = circle(alloc, part, declared, &found)? {
        return Err(ModFault::Circular { rule, occ });
    }
    match excess(alloc, part, declared, &found)? {
        Some(Triple { sort, i, j }) => Err(ModFault::Exceeds { sort, i, j }),
        None => Ok(()),
    }
}

/// A part whose role says yes, with what was declared.
fn kept(alloc: Global, part: &Part, declared: &Declared) -> Result<RoleYes, AllocError>
    requires { SaysYes part.now.faces.offers declared.now part.now.role (part_of part.now) }
    ensures part { IfOk result (λ y. IsCopy part.now y.part) }
    ensures declared { IfOk result (λ y. y.declared ≡ declared.now) }
{
    let told = copy_declared(alloc, declared)?;
    let copy = copy_part(alloc, part)?;
    Ok(RoleYes {
        part: copy,
        declared: told,
    })
}

/// Whether a role says yes: no occurrence of its rules reaches itself over the text of the rule and what is known of the
/// sorts of its children, and what it finds of the sorts that it offers is declared. What is declared stands for the sorts
/// of other roles.
///
/// Fails with `Circular` exactly where an occurrence reaches itself: the least rule, and its least such occurrence. Else it
/// fails with `Exceeds` exactly where a pair is not declared: the least sort, and its least such pair. Want of memory is the
/// only other error.
pub fn check_role(alloc: Global, part: &Part, declared: &Declared) -> Result<RoleYes, ModFault>
    requires faces { face_fault (grammar_of part.now.grammar) part.now.faces.offers part.now.faces.uses ≡ None }
    requires range { Each (IsPosition (grammar_of part.now.grammar).sorts) declared.now }
    ensures part { IfOk result (λ y. IsCopy part.now y.part) }
    ensures declared { IfOk result (λ y. y.declared ≡ declared.now) }
    ensures says { IfOk result (λ y. SaysYes part.now.faces.offers declared.now part.now.role (part_of part.now)) }
    ensures no { IfErr result (λ e. TellsRole part.now.faces.offers declared.now part.now.role (grammar_of part.now.grammar) e) }
{
    judged(alloc, part, declared)?;
    Ok(kept(alloc, part, declared)?)
}
