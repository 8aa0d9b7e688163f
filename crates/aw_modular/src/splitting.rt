//! Splitting a grammar by roles.
ghost use Rattle.std.specs.Prelude.{◌≡◌, None, IfOk};
ghost use Rattle.aw_term.specs.Rules.{some_rules};
ghost use Rattle.aw_grammar.specs.GrammarOf.{grammar_of};
ghost use Rattle.aw_grammar.specs.SomeRules.{is_at, rules_at};
ghost use Rattle.aw_face.specs.Faces.{face_fault};
ghost use Rattle.aw_modular.specs.PartViews.{IsCopy};

use crate::part::Part;
use aw_base::Declared;
use aw_face::Faces;
use aw_grammar::{Grammar, Items, only_rules_of};
use std::alloc::{AllocError, Global};

/// A copy of faces.
fn copy_faces(alloc: Global, f: &Faces) -> Result<Faces, AllocError>
    ensures { IfOk result (λ copy. copy ≡ f.now) }
{
    Ok(Faces {
        offers: Items::from_vec(f.offers.as_slice().to_vec(alloc)?),
        uses: f.uses.clone()?,
    })
}

/// A copy of what is declared.
pub(crate) fn copy_declared(alloc: Global, declared: &Declared) -> Result<Declared, AllocError>
    ensures { IfOk result (λ copy. copy ≡ declared.now) }
{
    Ok(Items::from_vec(declared.as_slice().to_vec(alloc)?))
}

/// The rules of one role, in their order, with the declarations and the faces of all. They keep to the faces where all rules
/// do. Want of memory is the only error.
pub fn split(alloc: Global, g: &Grammar, f: &Faces, role: u16) -> Result<Part, AllocError>
    ensures role { IfOk result (λ p. p.role ≡ role) }
    ensures faces { IfOk result (λ p. p.faces ≡ f.now) }
    ensures roles { IfOk result (λ p. p.grammar.roles ≡ g.now.roles) }
    ensures cons { IfOk result (λ p. p.grammar.cons ≡ g.now.cons) }
    ensures sorts { IfOk result (λ p. p.grammar.sorts ≡ g.now.sorts) }
    ensures rules { IfOk result (λ p. p.grammar.rules ≡ rules_at g.now.sorts role g.now.rules) }
    ensures keeps { face_fault (grammar_of g.now) f.now.offers f.now.uses ≡ None → IfOk result (λ p. face_fault (grammar_of p.grammar) p.faces.offers p.faces.uses ≡ None) }
    ensures grammar { IfOk result (λ p. grammar_of p.grammar ≡ some_rules (is_at (grammar_of g.now).sorts role) (grammar_of g.now)) }
{
    let faces = copy_faces(alloc, f)?;
    let grammar = only_rules_of(alloc, g, role)?;
    Ok(Part {
        role,
        grammar,
        faces,
    })
}

/// A copy of a part.
pub(crate) fn copy_part(alloc: Global, part: &Part) -> Result<Part, AllocError>
    ensures { IfOk result (λ copy. IsCopy part.now copy) }
{
    let copy = split(alloc, &part.grammar, &part.faces, part.role)?;
    Ok(copy)
}
