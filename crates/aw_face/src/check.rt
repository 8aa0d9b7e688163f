//! Whether the rules of a grammar keep to the faces of its roles.
ghost use Rattle.std.specs.Prelude.{◌≡◌, ◌≤◌, None, IfSome, option_map, map, length, slice_get};
ghost use Rattle.std.specs.Option.{option_copied};
ghost use Rattle.aw_grammar.specs.GrammarView.{sorts_of, child_of, rule_of};
ghost use Rattle.aw_grammar.specs.GrammarOf.{grammar_of};
ghost use Rattle.aw_face.specs.Faces as face;

use crate::faces::{FaceFault, FaceKind, Faces};
use aw_grammar::{Child, Grammar, Rule, Sort};

/// Whether a sort is offered.
pub fn is_offered(sort: u16, offers: &[u16]) -> bool
    ensures { result ≡ face.is_offered sort offers.now }
{
    offers.iter().any(|offered| *offered == sort)
}

/// What is wrong with a child of a sort in a rule of a role.
fn kind_between(f: &Faces, role: u16, child_role: u16, sort: u16) -> Option<FaceKind>
    ensures { result ≡ face.kind_between f.now.offers f.now.uses role child_role sort }
{
    if child_role == role {
        None
    } else if !f.uses.has(role, sort) {
        Some(FaceKind::NotUsed)
    } else if !is_offered(sort, f.offers.as_slice()) {
        Some(FaceKind::NotOffered)
    } else {
        None
    }
}

/// The role of a sort.
fn role_of(sorts: &[Sort], sort: u16) -> u16
    ensures { result ≡ face.role_of (sorts_of sorts.now) sort }
{
    match sorts.get(usize::from(sort)) {
        Some(sort) => sort.role,
        None => 0,
    }
}

/// The first child at fault, counted from 1.
fn children_fault(
    sorts: &[Sort],
    f: &Faces,
    role: u16,
    children: &[Child],
) -> Option<(u8, FaceKind)>
    requires { length children.now ≤ 8 }
    ensures { option_map (λ x. (x.0, x.1)) result ≡ face.children_fault (sorts_of sorts.now) f.now.offers f.now.uses role 1 (map (child_of sorts.now) children.now) }
{
    let mut rest = children;
    let mut place = 1;
    while let [child, behind @ ..] = rest {
        if let Some(kind) = kind_between(f, role, role_of(sorts, child.sort), child.sort) {
            return Some((place, kind));
        }
        place += 1;
        rest = behind;
    }
    None
}

/// The first child of a rule at fault, counted from 1, where these are the sorts.
pub fn rule_fault(sorts: &[Sort], f: &Faces, rule: &Rule) -> Option<(u8, FaceKind)>
    requires { length rule.now.children ≤ 8 }
    ensures { option_map (λ x. (x.0, x.1)) result ≡ face.rule_fault (sorts_of sorts.now) f.now.offers f.now.uses (rule_of sorts.now rule.now) }
{
    children_fault(
        sorts,
        f,
        role_of(sorts, rule.sort),
        rule.children.as_slice(),
    )
}

/// A rule by its number, from 0.
fn declared_rule(g: &Grammar, number: u16) -> Option<&Rule>
    ensures value { option_copied result ≡ slice_get g.now.rules number }
    ensures few { IfSome result (λ r. length r.now.children ≤ 8) }
    ensures below { IfSome result (λ r. number ≤ 1023) }
{
    g.rule(number)
}

fn fault_of_rule(g: &Grammar, f: &Faces, number: u16, rule: &Rule) -> Option<FaceFault>
    requires { length rule.now.children ≤ 8 }
    ensures { option_map face.told result ≡ face.at_rule number (face.rule_fault (sorts_of g.now.sorts) f.now.offers f.now.uses (rule_of g.now.sorts rule.now)) None }
{
    match rule_fault(g.sorts.as_slice(), f, rule) {
        Some((child, kind)) => Some(FaceFault {
            rule: number,
            child,
            kind,
        }),
        None => None,
    }
}

/// Whether all rules of a grammar keep to the faces of its roles; else the first child at fault, in the order of rules and then of children.
pub fn check_faces(g: &Grammar, f: &Faces) -> Result<(), FaceFault>
    ensures { face.Checked result (face.face_fault (grammar_of g.now) f.now.offers f.now.uses) }
{
    let mut number = 0;
    while let Some(rule) = declared_rule(g, number) {
        match fault_of_rule(g, f, number, rule) {
            Some(fault) => return Err(fault),
            None => number += 1,
        }
    }
    Ok(())
}
