//! Terms and arguments laid down as equations of parts behind those that stand, each symbol before its parts.
ghost use Rattle.std.specs.Prelude.{◌≡◌, ◌≤◌, ◌<◌, ◌+◌, ◌++◌, ◌∷◌, [], IfOk, OnOk, length, map};
ghost use Rattle.aw_term.specs.Trees.{Con};
ghost use Rattle.aw_term.specs.Names.{part};
ghost use Rattle.aw_term.specs.Rules.{get};
ghost use Rattle.aw_term.specs.WellFormed.{symbols, symbols_of};
ghost use Rattle.aw_term.specs.Views.{head_of, ground_of, term_of};
ghost use Rattle.aw_store.specs.Equations.{Is};
ghost use Rattle.aw_store.specs.EquationView.{body_of, equation_of};
ghost use Rattle.aw_apply.specs.Made.{lay, lay_list, no_ref};
ghost use Rattle.aw_apply.specs.MadeView.{AreLaid, AreMore, all_of, lone, with_body};

use aw_base::{Expr, Ground, Lit};
use aw_list::Text;
use aw_name::{Node, Ref, Slot, copy_node, copy_ref};
use aw_store::{Body, Equation, Refs};
use std::alloc::{AllocError, Global};

/// The references that stand for several things that were laid down one after the other, and the next part number.
#[derive(Debug, Drop)]
pub struct LaidAll {
    pub roots: Vec<Ref>,
    pub next: u16,
}

impl LaidAll {
    /// Nothing yet, with room for so many; the next part has this number.
    fn with_capacity(alloc: Global, count: usize, next: u16) -> Result<LaidAll, AllocError>
        ensures roots { IfOk result (λ all. all.roots.items ≡ []) }
        ensures next { IfOk result (λ all. all.next ≡ next) }
    {
        Ok(LaidAll {
            roots: Vec::with_capacity(alloc, count)?,
            next,
        })
    }

    /// One more, behind which the next part has this number.
    fn add(&mut self, root: Ref, next: u16) -> Result<(), AllocError>
        ensures roots { OnOk result (self.new.roots.items ≡ self.old.roots.items ++ root ∷ []) }
        ensures next { OnOk result (self.new.next ≡ next) }
    {
        self.roots.push(root)?;
        self.next = next;
        Ok(())
    }
}

/// Part k of a node.
fn part_of(node: &Node, k: u16) -> Result<Ref, AllocError>
    ensures { IfOk result (λ r. r ≡ part node.now k) }
{
    Ok(Ref {
        node: copy_node(node)?,
        slot: Slot::Part(k),
    })
}

/// Adds an equation at the end.
pub fn add_equation(equations: &mut Vec<Equation>, left: Ref, body: Body) -> Result<(), AllocError>
    ensures { OnOk result (map equation_of equations.new.items ≡ map equation_of equations.old.items ++ record { left = left; body = body_of body } ∷ []) }
{
    equations.push(Equation { left, body })?;
    Ok(())
}

/// Adds an equation at the end whose body is written later, and tells its place.
pub fn add_place(equations: &mut Vec<Equation>, left: Ref) -> Result<usize, AllocError>
    ensures place { IfOk result (λ at. at ≡ length equations.old.items) }
    ensures equations { OnOk result (map equation_of equations.new.items ≡ map equation_of equations.old.items ++ record { left = left; body = body_of (Body.Num 0) } ∷ []) }
{
    let at = equations.len();
    add_equation(equations, left, Body::Num(0))?;
    Ok(at)
}

/// Writes the body of the equation at a place.
fn write_body(equations: &mut [Equation], at: usize, body: Body)
    requires { at < length equations.old }
    ensures { map equation_of equations.new ≡ with_body at (body_of body) (map equation_of equations.old) }
{
    equations[at].body = body;
}

/// Writes a constructor over these parts at a place.
pub fn write_con(
    equations: &mut Vec<Equation>,
    at: usize,
    con: u16,
    roots: Vec<Ref>,
) -> Result<(), AllocError>
    requires { at < length equations.old.items }
    ensures { OnOk result (map equation_of equations.new.items ≡ with_body at (Is (Con con) roots.items) (map equation_of equations.old.items)) }
{
    let parts = Refs::from_vec(roots)?;
    write_body(equations.as_mut_slice(), at, Body::Con(con, parts));
    Ok(())
}

/// A symbol without parts as the next part, behind what was laid down.
fn lay_lone(
    equations: &mut Vec<Equation>,
    node: &Node,
    body: Body,
    all: &mut LaidAll,
) -> Result<(), AllocError>
    requires { all.old.next < 65535 }
    ensures { OnOk result (AreMore equations.old.items equations.new.items all.old all.new (lone node.now all.old.next (body_of body))) }
{
    let k = all.next;
    add_equation(equations, part_of(node, k)?, body)?;
    all.add(part_of(node, k)?, k + 1)
}

/// A place for a constructor as part k.
fn open_con(equations: &mut Vec<Equation>, node: &Node, k: u16) -> Result<usize, AllocError>
    ensures place { IfOk result (λ at. at ≡ length equations.old.items) }
    ensures equations { OnOk result (map equation_of equations.new.items ≡ map equation_of equations.old.items ++ record { left = part node.now k; body = body_of (Body.Num 0) } ∷ []) }
{
    add_place(equations, part_of(node, k)?)
}

/// The constructor written at its place, over what was laid down for its parts; it stands behind what was laid down before.
fn close_con(
    equations: &mut Vec<Equation>,
    node: &Node,
    at: usize,
    con: u16,
    parts: LaidAll,
    all: &mut LaidAll,
) -> Result<(), AllocError>
    requires { at < length equations.old.items }
    ensures { OnOk result (all_of (map equation_of equations.new.items) all.new
        ≡ record { roots = all.old.roots.items ++ part node.now all.old.next ∷ []; equations = with_body at (Is (Con con) parts.roots.items) (map equation_of equations.old.items); next = parts.next }) }
{
    let LaidAll { roots, next } = parts;
    write_con(equations, at, con, roots)?;
    all.add(part_of(node, all.next)?, next)
}

/// A number or a text as a body.
pub fn lit_body(alloc: Global, lit: &Lit) -> Result<Body, AllocError>
    ensures { IfOk result (λ b. body_of b ≡ Is (head_of lit.now) []) }
{
    match lit {
        Lit::Num(n) => Ok(Body::Num(*n)),
        Lit::Text(t) => Ok(Body::Text(Text::from_bytes(alloc, t.as_slice())?)),
    }
}

/// A text as the next part.
fn lay_text(
    alloc: Global,
    equations: &mut Vec<Equation>,
    node: &Node,
    text: &Text,
    all: &mut LaidAll,
) -> Result<(), AllocError>
    requires { all.old.next < 65535 }
    ensures { OnOk result (AreMore equations.old.items equations.new.items all.old all.new (lone node.now all.old.next (body_of (Body.Text text.now)))) }
{
    let text = Text::from_bytes(alloc, text.as_slice())?;
    lay_lone(equations, node, Body::Text(text), all)
}

/// An argument, whose symbol is the next part.
#[cycle(lay_ground)]
fn lay_ground(
    alloc: Global,
    equations: &mut Vec<Equation>,
    node: &Node,
    ground: &Ground,
    all: &mut LaidAll,
) -> Result<(), AllocError>
    requires { all.old.next + symbols (ground_of ground.now) ≤ 65535 }
    ensures { OnOk result (AreMore equations.old.items equations.new.items all.old all.new (lay node.now (λ x. elim x [ ]) all.old.next (ground_of ground.now))) }
{
    match ground {
        Ground::Num(n) => lay_lone(equations, node, Body::Num(*n), all),
        Ground::Text(t) => lay_text(alloc, equations, node, t, all),
        Ground::Con(c, parts) => {
            let k = all.next;
            let at = open_con(equations, node, k)?;
            let inner = lay_grounds(alloc, equations, node, k + 1, parts.as_slice())?;
            close_con(equations, node, at, *c, inner, all)
        }
    }
}

/// Arguments from part k on, from left to right.
#[cycle(lay_ground)]
pub fn lay_grounds(
    alloc: Global,
    equations: &mut Vec<Equation>,
    node: &Node,
    k: u16,
    grounds: &[Ground],
) -> Result<LaidAll, AllocError>
    requires { k + symbols_of (map ground_of grounds.now) ≤ 65535 }
    ensures { IfOk result (λ l. AreLaid equations.old.items equations.new.items l (lay_list node.now (λ x. elim x [ ]) k (map ground_of grounds.now))) }
{
    let mut all = LaidAll::with_capacity(alloc, grounds.len(), k)?;
    for ground in grounds {
        lay_ground(alloc, equations, node, ground, &mut all)?;
    }
    Ok(all)
}

/// The reference of a variable, among those of all variables of a rule.
pub fn ref_at(node: &Node, refs: &[Ref], variable: u8) -> Result<Ref, AllocError>
    ensures { IfOk result (λ r. r ≡ get (no_ref node.now) refs.now variable) }
{
    match refs.get(usize::from(variable)) {
        Some(r) => copy_ref(r),
        None => part_of(node, 0),
    }
}

/// The reference of a variable, behind what was laid down. It takes no part.
fn add_variable(
    node: &Node,
    refs: &[Ref],
    variable: u8,
    all: &mut LaidAll,
) -> Result<(), AllocError>
    ensures roots { OnOk result (all.new.roots.items ≡ all.old.roots.items ++ get (no_ref node.now) refs.now variable ∷ []) }
    ensures next { OnOk result (all.new.next ≡ all.old.next) }
{
    all.add(ref_at(node, refs, variable)?, all.next)
}

/// A number or a text of a term as the next part.
fn lay_lit(
    alloc: Global,
    equations: &mut Vec<Equation>,
    node: &Node,
    lit: &Lit,
    all: &mut LaidAll,
) -> Result<(), AllocError>
    requires { all.old.next < 65535 }
    ensures { OnOk result (AreMore equations.old.items equations.new.items all.old all.new (lone node.now all.old.next (Is (head_of lit.now) []))) }
{
    let body = lit_body(alloc, lit)?;
    lay_lone(equations, node, body, all)
}

/// A term, whose symbol is the next part. A variable takes no part.
#[cycle(lay_term)]
fn lay_term(
    alloc: Global,
    equations: &mut Vec<Equation>,
    node: &Node,
    refs: &[Ref],
    term: &Expr,
    all: &mut LaidAll,
) -> Result<(), AllocError>
    requires { all.old.next + symbols (term_of term.now) ≤ 65535 }
    ensures { OnOk result (AreMore equations.old.items equations.new.items all.old all.new (lay node.now (get (no_ref node.now) refs.now) all.old.next (term_of term.now))) }
{
    match term {
        Expr::Var(x) => add_variable(node, refs, *x, all),
        Expr::Lit(lit) => lay_lit(alloc, equations, node, lit, all),
        Expr::Con(c, parts) => {
            let k = all.next;
            let at = open_con(equations, node, k)?;
            let inner = lay_terms(alloc, equations, node, refs, k + 1, parts.as_slice())?;
            close_con(equations, node, at, *c, inner, all)
        }
    }
}

/// Terms from part k on, from left to right.
#[cycle(lay_term)]
pub fn lay_terms(
    alloc: Global,
    equations: &mut Vec<Equation>,
    node: &Node,
    refs: &[Ref],
    k: u16,
    terms: &[Expr],
) -> Result<LaidAll, AllocError>
    requires { k + symbols_of (map term_of terms.now) ≤ 65535 }
    ensures { IfOk result (λ l. AreLaid equations.old.items equations.new.items l (lay_list node.now (get (no_ref node.now) refs.now) k (map term_of terms.now))) }
{
    let mut all = LaidAll::with_capacity(alloc, terms.len(), k)?;
    for term in terms {
        lay_term(alloc, equations, node, refs, term, &mut all)?;
    }
    Ok(all)
}
