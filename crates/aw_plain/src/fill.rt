//! Terms with the values of their variables, and arguments as values.
ghost use Rattle.std.specs.Prelude.{◌≡◌, IfOk, map};
ghost use Rattle.aw_term.specs.Configs.{fill as plain_fill, lift as plain_lift, holes as plain_holes};
ghost use Rattle.aw_term.specs.Views.{ground_of, term_of};
ghost use Rattle.aw_plain_rows.specs.TreeView.{value_of, values_of};

use aw_base::{Expr, Ground, Lit};
use aw_list::Items;
use aw_name::{Node, copy_node};
use aw_plain_rows::{Tree, Trees, copy_at, make_con, make_text};
use std::alloc::{AllocError, Global};

/// The term, with the values of its variables by number.
#[cycle(fill)]
fn fill(alloc: Global, expr: &Expr, env: &[Tree]) -> Result<Tree, AllocError>
    ensures { IfOk result (λ t. value_of t ≡ plain_fill (values_of env.now) (term_of expr.now)) }
{
    match expr {
        Expr::Var(x) => copy_at(env, usize::from(*x)),
        Expr::Lit(Lit::Num(n)) => Ok(Tree::Num(*n)),
        Expr::Lit(Lit::Text(t)) => make_text(alloc, t),
        Expr::Con(c, parts) => make_con(*c, fill_all(alloc, parts.as_slice(), env)?.into_vec()),
    }
}

/// The terms, with the values of their variables by number.
#[cycle(fill)]
pub fn fill_all(alloc: Global, exprs: &[Expr], env: &[Tree]) -> Result<Trees, AllocError>
    ensures { IfOk result (λ ts. values_of ts ≡ map (plain_fill (values_of env.now)) (map term_of exprs.now)) }
{
    let mut trees = Vec::new(alloc);
    for expr in exprs {
        trees.push(fill(alloc, expr, env)?)?;
    }
    Ok(Items::from_vec(trees))
}

/// An argument as a value.
#[cycle(lift)]
fn lift(alloc: Global, ground: &Ground) -> Result<Tree, AllocError>
    ensures { IfOk result (λ t. value_of t ≡ plain_lift (ground_of ground.now)) }
{
    match ground {
        Ground::Num(n) => Ok(Tree::Num(*n)),
        Ground::Text(t) => make_text(alloc, t),
        Ground::Con(c, parts) => make_con(*c, lift_all(alloc, parts.as_slice())?.into_vec()),
    }
}

/// Arguments as values.
#[cycle(lift)]
pub fn lift_all(alloc: Global, grounds: &[Ground]) -> Result<Trees, AllocError>
    ensures { IfOk result (λ ts. values_of ts ≡ map plain_lift (map ground_of grounds.now)) }
{
    let mut trees = Vec::new(alloc);
    for ground in grounds {
        trees.push(lift(alloc, ground)?)?;
    }
    Ok(Items::from_vec(trees))
}

/// The results of a node on which no choice was taken yet.
#[tactic(auto, using(crate::proofs::FillLemmas::holes_more))]
pub fn holes(alloc: Global, node: &Node, results: u8) -> Result<Trees, AllocError>
    ensures { IfOk result (λ ts. values_of ts ≡ plain_holes node.now results) }
{
    let mut trees = Vec::new(alloc);
    for j in 0..results {
        trees.push(Tree::Hole(copy_node(node)?, u16::from(j) + 1))?;
    }
    Ok(Items::from_vec(trees))
}
