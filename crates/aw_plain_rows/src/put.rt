//! Values that share their parts: copies, constructors, and values with the holes of a node replaced, which a walk makes on
//! a stack of its own.
ghost use Rattle.std.specs.Prelude.{◌≡◌, ◌+◌, ◌*◌, ◌<◌, ◌++◌, List, IfOk, OnOk, map};
ghost use Rattle.aw_term.specs.Trees.{bind, join, Made, Con, Text as PlainText, Nil};
ghost use Rattle.aw_term.specs.Names.{Ref as PlainRef, result as result_of};
ghost use Rattle.aw_term.specs.Rules.{Value, get, nth};
ghost use Rattle.aw_term.specs.Configs.{put, nothing};
ghost use Rattle.aw_plain_rows.specs.TreeView.{value_of, value_under, values_of};
ghost use Rattle.aw_plain_rows.specs.Places.{places, places_of_all};
ghost use Rattle.aw_plain_rows.specs.Jobs.{finish, made, work, HasBegun};

use crate::tree::{Tree, Trees};
use aw_list::{Items, Text};
use aw_name::{Node, copy_node};
use aw_term::order::is_node;
use std::alloc::{AllocError, Global};
use std::rc::Rc;

fn copy_text(text: &Text) -> Result<Text, AllocError>
    ensures { IfOk result (λ t. t ≡ text.now) }
{
    text.clone()
}

/// A text as a value.
pub fn make_text(alloc: Global, text: &Text) -> Result<Tree, AllocError>
    ensures { IfOk result (λ t. value_of t ≡ Made (PlainText text.now) Nil) }
{
    Ok(Tree::Text(Rc::new(alloc, copy_text(text)?)?))
}

/// What a part stands for below a constructor, which is marked whole or not, as a value of its own. It shares its parts.
pub fn copy_part(tree: &Tree, whole: bool) -> Result<Tree, AllocError>
    ensures { IfOk result (λ t. value_of t ≡ value_under whole tree.now) }
{
    match tree {
        Tree::Num(n) => Ok(Tree::Num(*n)),
        Tree::Text(text) => Ok(Tree::Text(text.clone()?)),
        Tree::Hole(_, _) if whole => Ok(Tree::Num(0)),
        Tree::Hole(node, j) => Ok(Tree::Hole(copy_node(node)?, *j)),
        Tree::Con {
            con,
            whole: marked,
            parts,
        } => Ok(Tree::Con {
            con: *con,
            whole: whole || *marked,
            parts: parts.clone()?,
        }),
    }
}

/// The parts of a constructor, which is marked whole or not, as values of their own.
pub fn copy_parts(alloc: Global, parts: &[Tree], whole: bool) -> Result<Trees, AllocError>
    ensures { IfOk result (λ ts. values_of ts ≡ map (value_under whole) parts.now) }
{
    let mut copies = Vec::new(alloc);
    for part in parts {
        copies.push(copy_part(part, whole)?)?;
    }
    Ok(Items::from_vec(copies))
}

/// A copy of a value. It shares its parts.
pub fn copy_tree(tree: &Tree) -> Result<Tree, AllocError>
    ensures { IfOk result (λ t. value_of t ≡ value_of tree.now) }
{
    copy_part(tree, false)
}

/// Whether a value is known to have no holes, without a walk.
fn is_whole(tree: &Tree) -> bool
    ensures { value_under result tree.now ≡ value_of tree.now }
{
    match tree {
        Tree::Num(_) => true,
        Tree::Text(_) => true,
        Tree::Hole(_, _) => false,
        Tree::Con {
            con: _,
            whole,
            parts: _,
        } => *whole,
    }
}

/// Whether values are known to have no holes.
fn are_whole(trees: &[Tree]) -> bool
    ensures { map (value_under result) trees.now ≡ values_of trees.now }
{
    for tree in trees {
        if !is_whole(tree) {
            return false;
        }
    }
    true
}

/// A constructor over parts, marked whole where they are.
pub fn make_con(con: u16, parts: Vec<Tree>) -> Result<Tree, AllocError>
    ensures { IfOk result (λ t. value_of t ≡ Made (Con con) (join (values_of parts.items))) }
{
    let alloc = *parts.allocator();
    let whole = are_whole(parts.as_slice());
    Ok(Tree::Con {
        con,
        whole,
        parts: Rc::new(alloc, parts)?,
    })
}

/// What is still to be done: to go through a tree, or to make one of the last results.
#[derive(Drop)]
pub enum Job<'t> {
    Visit(&'t Tree),
    Make(u16, usize),
}

fn push_parts<'t>(todo: &mut Vec<Job<'t>>, parts: &'t [Tree]) -> Result<(), AllocError>
    ensures finish { OnOk result ((f : PlainRef → Value) (vs : List Value) → finish f todo.new.items vs ≡ finish f todo.old.items (vs ++ map (λ t. bind f (value_of t)) parts.now)) }
    ensures work { OnOk result (work todo.new.items ≡ work todo.old.items + 2 * places_of_all parts.now) }
{
    let mut k = parts.len();
    while k > 0 {
        k -= 1;
        todo.push(Job::Visit(&parts[k]))?;
    }
    Ok(())
}

fn make(values: &mut Vec<Tree>, con: u16, n: usize) -> Result<(), AllocError>
    ensures { OnOk result (values_of values.new.items ≡ made con n (values_of values.old.items)) }
{
    let at = values.len().saturating_sub(n);
    let parts = values.split_off(at)?;
    values.push(make_con(con, parts)?)?;
    Ok(())
}

/// A copy of the tree at a place, or 0 past the end.
pub fn copy_at(trees: &[Tree], at: usize) -> Result<Tree, AllocError>
    ensures { IfOk result (λ t. value_of t ≡ get nothing (values_of trees.now) at) }
{
    match trees.get(at) {
        Some(t) => copy_tree(t),
        None => Ok(Tree::Num(0)),
    }
}

/// A copy of the tree at a place that is counted from 1, or 0 where there is none.
fn copy_nth(trees: &[Tree], place: u16) -> Result<Tree, AllocError>
    ensures { IfOk result (λ t. value_of t ≡ nth nothing (values_of trees.now) place) }
{
    match place.checked_sub(1) {
        Some(at) => copy_at(trees, usize::from(at)),
        None => Ok(Tree::Num(0)),
    }
}

/// What stands for a hole, where the results of the node are these.
fn at_hole(node: &Node, results: &[Tree], hole: &Node, j: u16) -> Result<Tree, AllocError>
    ensures { IfOk result (λ t. value_of t ≡ put node.now (values_of results.now) (result_of hole.now j)) }
{
    if is_node(node, hole) {
        copy_nth(results, j)
    } else {
        Ok(Tree::Hole(copy_node(hole)?, j))
    }
}

fn begin_put<'t>(
    todo: &mut Vec<Job<'t>>,
    values: &mut Vec<Tree>,
    tree: &'t Tree,
    node: &Node,
    results: &[Tree],
) -> Result<(), AllocError>
    ensures finish { OnOk result (HasBegun (put node.now (values_of results.now)) tree.now todo.old.items values.old.items todo.new.items values.new.items) }
    ensures work { OnOk result (work todo.new.items < work todo.old.items + 2 * places tree.now) }
{
    match tree {
        Tree::Hole(hole, j) => values.push(at_hole(node, results, hole, *j)?)?,
        Tree::Con { con, whole, parts } => {
            if *whole {
                values.push(copy_tree(tree)?)?;
                return Ok(());
            }
            todo.push(Job::Make(*con, parts.len()))?;
            push_parts(todo, parts.as_slice())?;
        }
        Tree::Num(_) => values.push(copy_tree(tree)?)?,
        Tree::Text(_) => values.push(copy_tree(tree)?)?,
    }
    Ok(())
}

/// The tree with all holes of the node replaced at once. What is known to have no holes is shared and not walked; a part
/// with holes that is shared is walked at each of its places.
pub fn put_all(
    alloc: Global,
    tree: &Tree,
    node: &Node,
    results: &[Tree],
) -> Result<Tree, AllocError>
    ensures { IfOk result (λ t. value_of t ≡ bind (put node.now (values_of results.now)) (value_of tree.now)) }
{
    let mut todo = Vec::new(alloc);
    let mut values = Vec::new(alloc);
    todo.push(Job::Visit(tree))?;
    while let Some(job) = todo.pop() {
        match job {
            Job::Visit(part) => {
                begin_put(&mut todo, &mut values, part, node, results)?;
            }
            Job::Make(con, n) => make(&mut values, con, n)?,
        }
    }
    match values.pop() {
        Some(copy) => Ok(copy),
        None => unreachable!(),
    }
}
