//! Matching patterns with values: the first place in depth-first order that does not match decides.
ghost use Rattle.std.specs.Prelude.{◌≡◌, ◌≤◌, ◌+◌, ◌++◌, ◌∷◌, [], true, IfOk, OnOk, map, length};
ghost use Rattle.aw_term.specs.Trees.{join, Made, Text as PlainText, Nil};
ghost use Rattle.aw_term.specs.Matching.{Yes, match as plain_match, match_parts as plain_parts};
ghost use Rattle.aw_term.specs.WellFormed.{nesting, all_nesting};
ghost use Rattle.aw_term.specs.Views.{pattern_of};
ghost use Rattle.aw_term.specs.Limits.{most_parts, most_levels};
ghost use Rattle.aw_choice.specs.ChoiceView.{path_of};
ghost use Rattle.aw_plain_rows.specs.TreeView.{value_of};
ghost use Rattle.aw_plain.specs.MatchView.{matched_of, behind};
ghost use Rattle.aw_plain.specs.Narrow.{is_narrow, are_narrow};

use aw_base::{Lit, Path, Pattern, Ref, Slot};
use aw_list::{Items, Text};
use aw_name::{Node, copy_node};
use aw_plain_rows::{Tree, Trees, copy_parts, copy_tree};
use std::alloc::{AllocError, Global};

/// What a match gives: what the variables take, in the order in which they enter; or the missing result that it waits
/// for; or the place that differs.
#[derive(Debug, Drop)]
pub enum Matched {
    Yes(Trees),
    Waits(Ref),
    Differs(Path),
}

/// It waits for result j of a node.
fn waits(node: &Node, j: u16) -> Result<Matched, AllocError>
    ensures { IfOk result (λ m. m ≡ Matched.Waits (record { node = node.now; slot = Slot.Result j })) }
{
    Ok(Matched::Waits(Ref {
        node: copy_node(node)?,
        slot: Slot::Result(j),
    }))
}

/// A number or a text with the text that stands at this path.
fn match_text(alloc: Global, lit: &Lit, text: &Text, at: &Path) -> Result<Matched, AllocError>
    ensures { IfOk result (λ m. matched_of m ≡ behind (path_of at.now) (plain_match (pattern_of (Pattern.Lit lit.now)) (Made (PlainText text.now) Nil))) }
{
    match lit {
        Lit::Text(u) if *u == *text => Ok(Matched::Yes(Items::new(alloc))),
        _ => Ok(Matched::Differs(*at)),
    }
}

/// A number or a text with the value that stands at this path.
fn match_lit(alloc: Global, lit: &Lit, tree: &Tree, at: &Path) -> Result<Matched, AllocError>
    ensures { IfOk result (λ m. matched_of m ≡ behind (path_of at.now) (plain_match (pattern_of (Pattern.Lit lit.now)) (value_of tree.now))) }
{
    match tree {
        Tree::Hole(n, j) => waits(n, *j),
        Tree::Con { .. } => Ok(Matched::Differs(*at)),
        Tree::Num(n) => match lit {
            Lit::Num(m) if *m == *n => Ok(Matched::Yes(Items::new(alloc))),
            _ => Ok(Matched::Differs(*at)),
        },
        Tree::Text(t) => match_text(alloc, lit, t.as_ref(), at),
    }
}

/// A variable takes all that stands here.
fn bind(alloc: Global, tree: &Tree) -> Result<Matched, AllocError>
    ensures { IfOk result (λ m. matched_of m ≡ Yes (value_of tree.now ∷ [])) }
{
    let mut taken = Items::new(alloc);
    taken.push(copy_tree(tree)?)?;
    Ok(Matched::Yes(taken))
}

pub(crate) fn append(taken: &mut Vec<Tree>, found: Trees) -> Result<(), AllocError>
    ensures { OnOk result (taken.new.items ≡ taken.old.items ++ found) }
{
    let mut found = found.into_vec();
    taken.append(&mut found)?;
    Ok(())
}

/// The parts of one constructor from left to right.
#[cycle(matching)]
fn match_parts(
    alloc: Global,
    parts: &[Pattern],
    trees: &[Tree],
    at: &Path,
) -> Result<Matched, AllocError>
    requires narrow { are_narrow (join (map pattern_of parts.now)) ≡ true }
    requires few { length parts.now ≤ most_parts }
    requires same { length parts.now ≡ length trees.now }
    requires shallow { at.now.len + all_nesting (join (map pattern_of parts.now)) ≤ 31 }
    ensures { IfOk result (λ m. matched_of m ≡ behind (path_of at.now) (plain_parts 1 (join (map pattern_of parts.now)) (join (map value_of trees.now)))) }
{
    let mut taken = Vec::new(alloc);
    for i in 0..parts.len() {
        let mut here = *at;
        here.push(i as u8 + 1);
        match match_at(alloc, &parts[i], &trees[i], &here)? {
            Matched::Yes(found) => append(&mut taken, found)?,
            Matched::Waits(r) => return Ok(Matched::Waits(r)),
            Matched::Differs(path) => return Ok(Matched::Differs(path)),
        }
    }
    Ok(Matched::Yes(Items::from_vec(taken)))
}

/// A pattern with the value that stands at this path.
#[cycle(matching)]
fn match_at(alloc: Global, pattern: &Pattern, tree: &Tree, at: &Path) -> Result<Matched, AllocError>
    requires narrow { is_narrow (pattern_of pattern.now) ≡ true }
    requires shallow { at.now.len + nesting (pattern_of pattern.now) ≤ most_levels }
    ensures { IfOk result (λ m. matched_of m ≡ behind (path_of at.now) (plain_match (pattern_of pattern.now) (value_of tree.now))) }
{
    match pattern {
        Pattern::Var(_) => bind(alloc, tree),
        Pattern::Lit(lit) => match_lit(alloc, lit, tree, at),
        Pattern::Con(c, parts) => match tree {
            Tree::Hole(n, j) => waits(n, *j),
            Tree::Num(_) => Ok(Matched::Differs(*at)),
            Tree::Text(_) => Ok(Matched::Differs(*at)),
            Tree::Con {
                con,
                whole,
                parts: below,
            } => {
                if *c != *con {
                    return Ok(Matched::Differs(*at));
                }
                let trees = copy_parts(alloc, below.as_slice(), *whole)?;
                if parts.len() != trees.len() {
                    return Ok(Matched::Differs(*at));
                }
                match_parts(alloc, parts.as_slice(), trees.as_slice(), at)
            }
        },
    }
}

/// Matches a pattern with a value.
pub fn match_tree(alloc: Global, pattern: &Pattern, tree: &Tree) -> Result<Matched, AllocError>
    requires narrow { is_narrow (pattern_of pattern.now) ≡ true }
    requires shallow { nesting (pattern_of pattern.now) ≤ most_levels }
    ensures { IfOk result (λ m. matched_of m ≡ plain_match (pattern_of pattern.now) (value_of tree.now)) }
{
    match_at(alloc, pattern, tree, &Path::new())
}
