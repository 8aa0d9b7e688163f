//! The guard of a rule: its patterns with the inherited values of a node.
ghost use Rattle.std.specs.Prelude.{◌≡◌, ◌≤◌, [], true, IfOk, MatchOption, map, length};
ghost use Rattle.aw_term.specs.Trees.{join};
ghost use Rattle.aw_term.specs.Matching.{Yes, match_all as plain_guard};
ghost use Rattle.aw_term.specs.WellFormed.{all_nesting};
ghost use Rattle.aw_term.specs.Views.{pattern_of};
ghost use Rattle.aw_term.specs.Limits.{most_levels, most_inherited};
ghost use Rattle.aw_plain_rows.specs.TreeView.{values_of};
ghost use Rattle.aw_plain.specs.GuardView.{guard_of};
ghost use Rattle.aw_plain.specs.Narrow.{are_narrow};

use crate::matching::{Matched, append, match_tree};
use aw_base::{Pattern, Place, Ref};
use aw_list::Items;
use aw_plain_rows::{Tree, Trees};
use std::alloc::{AllocError, Global};

/// What a guard gives: what the variables of the patterns take; or the missing result that it waits for; or the place
/// that differs.
#[derive(Debug, Drop)]
pub enum Guard {
    Yes(Trees),
    Waits(Ref),
    Differs(Place),
}

/// Matches each pattern with its value, and puts what they bind into this list, which is empty; or what ends it first.
fn match_each(
    alloc: Global,
    patterns: &[Pattern],
    inherited: &[Tree],
    taken: &mut Vec<Tree>,
) -> Result<Option<Guard>, AllocError>
    requires narrow { are_narrow (join (map pattern_of patterns.now)) ≡ true }
    requires shallow { all_nesting (join (map pattern_of patterns.now)) ≤ most_levels }
    requires few { length patterns.now ≤ most_inherited }
    requires same { length patterns.now ≡ length inherited.now }
    requires none { taken.old.items ≡ [] }
    ensures { IfOk result (λ end. MatchOption end (Yes (values_of taken.new.items) ≡ plain_guard 1 (map pattern_of patterns.now) (values_of inherited.now)) (λ g. guard_of g ≡ plain_guard 1 (map pattern_of patterns.now) (values_of inherited.now))) }
{
    for i in 0..patterns.len() {
        match match_tree(alloc, &patterns[i], &inherited[i])? {
            Matched::Yes(found) => append(taken, found)?,
            Matched::Waits(r) => return Ok(Some(Guard::Waits(r))),
            Matched::Differs(path) => {
                return Ok(Some(Guard::Differs(Place {
                    attribute: i as u8 + 1,
                    path,
                })));
            }
        }
    }
    Ok(None)
}

/// Matches the patterns of a rule with the inherited values of a node, from the first attribute on.
pub fn match_all(
    alloc: Global,
    patterns: &[Pattern],
    inherited: &[Tree],
) -> Result<Guard, AllocError>
    requires narrow { are_narrow (join (map pattern_of patterns.now)) ≡ true }
    requires shallow { all_nesting (join (map pattern_of patterns.now)) ≤ most_levels }
    requires few { length patterns.now ≤ most_inherited }
    requires same { length patterns.now ≡ length inherited.now }
    ensures { IfOk result (λ m. guard_of m ≡ plain_guard 1 (map pattern_of patterns.now) (values_of inherited.now)) }
{
    let mut taken = Vec::new(alloc);
    match match_each(alloc, patterns, inherited, &mut taken) {
        Ok(None) => Ok(Guard::Yes(Items::from_vec(taken))),
        Ok(Some(end)) => {
            drop(taken);
            Ok(end)
        }
        Err(failed) => {
            drop(taken);
            Err(failed)
        }
    }
}
