//! What a choice of a rule on a node leads to over a store.
ghost use Rattle.std.specs.Prelude.{◌≤◌, IfOk, IfSome, length, map};
ghost use Rattle.aw_term.specs.Trees.{join};
ghost use Rattle.aw_term.specs.Views.{pattern_of};
ghost use Rattle.aw_term.specs.WellFormed.{all_leaves, all_nesting};
ghost use Rattle.aw_store.specs.NamedRefs.{AreNamed};
ghost use Rattle.aw_apply.specs.Telling.{HasRoom};

use aw_apply::{Made, Weighed, guard_uncounted, made, tell_guard, weigh_guard};
use aw_base::{Answer, Grammar, Grounds, Node, Ref, Rule, args_ok, sort_of};
use aw_store::{Facts, Refs};
use std::alloc::{AllocError, Global};

/// A refusal, what a taken rule makes, or nothing, where the node was put there with references that no guard is tested on.
#[derive(Drop)]
pub enum Answered {
    Refused(Answer),
    Gives(Made),
    Untested,
}

/// The slots of references, where all of them are named.
fn slots_of<F: Facts>(f: &F, alloc: Global, refs: &[Ref]) -> Result<Option<Vec<usize>>, AllocError>
    ensures { IfOk result (λ found. IfSome found (λ slots. AreNamed (F.names f.now) slots.items refs.now)) }
{
    let mut slots = Vec::new(alloc);
    for r in refs {
        match f.slot_of(r) {
            Some(slot) => slots.push(slot)?,
            None => return Ok(None),
        }
    }
    Ok(Some(slots))
}

/// The guard of a rule on references that are named, one for each of its patterns.
fn guard<F: Facts>(
    f: &F,
    alloc: Global,
    node: &Node,
    rule: &Rule,
    inherited: &[Ref],
) -> Result<Option<Weighed>, AllocError>
    requires shallow { all_nesting (join (map pattern_of rule.now.patterns)) ≤ 32 }
    requires room { length (all_leaves (join (map pattern_of rule.now.patterns))) ≤ 64 }
    ensures { IfOk result (λ tested. IfSome tested (λ w. HasRoom (length rule.now.children) node.now w)) }
{
    let slots = match slots_of(f, alloc, inherited)? {
        Some(slots) if slots.len() == rule.patterns.len() && slots.len() <= 8 => slots,
        _ => return Ok(None),
    };
    let guard = guard_uncounted(f, rule, slots.as_slice());
    let tested = tell_guard(alloc, f, &guard)?;
    Ok(Some(weigh_guard(node, rule, tested)))
}

/// What a choice of a rule on an open node leads to, where its inherited references are named.
pub fn weigh<F: Facts>(
    f: &F,
    alloc: Global,
    g: &Grammar,
    node: &Node,
    inherited: &Refs,
    number: u16,
    args: &Grounds,
) -> Result<Answered, AllocError> {
    let Some(rule) = g.rule(number) else {
        return Ok(Answered::Refused(Answer::NotItsRule));
    };
    if sort_of(g, node) != Some(rule.sort) {
        return Ok(Answered::Refused(Answer::NotItsRule));
    }
    if args.len() != usize::from(rule.params) || !args_ok(g, args) {
        return Ok(Answered::Refused(Answer::Arguments));
    }
    match guard(f, alloc, node, rule, inherited.as_slice())? {
        None => Ok(Answered::Untested),
        Some(Weighed::Refused(answer)) => Ok(Answered::Refused(answer)),
        Some(Weighed::Takes(bound)) => {
            let made = made(alloc, g, node, number, args, bound)?;
            Ok(Answered::Gives(made))
        }
    }
}
