//! A turn that makes a choice.
ghost use Rattle.std.specs.Prelude.{◌≡◌, ◌<◌, true, ℕ, Some, IfOk, OnOk, map as list_map, slice_get, is_some};
ghost use Rattle.aw_base.specs.ChoiceFits.{args_ok, choice_ok};
ghost use Rattle.aw_choice.specs.ChoiceView.{choice_of};
ghost use Rattle.aw_term.specs.Rules.{Grammar as PlainGrammar, sort_of};
ghost use Rattle.aw_term.specs.Views.{ground_of};
ghost use Rattle.aw_world.specs.MoveView.{reply_of};
ghost use Rattle.aw_world.specs.WorldView.{plain_of};
ghost use Rattle.aw_trial.specs.Comes.{Does, AddsOne, AreUpTo};
ghost use Rattle.aw_trial.specs.Turns.{replies_taken, make_choice, argument_for, drew_argument, develop, among_rules, at_node, among_nodes, choose_some};

use crate::drawing::draw;
use crate::rules::{params_of, rules_of};
use crate::tally::Tally;
use aw_base::sort_of;
use aw_choice::{Answer, Choice};
use aw_list::Counted;
use aw_name::{Node, copy_node};
use aw_term::{Ground, Grounds};
use aw_world::{Move, Reply, Workspace, World};
use std::alloc::{AllocError, Global};

/// Whether a choice was taken.
fn is_taken(reply: &Reply) -> bool
    ensures { result ≡ replies_taken (reply_of reply.now) }
{
    matches!(reply, Reply::Choice(Answer::Taken))
}

/// Makes a choice that has memory of its own, and counts it.
fn make_counted<W: Workspace>(
    world: &mut World<W>,
    tally: &mut Tally,
    choice: Counted<Choice>,
) -> Result<(), AllocError>
    requires ok { choice_ok (plain_of world.old) (choice_of choice) ≡ true }
    requires room { AreUpTo 1000000 tally.old }
    ensures accepted { world.new.accepted.now ≡ world.old.accepted.now }
    ensures loads { world.new.loads ≡ world.old.loads }
    ensures does { OnOk result (Does ⟦<W as Workspace>⟧ world.old tally.old world.new tally.new (make_choice (plain_of world.old) (choice_of choice))) }
    ensures grows { OnOk result (AddsOne tally.old tally.new) }
{
    let reply = world.step(Move::Choose(choice))?;
    tally.choices += 1;
    tally.taken += u64::from(is_taken(&reply));
    Ok(())
}

/// Makes a choice, and counts it.
fn make_choice<W: Workspace>(
    world: &mut World<W>,
    tally: &mut Tally,
    choice: Choice,
) -> Result<(), AllocError>
    requires ok { choice_ok (plain_of world.old) (choice_of choice) ≡ true }
    requires room { AreUpTo 1000000 tally.old }
    ensures accepted { world.new.accepted.now ≡ world.old.accepted.now }
    ensures loads { world.new.loads ≡ world.old.loads }
    ensures does { OnOk result (Does ⟦<W as Workspace>⟧ world.old tally.old world.new tally.new (make_choice (plain_of world.old) (choice_of choice))) }
    ensures grows { OnOk result (AddsOne tally.old tally.new) }
{
    let choice = Counted::new(world.allocator(), choice)?;
    make_counted(world, tally, choice)
}

/// The argument of a rule with so many parameters: where it has one, a number is drawn.
fn argument(alloc: Global, params: u8, tally: &mut Tally) -> Result<Grounds, AllocError>
    ensures args { IfOk result (λ args. list_map ground_of args ≡ argument_for params tally.old) }
    ensures drew { OnOk result (tally.new ≡ drew_argument params tally.old) }
    ensures ok { IfOk result (λ args. (g : PlainGrammar) → args_ok g (list_map ground_of args) ≡ true) }
{
    let mut args = Grounds::new(alloc);
    if params > 0 {
        args.push(Ground::Num(draw(tally, 100)))?;
    }
    Ok(args)
}

/// Chooses a rule for a node, its argument drawn.
fn develop<W: Workspace>(
    world: &mut World<W>,
    tally: &mut Tally,
    node: Node,
    rule: u16,
) -> Result<(), AllocError>
    requires node { is_some (sort_of (plain_of world.old) node) ≡ true }
    requires rule { is_some (slice_get (plain_of world.old).rules rule) ≡ true }
    requires room { AreUpTo 1000000 tally.old }
    ensures accepted { world.new.accepted.now ≡ world.old.accepted.now }
    ensures loads { world.new.loads ≡ world.old.loads }
    ensures does { OnOk result (Does ⟦<W as Workspace>⟧ world.old tally.old world.new tally.new (develop (plain_of world.old) node rule)) }
    ensures grows { OnOk result (AddsOne tally.old tally.new) }
{
    let params = params_of(world.accepted().grammar(), rule);
    let args = argument(world.allocator(), params, tally)?;
    make_choice(world, tally, Choice::Develop { node, rule, args })
}

/// Draws one of these rules for a node, where there is one.
fn among_rules<W: Workspace>(
    world: &mut World<W>,
    tally: &mut Tally,
    node: Node,
    rules: &[u16],
) -> Result<(), AllocError>
    requires node { is_some (sort_of (plain_of world.old) node) ≡ true }
    requires rules { (i r : ℕ) → slice_get rules.now i ≡ Some r → is_some (slice_get (plain_of world.old).rules r) ≡ true }
    requires room { AreUpTo 1000000 tally.old }
    ensures accepted { world.new.accepted.now ≡ world.old.accepted.now }
    ensures loads { world.new.loads ≡ world.old.loads }
    ensures does { OnOk result (Does ⟦<W as Workspace>⟧ world.old tally.old world.new tally.new (among_rules (plain_of world.old) node rules.now)) }
    ensures grows { OnOk result (AddsOne tally.old tally.new) }
{
    if rules.is_empty() {
        return Ok(());
    }
    let rule = rules[draw(tally, rules.len() as u64) as usize];
    develop(world, tally, node, rule)
}

/// Draws a rule of a node's sort.
fn at_node<W: Workspace>(
    world: &mut World<W>,
    tally: &mut Tally,
    node: Node,
) -> Result<(), AllocError>
    requires { AreUpTo 1000000 tally.old }
    ensures accepted { world.new.accepted.now ≡ world.old.accepted.now }
    ensures loads { world.new.loads ≡ world.old.loads }
    ensures does { OnOk result (Does ⟦<W as Workspace>⟧ world.old tally.old world.new tally.new (at_node (plain_of world.old) node)) }
    ensures grows { OnOk result (AddsOne tally.old tally.new) }
{
    let Some(sort) = sort_of(world.accepted().grammar(), &node) else {
        return Ok(());
    };
    let rules = rules_of(world.allocator(), world.accepted().grammar(), sort)?;
    among_rules(world, tally, node, rules.as_slice())
}

/// Draws one of these nodes and a rule for it, where there is one.
fn among_nodes<W: Workspace>(
    world: &mut World<W>,
    tally: &mut Tally,
    nodes: &[Node],
) -> Result<(), AllocError>
    requires { AreUpTo 1000000 tally.old }
    ensures accepted { world.new.accepted.now ≡ world.old.accepted.now }
    ensures loads { world.new.loads ≡ world.old.loads }
    ensures does { OnOk result (Does ⟦<W as Workspace>⟧ world.old tally.old world.new tally.new (among_nodes (plain_of world.old) nodes.now)) }
    ensures grows { OnOk result (AddsOne tally.old tally.new) }
{
    if nodes.is_empty() {
        return Ok(());
    }
    let node = copy_node(&nodes[draw(tally, nodes.len() as u64) as usize])?;
    at_node(world, tally, node)
}

/// Draws one of the open nodes of all roles and a rule for it, and chooses it.
pub(crate) fn choose_some<W: Workspace>(
    world: &mut World<W>,
    tally: &mut Tally,
) -> Result<(), AllocError>
    requires { AreUpTo 1000000 tally.old }
    ensures accepted { world.new.accepted.now ≡ world.old.accepted.now }
    ensures loads { world.new.loads ≡ world.old.loads }
    ensures does { OnOk result (Does ⟦<W as Workspace>⟧ world.old tally.old world.new tally.new (choose_some (plain_of world.old))) }
    ensures grows { OnOk result (AddsOne tally.old tally.new) }
{
    let nodes = world.pending()?;
    among_nodes(world, tally, nodes.as_slice())
}
