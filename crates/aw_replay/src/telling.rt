//! What a choice, a delivery or a worklist does in a world, and its lines.
ghost use Rattle.std.specs.Prelude.{◌≡◌, ◌<◌, ◌++◌, [], true, map, OnOk, OnErr};
ghost use Rattle.aw_base.specs.ChoiceFits.{choice_ok};
ghost use Rattle.aw_choice.specs.ChoiceView.{choice_of, item_of};
ghost use Rattle.aw_choice.specs.Events as E;
ghost use Rattle.aw_grammar.specs.GrammarOf.{words_of};
ghost use Rattle.aw_law_sites.specs.Worlds as V;
ghost use Rattle.aw_world.specs.WorldView.{plain_of};
ghost use Rattle.aw_replay.specs.Telling.{Steps, AddsStep, StepsOrNot, Does, Tells, DoesSome, listed};

use crate::lines::{push_chosen, push_delivery};
use aw_base::{NameWriter, push_item_lines, role_name};
use aw_choice::{Choice, Item};
use aw_list::{Counted, Text};
use aw_world::{Move, Workspace, World};
use std::alloc::AllocError;

/// Makes a choice, and adds its lines. After an error it was made or not.
fn tell_choice<W: Workspace>(
    world: &mut World<W>,
    choice: &Counted<Choice>,
    names: &mut NameWriter<'_>,
    text: &mut Text,
) -> Result<(), AllocError>
    requires named { names.old.grammar.now ≡ world.old.accepted.now.grammar }
    requires ok { choice_ok (plain_of world.old) (choice_of choice.now) ≡ true }
    ensures accepted { world.new.accepted.now ≡ world.old.accepted.now }
    ensures loads { world.new.loads ≡ world.old.loads }
    ensures stepped { OnOk result (Steps ⟦<W as Workspace>⟧ world.old world.new (V.Chooses (choice_of choice.now))) }
    ensures text { OnOk result (AddsStep ⟦<W as Workspace>⟧ world.old (V.Chooses (choice_of choice.now)) text.old text.new) }
    ensures some { OnErr result (StepsOrNot ⟦<W as Workspace>⟧ world.old world.new (V.Chooses (choice_of choice.now))) }
    ensures names { names.new.grammar.now ≡ names.old.grammar.now }
{
    let before = world.messages().len();
    let copy = choice.clone()?;
    let reply = world.step(Move::Choose(copy))?;
    push_chosen(text, names, choice.get(), reply, world.messages(), before)
}

/// Delivers a message, and adds its lines. After an error it was delivered or not.
pub(crate) fn tell_delivery<W: Workspace>(
    world: &mut World<W>,
    number: u64,
    names: &mut NameWriter<'_>,
    text: &mut Text,
) -> Result<(), AllocError>
    requires named { names.old.grammar.now ≡ world.old.accepted.now.grammar }
    ensures accepted { world.new.accepted.now ≡ world.old.accepted.now }
    ensures loads { world.new.loads ≡ world.old.loads }
    ensures stepped { OnOk result (Steps ⟦<W as Workspace>⟧ world.old world.new (V.Delivers number)) }
    ensures text { OnOk result (AddsStep ⟦<W as Workspace>⟧ world.old (V.Delivers number) text.old text.new) }
    ensures some { OnErr result (StepsOrNot ⟦<W as Workspace>⟧ world.old world.new (V.Delivers number)) }
    ensures names { names.new.grammar.now ≡ names.old.grammar.now }
{
    let before = world.messages().len();
    let reply = world.step(Move::Deliver(number))?;
    push_delivery(text, names, number, reply, world.messages(), before)
}

/// Makes a choice; its lines, into an empty text.
pub(crate) fn choice_lines<W: Workspace>(
    world: &mut World<W>,
    choice: &Counted<Choice>,
    names: &mut NameWriter<'_>,
    text: &mut Text,
) -> Result<(), AllocError>
    requires named { names.old.grammar.now ≡ world.old.accepted.now.grammar }
    requires ok { choice_ok (plain_of world.old) (choice_of choice.now) ≡ true }
    requires empty { text.old ≡ [] }
    ensures accepted { world.new.accepted.now ≡ world.old.accepted.now }
    ensures loads { world.new.loads ≡ world.old.loads }
    ensures does { OnOk result (Does ⟦<W as Workspace>⟧ world.old world.new (E.Chooses (choice_of choice.now))) }
    ensures tells { OnOk result (Tells ⟦<W as Workspace>⟧ world.old (E.Chooses (choice_of choice.now)) text.new) }
    ensures some { OnErr result (DoesSome ⟦<W as Workspace>⟧ world.old world.new (E.Chooses (choice_of choice.now))) }
    ensures names { names.new.grammar.now ≡ names.old.grammar.now }
{
    tell_choice(world, choice, names, text)?;
    Ok(())
}

/// Adds the lines of a worklist.
fn push_list(
    text: &mut Text,
    names: &mut NameWriter<'_>,
    role: u16,
    items: &[Item],
) -> Result<(), AllocError>
    ensures text { OnOk result (text.new ≡ text.old ++ listed (words_of names.old.grammar.now) role (map item_of items.now)) }
    ensures grammar { names.new.grammar.now ≡ names.old.grammar.now }
{
    text.push_array(b"list ")?;
    text.push_bytes(role_name(names.grammar(), role))?;
    text.push(b'\n')?;
    push_item_lines(text, names, items)
}

/// The lines of a worklist, into an empty text.
pub(crate) fn list_lines<W: Workspace>(
    world: &World<W>,
    role: u16,
    names: &mut NameWriter<'_>,
    text: &mut Text,
) -> Result<(), AllocError>
    requires named { names.old.grammar.now ≡ world.now.accepted.now.grammar }
    requires role { role < (plain_of world.now).roles }
    requires empty { text.old ≡ [] }
    ensures text { OnOk result (Tells ⟦<W as Workspace>⟧ world.now (E.Lists role) text.new) }
    ensures names { names.new.grammar.now ≡ names.old.grammar.now }
{
    let items = world.list(role)?;
    push_list(text, names, role, items.as_slice())
}
