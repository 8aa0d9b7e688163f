//! Texts of names, references, answers and items of a worklist. A number that is not declared prints as an empty name.
ghost use Rattle.std.specs.Prelude.{◌≡◌, ◌++◌, [], ◌∷◌, codes, decimal, flat_map, map, OnOk, OnErr, IfOk};
ghost use Rattle.std.specs.Io.{StartsWith};
ghost use Rattle.aw_term.specs.Rules.{get};
ghost use Rattle.aw_term.specs.Artifacts.{step_text, steps_text, node_text, slot_text, ref_text, listed, place_text, answer_text, standing_text, item_text};
ghost use Rattle.aw_grammar.specs.GrammarOf.{words_of};
ghost use Rattle.aw_choice.specs.ChoiceView.{path_of, place_of, answer_of, refusal_of, item_of};

use crate::name_writer::NameWriter;
use aw_choice::{Answer, Item, Path, Place, Standing};
use aw_grammar::Grammar;
use aw_list::Text;
use aw_name::{Node, Ref, Slot, Step};
use aw_spelling::push_number;
use std::alloc::{AllocError, Global};

/// The name of a role.
pub fn role_name(g: &Grammar, role: u16) -> &[u8]
    ensures { result.now ≡ get [] (words_of g.now).roles role }
{
    match g.role(role) {
        Some(name) => name.as_slice(),
        None => &[],
    }
}

/// The name of a constructor.
pub fn con_name(g: &Grammar, con: u16) -> &[u8]
    ensures { result.now ≡ get [] (words_of g.now).cons con }
{
    match g.con(con) {
        Some(con) => con.name.as_slice(),
        None => &[],
    }
}

/// The name of a sort.
pub fn sort_name(g: &Grammar, sort: u16) -> &[u8]
    ensures { result.now ≡ get [] (words_of g.now).sorts sort }
{
    match g.sort(sort) {
        Some(sort) => sort.name.as_slice(),
        None => &[],
    }
}

/// The name of a rule.
pub fn rule_name(g: &Grammar, rule: u16) -> &[u8]
    ensures { result.now ≡ get [] (words_of g.now).rules rule }
{
    match g.rule(rule) {
        Some(rule) => rule.name.as_slice(),
        None => &[],
    }
}

/// Adds the number of a child behind a point. One digit, as each child has, goes a shorter way.
fn add_child(text: &mut Text, child: u8) -> Result<(), AllocError>
    ensures ok { OnOk result (text.new ≡ text.old ++ (codes "." ++ decimal child)) }
    ensures err { OnErr result (StartsWith text.new text.old) }
{
    if child < 10 {
        return text.push_bytes(&[b'.', b'0' + child]);
    }
    text.push(b'.')?;
    push_number(text, u64::from(child))
}

pub(crate) fn add_step(text: &mut Text, g: &Grammar, step: &Step) -> Result<(), AllocError>
    ensures ok { OnOk result (text.new ≡ text.old ++ step_text (words_of g.now) step.now) }
    ensures err { OnErr result (StartsWith text.new text.old) }
{
    text.push(b'/')?;
    text.push_bytes(rule_name(g, step.rule))?;
    add_child(text, step.child)
}

fn add_steps(text: &mut Text, g: &Grammar, steps: &[Step]) -> Result<(), AllocError>
    ensures ok { OnOk result (text.new ≡ text.old ++ steps_text (words_of g.now) steps.now) }
    ensures err { OnErr result (StartsWith text.new text.old) }
{
    for step in steps {
        add_step(text, g, step)?;
    }
    Ok(())
}

fn add_node(text: &mut Text, g: &Grammar, n: &Node) -> Result<(), AllocError>
    ensures ok { OnOk result (text.new ≡ text.old ++ node_text (words_of g.now) n.now) }
    ensures err { OnErr result (StartsWith text.new text.old) }
{
    text.push_bytes(sort_name(g, n.start))?;
    text.push(b'#')?;
    push_number(text, n.case)?;
    add_steps(text, g, n.steps.as_slice())
}

/// Adds a letter between a colon and a number. A number of one digit, as most are, goes a shorter way.
fn add_lettered(text: &mut Text, letter: u8, number: u16) -> Result<(), AllocError>
    ensures ok { OnOk result (text.new ≡ text.old ++ (codes ":" ++ (letter ∷ decimal number))) }
    ensures err { OnErr result (StartsWith text.new text.old) }
{
    if number < 10 {
        return text.push_bytes(&[b':', letter, b'0' + number as u8]);
    }
    text.push_bytes(&[b':', letter])?;
    push_number(text, u64::from(number))
}

fn add_slot(text: &mut Text, slot: Slot) -> Result<(), AllocError>
    ensures ok { OnOk result (text.new ≡ text.old ++ slot_text slot) }
    ensures err { OnErr result (StartsWith text.new text.old) }
{
    match slot {
        Slot::Result(number) => add_lettered(text, b'r', number),
        Slot::Part(number) => add_lettered(text, b'p', number),
    }
}

fn add_ref(text: &mut Text, names: &mut NameWriter<'_>, r: &Ref) -> Result<(), AllocError>
    ensures ok { OnOk result (text.new ≡ text.old ++ ref_text (words_of names.old.grammar.now) r.now) }
    ensures err { OnErr result (StartsWith text.new text.old) }
    ensures grammar { names.new.grammar.now ≡ names.old.grammar.now }
{
    names.push_node(text, &r.node)?;
    add_slot(text, r.slot)
}

fn add_lone_ref(text: &mut Text, g: &Grammar, r: &Ref) -> Result<(), AllocError>
    ensures ok { OnOk result (text.new ≡ text.old ++ ref_text (words_of g.now) r.now) }
    ensures err { OnErr result (StartsWith text.new text.old) }
{
    add_node(text, g, &r.node)?;
    add_slot(text, r.slot)
}

fn add_following(
    text: &mut Text,
    names: &mut NameWriter<'_>,
    refs: &[Ref],
) -> Result<(), AllocError>
    ensures ok { OnOk result (text.new ≡ text.old ++ flat_map (λ r. codes ", " ++ ref_text (words_of names.old.grammar.now) r) refs.now) }
    ensures err { OnErr result (StartsWith text.new text.old) }
    ensures grammar { names.new.grammar.now ≡ names.old.grammar.now }
{
    for r in refs {
        text.push_bytes(b", ")?;
        add_ref(text, names, r)?;
    }
    Ok(())
}

fn add_refs(text: &mut Text, names: &mut NameWriter<'_>, refs: &[Ref]) -> Result<(), AllocError>
    ensures ok { OnOk result (text.new ≡ text.old ++ listed (map (ref_text (words_of names.old.grammar.now)) refs.now)) }
    ensures err { OnErr result (StartsWith text.new text.old) }
    ensures grammar { names.new.grammar.now ≡ names.old.grammar.now }
{
    match refs {
        [] => Ok(()),
        [first, rest @ ..] => {
            add_ref(text, names, first)?;
            add_following(text, names, rest)
        }
    }
}

fn add_path(text: &mut Text, steps: &[u8]) -> Result<(), AllocError>
    ensures ok { OnOk result (text.new ≡ text.old ++ flat_map (λ k. codes "." ++ decimal k) steps.now) }
    ensures err { OnErr result (StartsWith text.new text.old) }
{
    for step in steps {
        text.push_bytes(b".")?;
        push_number(text, u64::from(*step))?;
    }
    Ok(())
}

fn add_place(text: &mut Text, place: &Place) -> Result<(), AllocError>
    ensures ok { OnOk result (text.new ≡ text.old ++ place_text (place_of place.now)) }
    ensures err { OnErr result (StartsWith text.new text.old) }
{
    push_number(text, u64::from(place.attribute))?;
    add_path(text, path_steps(&place.path))
}

/// The steps of a path.
pub fn path_steps(path: &Path) -> &[u8]
    ensures { result.now ≡ path_of path.now }
{
    let (steps, _) = path.steps.split_at(path.len);
    steps
}

fn add_refusal(
    text: &mut Text,
    word: &[u8],
    names: &mut NameWriter<'_>,
    r: &Ref,
) -> Result<(), AllocError>
    ensures ok { OnOk result (text.new ≡ text.old ++ (word.now ++ ref_text (words_of names.old.grammar.now) r.now)) }
    ensures err { OnErr result (StartsWith text.new text.old) }
    ensures grammar { names.new.grammar.now ≡ names.old.grammar.now }
{
    text.push_bytes(word)?;
    add_ref(text, names, r)
}

fn add_mismatch(text: &mut Text, word: &[u8], place: &Place) -> Result<(), AllocError>
    ensures ok { OnOk result (text.new ≡ text.old ++ (word.now ++ place_text (place_of place.now))) }
    ensures err { OnErr result (StartsWith text.new text.old) }
{
    text.push_bytes(word)?;
    add_place(text, place)
}

fn add_answer(text: &mut Text, names: &mut NameWriter<'_>, a: &Answer) -> Result<(), AllocError>
    ensures ok { OnOk result (text.new ≡ text.old ++ answer_text (words_of names.old.grammar.now) (answer_of a.now)) }
    ensures err { OnErr result (StartsWith text.new text.old) }
    ensures grammar { names.new.grammar.now ≡ names.old.grammar.now }
{
    match a {
        Answer::Known => text.push_bytes(b"known"),
        Answer::NotHere => text.push_bytes(b"unknown"),
        Answer::Developed => text.push_bytes(b"developed"),
        Answer::NotItsRule => text.push_bytes(b"wrong rule"),
        Answer::Arguments => text.push_bytes(b"arguments"),
        Answer::Waits(r) => add_refusal(text, b"waits ", names, r),
        Answer::Differs(place) => add_mismatch(text, b"mismatch ", place),
        Answer::Circle(r) => add_refusal(text, b"circle ", names, r),
        Answer::TooDeep => text.push_bytes(b"deep"),
        Answer::Taken => text.push_bytes(b"taken"),
    }
}

/// Adds how an item stands, behind a blank.
fn add_standing(
    text: &mut Text,
    names: &mut NameWriter<'_>,
    state: &Standing,
) -> Result<(), AllocError>
    ensures ok { OnOk result (text.new ≡ text.old ++ (codes " " ++ standing_text (words_of names.old.grammar.now) (refusal_of state.now))) }
    ensures err { OnErr result (StartsWith text.new text.old) }
    ensures grammar { names.new.grammar.now ≡ names.old.grammar.now }
{
    match state {
        Standing::Ready => text.push_bytes(b" ready"),
        Standing::Waits(r) => add_refusal(text, b" waits ", names, r),
        Standing::Differs(place) => add_mismatch(text, b" mismatch ", place),
        Standing::Circle(r) => add_refusal(text, b" circle ", names, r),
        Standing::TooDeep => text.push_bytes(b" deep"),
    }
}

fn add_item(text: &mut Text, names: &mut NameWriter<'_>, i: &Item) -> Result<(), AllocError>
    ensures ok { OnOk result (text.new ≡ text.old ++ item_text (words_of names.old.grammar.now) (item_of i.now)) }
    ensures err { OnErr result (StartsWith text.new text.old) }
    ensures grammar { names.new.grammar.now ≡ names.old.grammar.now }
{
    names.push_item_front(text, &i.node)?;
    text.push_bytes(rule_name(names.grammar(), i.rule))?;
    add_standing(text, names, &i.state)
}

/// The name of a node, as `visit#1/admit.1`.
pub fn node_text(alloc: Global, g: &Grammar, n: &Node) -> Result<Text, AllocError>
    ensures { IfOk result (λ text. text ≡ node_text (words_of g.now) n.now) }
{
    let mut text = Text::new(alloc);
    add_node(&mut text, g, n)?;
    Ok(text)
}

/// Adds the text that `node_text` makes, the name of one node alone. An error changes nothing.
pub fn push_node(text: &mut Text, g: &Grammar, n: &Node) -> Result<(), AllocError>
    ensures ok { OnOk result (text.new ≡ text.old ++ node_text (words_of g.now) n.now) }
    ensures err { OnErr result (text.new ≡ text.old) }
{
    let before = text.len();
    match add_node(text, g, n) {
        Ok(()) => Ok(()),
        Err(failed) => {
            text.truncate(before);
            Err(failed)
        }
    }
}

/// Adds the name of one reference alone, as `visit#1:r1` or `visit#1:p2`. An error changes nothing.
pub fn push_lone_ref(text: &mut Text, g: &Grammar, r: &Ref) -> Result<(), AllocError>
    ensures ok { OnOk result (text.new ≡ text.old ++ ref_text (words_of g.now) r.now) }
    ensures err { OnErr result (text.new ≡ text.old) }
{
    let before = text.len();
    match add_lone_ref(text, g, r) {
        Ok(()) => Ok(()),
        Err(failed) => {
            text.truncate(before);
            Err(failed)
        }
    }
}

/// Adds the name of a reference, as `visit#1:r1` or `visit#1:p2`. An error changes nothing.
pub fn push_ref(text: &mut Text, names: &mut NameWriter<'_>, r: &Ref) -> Result<(), AllocError>
    ensures ok { OnOk result (text.new ≡ text.old ++ ref_text (words_of names.old.grammar.now) r.now) }
    ensures err { OnErr result (text.new ≡ text.old) }
    ensures grammar { names.new.grammar.now ≡ names.old.grammar.now }
{
    let before = text.len();
    match add_ref(text, names, r) {
        Ok(()) => Ok(()),
        Err(failed) => {
            text.truncate(before);
            Err(failed)
        }
    }
}

/// Adds references, a comma and a space between them. An error changes nothing.
pub fn push_refs(
    text: &mut Text,
    names: &mut NameWriter<'_>,
    refs: &[Ref],
) -> Result<(), AllocError>
    ensures ok { OnOk result (text.new ≡ text.old ++ listed (map (ref_text (words_of names.old.grammar.now)) refs.now)) }
    ensures err { OnErr result (text.new ≡ text.old) }
    ensures grammar { names.new.grammar.now ≡ names.old.grammar.now }
{
    let before = text.len();
    match add_refs(text, names, refs) {
        Ok(()) => Ok(()),
        Err(failed) => {
            text.truncate(before);
            Err(failed)
        }
    }
}

/// Adds the text of an answer, as `waits visit#1:r1`. An error changes nothing.
pub fn push_answer(
    text: &mut Text,
    names: &mut NameWriter<'_>,
    a: &Answer,
) -> Result<(), AllocError>
    ensures ok { OnOk result (text.new ≡ text.old ++ answer_text (words_of names.old.grammar.now) (answer_of a.now)) }
    ensures err { OnErr result (text.new ≡ text.old) }
    ensures grammar { names.new.grammar.now ≡ names.old.grammar.now }
{
    let before = text.len();
    match add_answer(text, names, a) {
        Ok(()) => Ok(()),
        Err(failed) => {
            text.truncate(before);
            Err(failed)
        }
    }
}

/// Adds the line of an item, without its end, as `item visit#1 admit ready`. An error changes nothing.
pub fn push_item(text: &mut Text, names: &mut NameWriter<'_>, i: &Item) -> Result<(), AllocError>
    ensures ok { OnOk result (text.new ≡ text.old ++ item_text (words_of names.old.grammar.now) (item_of i.now)) }
    ensures err { OnErr result (text.new ≡ text.old) }
    ensures grammar { names.new.grammar.now ≡ names.old.grammar.now }
{
    let before = text.len();
    match add_item(text, names, i) {
        Ok(()) => Ok(()),
        Err(failed) => {
            text.truncate(before);
            Err(failed)
        }
    }
}
