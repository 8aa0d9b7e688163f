//! The items of a worklist, and how a rule stands that is asked for, from what is kept.
ghost use Rattle.std.specs.Prelude.{◌≡◌, ◌++◌, List, true, IfOk, OnOk, length, map as list_map};
ghost use Rattle.aw_term.specs.Names.{Ref as RefName};
ghost use Rattle.aw_term.specs.Rules.{Grammar as PlainGrammar};
ghost use Rattle.aw_choice.specs.ChoiceView.{item_of, refusal_of};
ghost use Rattle.aw_node_list.specs.Row.{Row};
ghost use Rattle.aw_node_list.specs.declared.held.Held.{Held as HeldValue};
ghost use Rattle.aw_node_list.specs.HeldView.{held_of, state_of};
ghost use Rattle.aw_store.specs.Equations.{Map};
ghost use Rattle.aw_store.specs.NamedRefs.{AreNamed};
ghost use Rattle.aw_law_sites.specs.Worklists.{open_items};
ghost use Rattle.aw_standing.specs.Records.{AreLive, has_live};
ghost use Rattle.aw_standing.specs.Items.{said_refusal, kept_item, SayOf, StandsAt};
ghost use Rattle.aw_standing.specs.KeptStates.{AreLiveAt, IsKept, IsNumbered};

use crate::kept::Kept;
use crate::record::{Mark, Stands, rule_place};
use aw_base::{Item, Standing};
use aw_name::{Node, copy_node};
use aw_store::{Facts, ref_at};
use std::alloc::AllocError;

/// How a rule stands, by copies of the references of its slots.
fn standing<F: Facts>(facts: &F, stands: &Stands) -> Result<Standing, AllocError>
    requires { has_live (length (F.names facts.now)) stands.now ≡ true }
    ensures { IfOk result (λ s. refusal_of s ≡ said_refusal (F.names facts.now) stands.now) }
{
    match stands {
        Stands::Ready => Ok(Standing::Ready),
        Stands::Waits(slot) => Ok(Standing::Waits(ref_at(facts, *slot)?)),
        Stands::Differs(place) => Ok(Standing::Differs(*place)),
        Stands::Circle(slot) => Ok(Standing::Circle(ref_at(facts, *slot)?)),
        Stands::TooDeep => Ok(Standing::TooDeep),
    }
}

/// The item of a mark at this node.
fn item<F: Facts>(facts: &F, node: &Node, mark: &Mark) -> Result<Item, AllocError>
    requires { has_live (length (F.names facts.now)) mark.now.stands ≡ true }
    ensures { IfOk result (λ i. item_of i ≡ kept_item (F.names facts.now) node.now mark.now) }
{
    Ok(Item {
        node: copy_node(node)?,
        rule: mark.rule,
        state: standing(facts, &mark.stands)?,
    })
}

/// How the rule with this number stands by the mark of it. Where there is none, nothing refuses it.
fn standing_in<F: Facts>(facts: &F, marks: &[Mark], number: u16) -> Result<Standing, AllocError>
    requires { AreLive (F.names facts.now) marks.now }
    ensures { IfOk result (λ s. SayOf (F.names facts.now) marks.now number s) }
{
    match rule_place(marks, number) {
        Some(at) => standing(facts, &marks[at].stands),
        None => Ok(Standing::Ready),
    }
}

/// Adds an item for each mark.
fn push_marks<F: Facts>(
    items: &mut Vec<Item>,
    facts: &F,
    node: &Node,
    marks: &[Mark],
) -> Result<(), AllocError>
    requires { AreLive (F.names facts.now) marks.now }
    ensures { OnOk result (list_map item_of items.new.items ≡ list_map item_of items.old.items ++ list_map (kept_item (F.names facts.now) node.now) marks.now) }
{
    for mark in marks {
        items.push(item(facts, node, mark)?)?;
    }
    Ok(())
}

impl Kept {
    /// The slots of the references that the node with this number inherits, in their order.
    pub fn slots(&self, number: u32) -> &[usize]
        ensures { (g : PlainGrammar) (row : Row) (h : HeldValue) (k : Map) (names : List RefName) → IsNumbered row number h → IsKept g row k names self.now →
            AreNamed names result.now h.inherited }
    {
        match self.records.get(number as usize) {
            Some(record) => record.slots.as_slice(),
            None => &[],
        }
    }

    /// How a rule stands at the node with this number, where that is open and of the rule's sort. Nothing is tested. Want of
    /// memory is the only error.
    pub fn standing<F: Facts>(
        &self,
        number: u32,
        rule: u16,
        facts: &F,
    ) -> Result<Standing, AllocError>
        requires { AreLiveAt (F.names facts.now) number self.now }
        ensures { IfOk result (λ s. (g : PlainGrammar) (row : Row) (h : HeldValue) → IsNumbered row number h →
            IsKept g row (F.map facts.now) (F.names facts.now) self.now → StandsAt g (F.map facts.now) h rule s) }
    {
        match self.records.get(number as usize) {
            Some(record) => standing_in(facts, record.marks.as_slice(), rule),
            None => Ok(Standing::Ready),
        }
    }

    /// Adds the items of the node with this number: one for each rule of its sort where the node is open. Nothing is tested. Want
    /// of memory is the only error.
    pub fn push_items<F: Facts>(
        &self,
        number: u32,
        node: &Node,
        facts: &F,
        items: &mut Vec<Item>,
    ) -> Result<(), AllocError>
        requires { AreLiveAt (F.names facts.now) number self.now }
        ensures { OnOk result ((g : PlainGrammar) (row : Row) (h : HeldValue) → IsNumbered row number h → h.node ≡ node.now →
            IsKept g row (F.map facts.now) (F.names facts.now) self.now →
            list_map item_of items.new.items ≡ list_map item_of items.old.items ++ open_items g (state_of h.done) (F.map facts.now) (held_of g h)) }
    {
        match self.records.get(number as usize) {
            Some(record) => push_marks(items, facts, node, record.marks.as_slice()),
            None => Ok(()),
        }
    }
}
