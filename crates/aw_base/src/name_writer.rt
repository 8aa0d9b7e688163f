//! Names of nodes that are written one after another, each from the step at which it parts from the last one of its case.
ghost use Rattle.std.specs.Prelude.{◌≡◌, ℕ, ◌≤◌, ◌<◌, ◌+◌, ◌++◌, [], IfOk, IsTrue, OnOk, OnErr, length, take};
ghost use Rattle.aw_term.specs.Artifacts.{Words, node_text};
ghost use Rattle.aw_grammar.specs.GrammarOf.{words_of};
ghost use Rattle.aw_base.specs.NameFronts.{front, AreFronts};
ghost use Rattle.std.specs.Io.{StartsWith};
ghost use Rattle.aw_base.specs.WrittenNames.{IsWritten, AreWritten, IsItemFront, item_front};

use crate::texts::{add_step, sort_name};
use aw_grammar::Grammar;
use aw_list::Text;
use aw_name::{Node, Step, Trail, copy_node, is_same_node};
use aw_spelling::push_number;
use std::alloc::{AllocError, Global};

/// The name that was written last, with the places where the names of the nodes above it end, from that of the start node on. Where
/// there are no places, nothing is known.
#[derive(Debug, Drop)]
struct Written {
    node: Node,
    text: Text,
    ends: Vec<usize>,
}

/// Whether two steps are one.
pub(crate) fn is_same_step(a: &Step, b: &Step) -> bool
    ensures { IsTrue result → a.now ≡ b.now }
{
    a == b
}

/// How many steps two trails have in common at their front.
fn common_steps(a: &[Step], b: &[Step]) -> usize
    ensures same { take result a.now ≡ take result b.now }
    ensures short { result ≤ length a.now }
    ensures within { result ≤ length b.now }
{
    let most = a.len().min(b.len());
    for i in 0..most {
        if !is_same_step(&a[i], &b[i]) {
            return i;
        }
    }
    most
}

/// How many fronts of a node's name are known, from that of its start node on.
fn count_known(written: &Written, n: &Node) -> usize
    ensures within { result ≤ length written.now.ends.items }
    ensures few { result ≤ length n.now.steps + 1 }
    ensures same { (j : ℕ) → j < result → front j written.now.node ≡ front j n.now }
{
    if written.node.start != n.start || written.node.case != n.case {
        return 0;
    }
    let common = common_steps(written.node.steps.as_slice(), n.steps.as_slice());
    written.ends.len().min(common + 1)
}

/// Lets all fronts go but those with at most so many steps. The node stays.
fn cut(written: &mut Written, g: &Grammar, at: usize)
    requires sound { AreFronts (words_of g.now) written.old.node written.old.text written.old.ends.items }
    requires within { at < length written.old.ends.items }
    ensures sound { AreFronts (words_of g.now) written.new.node written.new.text written.new.ends.items }
    ensures count { length written.new.ends.items ≡ at + 1 }
    ensures node { written.new.node ≡ written.old.node }
{
    let end = written.ends[at];
    written.text.truncate(end);
    written.ends.truncate(at + 1);
}

/// Writes the name of the start node alone. The node stays.
fn begin(written: &mut Written, g: &Grammar) -> Result<(), AllocError>
    ensures sound { OnOk result (AreFronts (words_of g.now) written.new.node written.new.text written.new.ends.items) }
    ensures count { OnOk result (length written.new.ends.items ≡ 1) }
    ensures node { written.new.node ≡ written.old.node }
{
    written.ends.clear();
    written.text.truncate(0);
    written.text.push_bytes(sort_name(g, written.node.start))?;
    written.text.push(b'#')?;
    push_number(&mut written.text, written.node.case)?;
    written.ends.push(written.text.len())?;
    Ok(())
}

/// Writes one more step of the node.
fn write_step(written: &mut Written, g: &Grammar, at: usize) -> Result<(), AllocError>
    requires sound { AreFronts (words_of g.now) written.old.node written.old.text written.old.ends.items }
    requires next { length written.old.ends.items ≡ at + 1 }
    requires within { at < length written.old.node.steps }
    ensures sound { OnOk result (AreFronts (words_of g.now) written.new.node written.new.text written.new.ends.items) }
    ensures count { OnOk result (length written.new.ends.items ≡ at + 2) }
    ensures node { written.new.node ≡ written.old.node }
{
    let step = written.node.steps.as_slice()[at];
    add_step(&mut written.text, g, &step)?;
    written.ends.push(written.text.len())?;
    Ok(())
}

/// Writes the steps of the node from a place on.
fn write_steps(written: &mut Written, g: &Grammar, from: usize) -> Result<(), AllocError>
    requires sound { AreFronts (words_of g.now) written.old.node written.old.text written.old.ends.items }
    requires next { length written.old.ends.items ≡ from + 1 }
    requires within { from ≤ length written.old.node.steps }
    ensures sound { OnOk result (AreFronts (words_of g.now) written.new.node written.new.text written.new.ends.items) }
    ensures count { OnOk result (length written.new.ends.items ≡ length written.new.node.steps + 1) }
    ensures node { written.new.node ≡ written.old.node }
{
    for at in from..written.node.steps.len() {
        write_step(written, g, at)?;
    }
    Ok(())
}

/// Writes the name of a node of which so many fronts are known.
fn write_name(written: &mut Written, g: &Grammar, n: &Node, known: usize) -> Result<(), AllocError>
    requires sound { AreFronts (words_of g.now) written.old.node written.old.text written.old.ends.items }
    requires within { known ≤ length written.old.ends.items }
    requires few { known ≤ length n.now.steps + 1 }
    requires same { (j : ℕ) → j < known → front j written.old.node ≡ front j n.now }
    ensures sound { OnOk result (AreFronts (words_of g.now) written.new.node written.new.text written.new.ends.items) }
    ensures count { OnOk result (length written.new.ends.items ≡ length n.now.steps + 1) }
    ensures node { OnOk result (written.new.node ≡ n.now) }
{
    if known == 0 {
        written.node = copy_node(n)?;
        begin(written, g)?;
        return write_steps(written, g, 0);
    }
    cut(written, g, known - 1);
    written.node = copy_node(n)?;
    write_steps(written, g, known - 1)
}

/// Writes the name of a node of which so many fronts are known. After an error nothing is known.
fn learn(written: &mut Written, g: &Grammar, n: &Node, known: usize) -> Result<(), AllocError>
    requires sound { AreFronts (words_of g.now) written.old.node written.old.text written.old.ends.items }
    requires within { known ≤ length written.old.ends.items }
    requires few { known ≤ length n.now.steps + 1 }
    requires same { (j : ℕ) → j < known → front j written.old.node ≡ front j n.now }
    ensures sound { AreFronts (words_of g.now) written.new.node written.new.text written.new.ends.items }
    ensures count { OnOk result (length written.new.ends.items ≡ length n.now.steps + 1) }
    ensures node { OnOk result (written.new.node ≡ n.now) }
{
    match write_name(written, g, n, known) {
        Ok(()) => Ok(()),
        Err(failed) => {
            written.ends.clear();
            Err(failed)
        }
    }
}

/// Sees to it that the name of a node is known.
fn know(written: &mut Written, g: &Grammar, n: &Node) -> Result<(), AllocError>
    requires sound { AreFronts (words_of g.now) written.old.node written.old.text written.old.ends.items }
    ensures sound { AreFronts (words_of g.now) written.new.node written.new.text written.new.ends.items }
    ensures within { OnOk result (length n.now.steps < length written.new.ends.items) }
    ensures known { OnOk result (front (length n.now.steps) written.new.node ≡ n.now) }
{
    let known = count_known(written, n);
    if known > n.steps.len() {
        return Ok(());
    }
    learn(written, g, n, known)
}

/// Sees to it that the name of a node stands in the text that is known, and tells where it ends.
fn find_end(written: &mut Written, g: &Grammar, n: &Node) -> Result<usize, AllocError>
    requires sound { AreFronts (words_of g.now) written.old.node written.old.text written.old.ends.items }
    ensures sound { AreFronts (words_of g.now) written.new.node written.new.text written.new.ends.items }
    ensures within { IfOk result (λ end. end ≤ length written.new.text) }
    ensures text { IfOk result (λ end. take end written.new.text ≡ node_text (words_of g.now) n.now) }
{
    know(written, g, n)?;
    Ok(written.ends[n.steps.len()])
}

/// Adds the name of a node to a text, by what is known. An error changes nothing in the text.
fn push_known(
    written: &mut Written,
    g: &Grammar,
    text: &mut Text,
    n: &Node,
) -> Result<(), AllocError>
    requires { IsWritten (words_of g.now) written.old }
    ensures sound { IsWritten (words_of g.now) written.new }
    ensures ok { OnOk result (text.new ≡ text.old ++ node_text (words_of g.now) n.now) }
    ensures err { OnErr result (text.new ≡ text.old) }
{
    let end = find_end(written, g, n)?;
    text.push_bytes(&written.text.as_slice()[..end])
}

/// Of how many cases names are kept beside those of the first case.
const PLACES: u64 = 128;

/// Nothing is known. It takes no memory.
fn nothing_written(alloc: Global) -> Written
    ensures { (w : Words) → IsWritten w result }
{
    Written {
        node: Node {
            start: 0,
            case: 0,
            steps: Trail::new(alloc),
        },
        text: Text::new(alloc),
        ends: Vec::new(alloc),
    }
}

/// Whether a name can be kept at this place: those up to it are made, as long as there is memory.
fn has_place(others: &mut Vec<Written>, g: &Grammar, place: usize) -> bool
    requires { AreWritten (words_of g.now) others.old.items }
    ensures sound { AreWritten (words_of g.now) others.new.items }
    ensures within { IsTrue result → place < length others.new.items }
{
    let alloc = *others.allocator();
    while others.len() <= place {
        if others.push(nothing_written(alloc)).is_err() {
            return false;
        }
    }
    true
}

/// What stands before the rule in the line of an item at this node, as `item visit#1/admit.1 `, where it is known.
#[derive(Debug, Drop)]
struct ItemFront {
    node: Node,
    text: Text,
    is_known: bool,
}

/// Nothing is known. It takes no memory.
fn no_front(alloc: Global) -> ItemFront
    ensures { (w : Words) → IsItemFront w result }
{
    ItemFront {
        node: Node {
            start: 0,
            case: 0,
            steps: Trail::new(alloc),
        },
        text: Text::new(alloc),
        is_known: false,
    }
}

/// Takes notice that this front was written for a node. It is kept when the one before was of the same node, as then more such lines
/// mostly follow. Where there is no memory for it, it is not kept.
fn note_front(item: &mut ItemFront, g: &Grammar, n: &Node, front: &[u8])
    requires { front.now ≡ item_front (words_of g.now) n.now }
    ensures { IsItemFront (words_of g.now) item.new }
{
    if is_same_node(&item.node, n) {
        item.text.truncate(0);
        item.is_known = item.text.push_bytes(front).is_ok();
        return;
    }
    item.is_known = false;
    if let Ok(node) = copy_node(n) {
        item.node = node;
    }
}

/// Writes names of nodes. What it wrote last is kept, for each of a number of cases: the names of one line, and of lines that follow
/// one another, mostly begin alike where they are of one case, and what they have in common is copied.
#[derive(Debug, Drop)]
pub struct NameWriter<'g> {
    grammar: &'g Grammar,
    /// The last name of the case that was named first.
    first: Written,
    /// The last names of other cases, each at the place that its number tells.
    others: Vec<Written>,
    /// What the line of an item began with that was written last.
    item: ItemFront,
    ghost first_sound: { IsWritten (words_of grammar.now) first },
    ghost others_sound: { AreWritten (words_of grammar.now) others.items },
    ghost item_sound: { IsItemFront (words_of grammar.now) item },
}

impl<'g> NameWriter<'g> {
    /// Nothing was written yet. It takes no memory.
    pub fn new(alloc: Global, grammar: &'g Grammar) -> NameWriter<'g>
        ensures { result.grammar.now ≡ grammar.now }
    {
        NameWriter {
            grammar,
            first: nothing_written(alloc),
            others: Vec::new(alloc),
            item: no_front(alloc),
        }
    }

    /// The grammar whose names it writes.
    pub fn grammar(&self) -> &'g Grammar
        ensures { result.now ≡ self.now.grammar.now }
    {
        self.grammar
    }

    /// Adds the name of a node, as `visit#1/admit.1`. An error changes nothing in the text. Where there is no memory to keep names of
    /// one more case, the name is written in place of the last one of the first case.
    pub fn push_node(&mut self, text: &mut Text, n: &Node) -> Result<(), AllocError>
        ensures ok { OnOk result (text.new ≡ text.old ++ node_text (words_of self.old.grammar.now) n.now) }
        ensures err { OnErr result (text.new ≡ text.old) }
        ensures grammar { self.new.grammar.now ≡ self.old.grammar.now }
    {
        if self.first.ends.is_empty() || self.first.node.case == n.case {
            return push_known(&mut self.first, self.grammar, text, n);
        }
        let place = (n.case % PLACES) as usize;
        if has_place(&mut self.others, self.grammar, place) {
            return push_known(&mut self.others[place], self.grammar, text, n);
        }
        push_known(&mut self.first, self.grammar, text, n)
    }

    fn add_item_front(&mut self, text: &mut Text, n: &Node) -> Result<(), AllocError>
        ensures ok { OnOk result (text.new ≡ text.old ++ item_front (words_of self.old.grammar.now) n.now) }
        ensures err { OnErr result (StartsWith text.new text.old) }
        ensures grammar { self.new.grammar.now ≡ self.old.grammar.now }
    {
        text.push_bytes(b"item ")?;
        self.push_node(text, n)?;
        text.push(b' ')
    }

    /// Adds what stands before the rule in the line of an item at a node, as `item visit#1/admit.1 `. An error may leave a part of it.
    pub(crate) fn push_item_front(&mut self, text: &mut Text, n: &Node) -> Result<(), AllocError>
        ensures ok { OnOk result (text.new ≡ text.old ++ item_front (words_of self.old.grammar.now) n.now) }
        ensures err { OnErr result (StartsWith text.new text.old) }
        ensures grammar { self.new.grammar.now ≡ self.old.grammar.now }
    {
        if self.item.is_known && is_same_node(&self.item.node, n) {
            return text.push_bytes(self.item.text.as_slice());
        }
        let before = text.len();
        self.add_item_front(text, n)?;
        note_front(&mut self.item, self.grammar, n, &text.as_slice()[before..]);
        Ok(())
    }
}
