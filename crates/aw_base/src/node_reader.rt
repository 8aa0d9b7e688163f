//! Reading names of nodes one after another: a name is read from where it parts from the last one of its case.
ghost use Rattle.std.specs.Prelude.{◌≡◌, ◌≤◌, ◌<◌, ◌+◌, [], IsTrue, true, is_some, length, take, IfOk, IfSome, OnOk};
ghost use Rattle.aw_term.specs.Rules.{Grammar as Declared, sort_of};
ghost use Rattle.aw_term.specs.Artifacts.{Words};
ghost use Rattle.aw_grammar.specs.GrammarOf.{grammar_of, words_of};
ghost use Rattle.aw_base.specs.declared.node_reader.Front.{Front as FrontOf};
ghost use Rattle.aw_base.specs.NodeNames.{node_read};
ghost use Rattle.aw_base.specs.NodeReading.{Reads};
ghost use Rattle.aw_base.specs.ReadFronts.{IsNamed, IsReadOver, IsReadBy, StandsAt, HasReadAll, HasRead, IsReaderOf, GoesOn, MayStandAtLast, WithinCommon};

use crate::common::{common_length, part_end};
use crate::name_writer::is_same_step;
use crate::names::sort_of_step;
use crate::read_node::{NameFault, named_step, parse_node, start_named};
use aw_grammar::Grammar;
use aw_name::{Node, Step, Trail, copy_node};
use aw_spelling::node_start;
use std::alloc::{AllocError, Global};

/// How many bytes of a name name a node on the way to its own, and that node's sort.
#[derive(Clone, Copy, Debug)]
struct Front {
    end: usize,
    sort: u16,
}

/// The name that was read last, with its fronts in order: of its start, and then of each step.
#[derive(Debug, Drop)]
struct ReadName {
    text: Vec<u8>,
    start: u16,
    case: u64,
    steps: Vec<Step>,
    fronts: Vec<Front>,
    /// The node that was given last, whose steps are shared where it is named again.
    given: Node,
}

/// Whether a front lies in the bytes that two names have in common, and is a front of this one too.
fn is_common(front: &Front, common: usize, text: &[u8]) -> bool
    ensures { result ≡ true → front.now.end ≤ common }
{
    if front.end > common {
        return false;
    }
    match text.get(front.end) {
        Some(byte) => *byte == b'/',
        None => true,
    }
}

/// How many of the fronts two names have in common that begin with so many bytes.
fn common_fronts(fronts: &[Front], common: usize, text: &[u8]) -> usize
    ensures within { result ≤ length fronts.now }
    ensures last { WithinCommon fronts.now common result }
{
    let mut kept = fronts.len();
    while kept > 0 {
        if is_common(&fronts[kept - 1], common, text) {
            return kept;
        }
        kept -= 1;
    }
    0
}

/// The step behind a front, where a slash stands there and the step fits, and the front of it.
fn step_behind(g: &Grammar, text: &[u8], last: Front) -> Option<(Step, Front)>
    requires { last.end < length text.now }
    ensures { IfSome result (λ x. GoesOn (words_of g.now) (grammar_of g.now) text.now last x.0 x.1) }
{
    if text[last.end] != b'/' {
        return None;
    }
    let from = last.end + 1;
    let end = part_end(text, from);
    let part = named_step(g, &text[from..end])?;
    match part.more {
        Some(_) => None,
        None => {
            let sort = sort_of_step(g, last.sort, &part.step)?;
            Some((part.step, Front { end, sort }))
        }
    }
}

/// The start sort and the case of a name that has no step.
fn start_alone(g: &Grammar, part: &[u8]) -> Option<(u16, u64)>
    ensures { IfSome result (λ x. IsNamed (words_of g.now) (grammar_of g.now) part.now x.0 x.1 [] x.0) }
{
    let name = node_start(part)?;
    match name.steps {
        Some(_) => None,
        None => {
            let sort = start_named(g, name.start)?;
            Some((sort, name.case))
        }
    }
}

/// Whether two trails have the same steps. The last ones are looked at first: names that follow one another mostly differ there.
fn are_same_steps(a: &[Step], b: &[Step]) -> bool
    ensures { IsTrue result → a.now ≡ b.now }
{
    if a.len() != b.len() {
        return false;
    }
    let mut at = a.len();
    while at > 0 {
        at -= 1;
        if !is_same_step(&a[at], &b[at]) {
            return false;
        }
    }
    true
}

impl ReadName {
    /// Nothing is read yet. It takes no memory.
    fn new(alloc: Global) -> ReadName
        ensures { (w : Words) (g : Declared) → IsReadOver w g result }
    {
        ReadName {
            text: Vec::new(alloc),
            start: 0,
            case: 0,
            steps: Vec::new(alloc),
            fronts: Vec::new(alloc),
            given: Node {
                start: 0,
                case: 0,
                steps: Trail::new(alloc),
            },
        }
    }

    /// Takes this text in place of the last one, of which it has so many bytes in common, and keeps so many fronts.
    fn turn_to(&mut self, text: &[u8], common: usize, kept: usize) -> Result<(), AllocError>
        requires few { kept ≤ length self.old.fronts.items }
        requires last { WithinCommon self.old.fronts.items common kept }
        requires within { common ≤ length text.now }
        requires same { take common self.old.text.items ≡ take common text.now }
        ensures read { (w : Words) (g : Declared) → IsReadOver w g self.old → IsReadOver w g self.new }
        ensures stands { (w : Words) (g : Declared) → IsReadOver w g self.old → OnOk result (MayStandAtLast w g self.new) }
        ensures text { OnOk result (self.new.text.items ≡ text.now) }
    {
        self.fronts.truncate(kept);
        self.steps.truncate(kept.saturating_sub(1));
        self.text.truncate(common);
        self.text.extend_from_slice(&text[common..])?;
        Ok(())
    }

    /// Reads the start of the text; nothing where it is no start of a declared start sort.
    fn begin(&mut self, g: &Grammar) -> Result<Option<Front>, AllocError>
        ensures read { IsReadBy g.now self.new }
        ensures stands { IfOk result (λ o. IfSome o (StandsAt (words_of g.now) (grammar_of g.now) self.new)) }
        ensures same { self.new.text ≡ self.old.text }
    {
        self.fronts.clear();
        self.steps.clear();
        let end = part_end(&self.text, 0);
        let Some((sort, case)) = start_alone(g, &self.text[..end]) else {
            return Ok(None);
        };
        self.start = sort;
        self.case = case;
        let front = Front { end, sort };
        self.fronts.push(front)?;
        Ok(Some(front))
    }

    /// Adds a step and its front.
    fn add(&mut self, step: Step, front: Front) -> Result<(), AllocError>
        requires { length self.old.steps.items < 250 }
        ensures read { (w : Words) (g : Declared) (last : FrontOf) → IsReadOver w g self.old → StandsAt w g self.old last → GoesOn w g self.old.text.items last step front → IsReadOver w g self.new }
        ensures stands { (w : Words) (g : Declared) (last : FrontOf) → IsReadOver w g self.old → StandsAt w g self.old last → GoesOn w g self.old.text.items last step front → OnOk result (StandsAt w g self.new front) }
        ensures same { self.new.text ≡ self.old.text }
    {
        self.steps.push(step)?;
        self.fronts.push(front)?;
        Ok(())
    }

    /// Reads the next step; nothing where none fits there.
    fn read_step(&mut self, g: &Grammar, last: Front) -> Result<Option<Front>, AllocError>
        requires read { IsReadBy g.now self.old }
        requires stands { StandsAt (words_of g.now) (grammar_of g.now) self.old last }
        requires more { last.end < length self.old.text.items }
        ensures read { IsReadBy g.now self.new }
        ensures stands { IfOk result (λ o. IfSome o (StandsAt (words_of g.now) (grammar_of g.now) self.new)) }
        ensures nearer { IfOk result (λ o. IfSome o (λ f. last.end < f.end)) }
        ensures same { self.new.text ≡ self.old.text }
    {
        if self.steps.len() >= Trail::MOST {
            return Ok(None);
        }
        match step_behind(g, &self.text, last) {
            Some((step, front)) => {
                self.add(step, front)?;
                Ok(Some(front))
            }
            None => Ok(None),
        }
    }

    /// The last front that is kept, or that of the start, which is then read; nothing where it is no start of a declared start sort.
    fn stand(&mut self, g: &Grammar) -> Result<Option<Front>, AllocError>
        requires read { IsReadBy g.now self.old }
        requires last { MayStandAtLast (words_of g.now) (grammar_of g.now) self.old }
        ensures read { IsReadBy g.now self.new }
        ensures stands { IfOk result (λ o. IfSome o (StandsAt (words_of g.now) (grammar_of g.now) self.new)) }
        ensures same { self.new.text ≡ self.old.text }
    {
        match self.fronts.last() {
            Some(front) => Ok(Some(*front)),
            None => self.begin(g),
        }
    }

    /// Reads all steps behind this front, which is the last one; whether all of them fit.
    fn read_steps(&mut self, g: &Grammar, last: Front) -> Result<bool, AllocError>
        requires read { IsReadBy g.now self.old }
        requires stands { StandsAt (words_of g.now) (grammar_of g.now) self.old last }
        ensures read { IsReadBy g.now self.new }
        ensures whole { IfOk result (λ b. b ≡ true → HasReadAll (words_of g.now) (grammar_of g.now) self.new) }
        ensures same { self.new.text ≡ self.old.text }
    {
        let mut last = last;
        while last.end < self.text.len() {
            match self.read_step(g, last)? {
                Some(front) => last = front,
                None => return Ok(false),
            }
        }
        Ok(true)
    }

    /// Reads the text from where it parts from the last one; whether it names a node.
    fn follow(&mut self, g: &Grammar, text: &[u8]) -> Result<bool, AllocError>
        requires { IsReadBy g.now self.old }
        ensures read { IsReadBy g.now self.new }
        ensures whole { IfOk result (λ b. b ≡ true → (self.new.text.items ≡ text.now) × HasReadAll (words_of g.now) (grammar_of g.now) self.new) }
    {
        let common = common_length(&self.text, text);
        let kept = common_fronts(&self.fronts, common, text);
        self.turn_to(text, common, kept)?;
        match self.stand(g)? {
            Some(last) => self.read_steps(g, last),
            None => Ok(false),
        }
    }

    /// Whether all steps lead to the node that was given last.
    fn is_given(&self) -> bool
        ensures { IsTrue result → self.now.given ≡ record { start = self.now.start; case = self.now.case; steps = self.now.steps.items } }
    {
        self.given.start == self.start
            && self.given.case == self.case
            && are_same_steps(self.given.steps.as_slice(), &self.steps)
    }

    /// The node to which all steps lead, in memory of its own.
    fn made(&self) -> Result<Node, AllocError>
        requires { length self.now.steps.items ≤ 250 }
        ensures { IfOk result (λ n. n ≡ record { start = self.now.start; case = self.now.case; steps = self.now.steps.items }) }
    {
        let mut steps = Vec::with_capacity(*self.steps.allocator(), self.steps.len())?;
        steps.extend_from_slice(&self.steps)?;
        Ok(Node {
            start: self.start,
            case: self.case,
            steps: Trail::from_vec(steps)?,
        })
    }

    /// The node to which all steps lead. Where it was given last, it shares its memory.
    fn node(&mut self) -> Result<Node, AllocError>
        requires { length self.old.steps.items ≤ 250 }
        ensures value { IfOk result (λ n. n ≡ record { start = self.old.start; case = self.old.case; steps = self.old.steps.items }) }
        ensures kept { (w : Words) (g : Declared) → IsReadOver w g self.old → IsReadOver w g self.new }
    {
        if !self.is_given() {
            self.given = self.made()?;
        }
        copy_node(&self.given)
    }

    /// The node that a text names, which is then valid. The text is kept, and the next one is read from where it parts from it.
    fn read(&mut self, g: &Grammar, text: &[u8]) -> Result<Node, NameFault>
        requires { IsReadBy g.now self.old }
        ensures kept { IsReadBy g.now self.new }
        ensures valid { IfOk result (λ n. is_some (sort_of (grammar_of g.now) n) ≡ true) }
        ensures read { Reads (node_read (words_of g.now) (grammar_of g.now) text.now) result }
    {
        if self.follow(g, text)? {
            Ok(self.node()?)
        } else {
            parse_node(*self.text.allocator(), g, text)
        }
    }
}

/// Of how many cases names are kept.
const PLACES: usize = 128;

/// The place where the last name is kept whose case ends in the same digits, as the bytes behind the mark `#` up to the first slash
/// tell them. A text that names no node has a place too.
fn place_of(text: &[u8]) -> usize
    ensures { result < 128 }
{
    let mut case: u8 = 0;
    for byte in text {
        match *byte {
            b'/' => break,
            b'#' => case = 0,
            digit => case = case.wrapping_mul(10).wrapping_add(digit.wrapping_sub(b'0')),
        }
    }
    usize::from(case) % PLACES
}

/// Reads names of nodes, and keeps the last one, for each of a number of cases.
#[derive(Debug, Drop)]
pub struct NodeReader {
    alloc: Global,
    /// The last names, each at the place that its case tells.
    names: Vec<ReadName>,
}

impl NodeReader {
    /// Nothing is read yet. It takes no memory.
    pub fn new(alloc: Global) -> NodeReader
        ensures { (w : Words) (g : Declared) → HasRead w g result }
    {
        NodeReader {
            alloc,
            names: Vec::new(alloc),
        }
    }

    /// Whether a name can be kept at this place: those up to it are made, as long as there is memory.
    fn has_place(&mut self, place: usize) -> bool
        ensures kept { (w : Words) (g : Declared) → HasRead w g self.old → HasRead w g self.new }
        ensures within { IsTrue result → place < length self.new.names.items }
    {
        while self.names.len() <= place {
            if self.names.push(ReadName::new(self.alloc)).is_err() {
                return false;
            }
        }
        true
    }

    /// The node that a text names, which is then valid. The text is kept, and the next one of its case is read from where it parts
    /// from it. Where there is no memory to keep names of one more case, the text is read from its start, and not kept.
    pub fn read(&mut self, g: &Grammar, text: &[u8]) -> Result<Node, NameFault>
        requires { IsReaderOf g.now self.old }
        ensures kept { IsReaderOf g.now self.new }
        ensures valid { IfOk result (λ n. is_some (sort_of (grammar_of g.now) n) ≡ true) }
        ensures read { Reads (node_read (words_of g.now) (grammar_of g.now) text.now) result }
    {
        let place = place_of(text);
        if self.has_place(place) {
            self.names[place].read(g, text)
        } else {
            parse_node(self.alloc, g, text)
        }
    }
}
