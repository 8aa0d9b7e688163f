//! A case: nodes that are held over a store, its lines, and what is told of each.
ghost use Rattle.std.specs.Prelude.{◌<◌, IfSome, length};

use crate::narrow::{are_narrow, is_narrow};
use crate::typed::{read_equation, read_held, read_ref};
use crate::weigh::{Answered, weigh};
use aw_apply::{Made, MadeChild, MadeChildren};
use aw_base::{
    Answer, Choice, Grammar, Grounds, NameWriter, Node, Ref, Trail, push_answer, push_ref,
};
use aw_list::Text;
use aw_name::is_same_node;
use aw_sched::{Event, Events, SchedFault, read_schedule};
use aw_store::{
    Added, Chase, Equation, Equations, Facts, ListFacts, Refs, body_text, chase, copy_equation,
    intern_all, push_body,
};
use aw_term_reader::Unread;
use aw_typed::untyped;
use bstr::ByteSlice;
use std::alloc::{AllocError, Global};

/// A node with its inherited references, and whether a choice was taken on it.
#[derive(Drop)]
struct Held {
    node: Node,
    inherited: Refs,
    developed: bool,
}

/// A store, the nodes that are held over it, and what was told so far.
#[derive(Drop)]
pub struct Case<'g> {
    grammar: &'g Grammar,
    names: NameWriter<'g>,
    facts: ListFacts,
    held: Vec<Held>,
    told: Text,
}

/// The place of a node.
fn place_of(held: &[Held], node: &Node) -> Option<usize>
    ensures { IfSome result (λ at. at < length held.now) }
{
    for at in 0..held.len() {
        if is_same_node(node, &held[at].node) {
            return Some(at);
        }
    }
    None
}

/// How a chase ends, in a word, and at which slot.
fn chased<F: Facts>(f: &F, slot: usize) -> (&'static [u8], usize)
    requires { slot < length (F.names f.now) }
    ensures { result.1 < length (F.names f.now) }
{
    match chase(f, slot) {
        Chase::Found(end) => (b": found ", end),
        Chase::Missing(end) => (b": missing ", end),
        Chase::Circle(start) => (b": circle ", start),
    }
}

/// Adds references, a comma and a space between them, in parentheses.
fn push_refs(told: &mut Text, names: &mut NameWriter<'_>, refs: &[Ref]) -> Result<(), AllocError> {
    let mut mark: &[u8] = b"";
    told.push_bytes(b"(")?;
    for r in refs {
        told.push_bytes(mark)?;
        push_ref(told, names, r)?;
        mark = b", ";
    }
    told.push_bytes(b")")
}

/// Adds what a store answers to an equation.
fn push_added(
    told: &mut Text,
    names: &mut NameWriter<'_>,
    added: &Added,
) -> Result<(), AllocError> {
    match added {
        Added::New => told.push_bytes(b": new\n"),
        Added::Same => told.push_bytes(b": same\n"),
        Added::Conflict { kept, came } => {
            told.push_bytes(b": conflict ")?;
            push_body(told, names, kept)?;
            told.push_bytes(b" against ")?;
            push_body(told, names, came)?;
            told.push_bytes(b"\n")
        }
    }
}

/// The events of a line of a schedule.
fn events_of(alloc: Global, g: &Grammar, line: &[u8]) -> Result<Events, Unread> {
    let typed = untyped(alloc, g)?;
    match read_schedule(alloc, g, &typed, line) {
        Ok(events) => Ok(events),
        Err(SchedFault::NoMemory) => Err(Unread::NoMemory),
        Err(SchedFault::Bad { .. }) => Err(Unread::Form),
    }
}

impl<'g> Case<'g> {
    /// No equations, no nodes, and nothing told.
    pub fn new(alloc: Global, grammar: &'g Grammar) -> Case<'g> {
        Case {
            grammar,
            names: NameWriter::new(alloc, grammar),
            facts: ListFacts::new(alloc),
            held: Vec::new(alloc),
            told: Text::new(alloc),
        }
    }

    /// What was told.
    pub fn told(&self) -> &[u8] {
        self.told.as_slice()
    }

    /// Tells an equation.
    fn push_equation(&mut self, e: &Equation) -> Result<(), AllocError> {
        push_ref(&mut self.told, &mut self.names, &e.left)?;
        self.told.push_bytes(b" = ")?;
        let body = body_text(self.told.allocator(), self.grammar, &e.body)?;
        self.told.push_bytes(body.as_slice())
    }

    /// Adds an equation to the store, and tells what it answers.
    fn add(&mut self, e: &Equation) -> Result<(), AllocError> {
        self.push_equation(e)?;
        if !is_narrow(e) {
            return self.told.push_bytes(b": too wide\n");
        }
        let added = self.facts.add(copy_equation(e)?)?;
        let pushed = push_added(&mut self.told, &mut self.names, &added);
        drop(added);
        pushed
    }

    /// Adds an equation of a taken rule.
    fn add_made(&mut self, e: &Equation) -> Result<(), AllocError> {
        self.told.push_bytes(b"  ")?;
        self.add(e)
    }

    /// Adds the equations of a taken rule, for which memory is taken before.
    fn add_all(&mut self, es: &Equations) -> Result<(), AllocError> {
        if are_narrow(es.as_slice()) {
            self.facts.reserve(es)?;
        }
        for e in es.as_slice() {
            self.add_made(e)?;
        }
        Ok(())
    }

    /// Tells a node with its inherited references, and names these.
    fn push_held(&mut self, node: &Node, inherited: &[Ref]) -> Result<(), AllocError> {
        self.told.push_bytes(b"node ")?;
        self.names.push_node(&mut self.told, node)?;
        self.told.push_bytes(b" ")?;
        push_refs(&mut self.told, &mut self.names, inherited)?;
        self.told.push_bytes(b"\n")?;
        let _slots = intern_all(self.told.allocator(), &mut self.facts, inherited)?;
        Ok(())
    }

    /// Holds a node with its inherited references, and tells them.
    fn hold(&mut self, node: Node, inherited: Refs) -> Result<(), AllocError> {
        self.push_held(&node, inherited.as_slice())?;
        self.held.push(Held {
            node,
            inherited,
            developed: false,
        })?;
        Ok(())
    }

    /// Holds a child of a taken rule.
    fn hold_made(&mut self, child: MadeChild) -> Result<(), AllocError> {
        self.told.push_bytes(b"  ")?;
        self.hold(child.node, child.inherited)
    }

    /// Holds the children of a taken rule.
    fn hold_all(&mut self, children: MadeChildren) -> Result<(), AllocError> {
        for child in children.into_vec() {
            self.hold_made(child)?;
        }
        Ok(())
    }

    /// Takes in what a rule makes of the node at a place, and tells it.
    fn take(&mut self, made: Made) -> Result<(), AllocError> {
        self.told.push_bytes(b"taken\n")?;
        self.add_all(&made.equations)?;
        self.hold_all(made.children)
    }

    /// Takes a start, unless its node is held.
    fn start(&mut self, sort: u16, case: u64) -> Result<(), AllocError> {
        let alloc = self.told.allocator();
        let node = Node {
            start: sort,
            case,
            steps: Trail::new(alloc),
        };
        if place_of(self.held.as_slice(), &node).is_some() {
            return self.refuse(&Answer::Known);
        }
        self.told.push_bytes(b"taken\n  ")?;
        self.hold(node, Refs::new(alloc))
    }

    /// Tells a refusal.
    fn refuse(&mut self, answer: &Answer) -> Result<(), AllocError> {
        push_answer(&mut self.told, &mut self.names, answer)?;
        self.told.push_bytes(b"\n")
    }

    /// Follows what a choice on the node at a place leads to, and tells it.
    fn follow(&mut self, at: usize, answered: Answered) -> Result<(), Unread>
        requires { at < length self.old.held.items }
    {
        match answered {
            Answered::Untested => Err(Unread::Form),
            Answered::Refused(answer) => Ok(self.refuse(&answer)?),
            Answered::Gives(made) => {
                self.held[at].developed = true;
                Ok(self.take(made)?)
            }
        }
    }

    /// Takes a rule on a node, unless it is refused, and tells what it makes.
    fn develop(&mut self, node: &Node, rule: u16, args: &Grounds) -> Result<(), Unread> {
        let Some(at) = place_of(self.held.as_slice(), node) else {
            return Ok(self.refuse(&Answer::NotHere)?);
        };
        let held = &self.held[at];
        if held.developed {
            return Ok(self.refuse(&Answer::Developed)?);
        }
        let alloc = self.told.allocator();
        let answered = weigh(
            &self.facts,
            alloc,
            self.grammar,
            node,
            &held.inherited,
            rule,
            args,
        )?;
        self.follow(at, answered)
    }

    /// Answers a choice.
    fn choose(&mut self, choice: &Choice) -> Result<(), Unread> {
        match choice {
            Choice::Start { sort, case } => Ok(self.start(*sort, *case)?),
            Choice::Develop { node, rule, args } => self.develop(node, *rule, args),
        }
    }

    /// Tells a line of a schedule, and answers its choice, where the one event is one.
    fn push_events(&mut self, line: &[u8], events: &[Event]) -> Result<(), Unread> {
        let [Event::Choose(choice)] = events else {
            return Err(Unread::Form);
        };
        self.told.push_bytes(line)?;
        self.told.push_bytes(b": ")?;
        self.choose(choice.get())
    }

    /// Tells a line of a schedule, and answers its choice.
    fn push_choice(&mut self, line: &[u8]) -> Result<(), Unread> {
        let events = events_of(self.told.allocator(), self.grammar, line)?;
        self.push_events(line, events.as_slice())
    }

    /// Tells where a chase ends.
    fn push_chase(&mut self, r: &Ref) -> Result<(), AllocError> {
        let slot = self.facts.intern(r)?;
        self.told.push_bytes(b"chase ")?;
        push_ref(&mut self.told, &mut self.names, r)?;
        let (word, end) = chased(&self.facts, slot);
        self.told.push_bytes(word)?;
        push_ref(&mut self.told, &mut self.names, self.facts.name(end))?;
        self.told.push_bytes(b"\n")
    }

    /// Adds an equation that was read.
    fn add_read(&mut self, e: &Equation) -> Result<(), AllocError> {
        self.told.push_bytes(b"equation ")?;
        self.add(e)
    }

    /// Adds the equation that stands behind the word.
    fn answer_equation(&mut self, text: &[u8]) -> Result<(), Unread> {
        let e = read_equation(self.told.allocator(), self.grammar, text)?;
        let added = self.add_read(&e);
        drop(e);
        Ok(added?)
    }

    /// Holds the node that stands behind the word.
    fn answer_node(&mut self, text: &[u8]) -> Result<(), Unread> {
        let (node, inherited) = read_held(self.told.allocator(), self.grammar, text)?;
        Ok(self.hold(node, inherited)?)
    }

    /// Chases from the reference that stands behind the word.
    fn answer_chase(&mut self, text: &[u8]) -> Result<(), Unread> {
        let r = read_ref(self.told.allocator(), self.grammar, text)?;
        Ok(self.push_chase(&r)?)
    }

    /// Answers a line.
    fn answer(&mut self, line: &[u8]) -> Result<(), Unread> {
        let Some((verb, rest)) = line.split_once_str(b" ") else {
            return Err(Unread::Form);
        };
        match verb {
            b"equation" => self.answer_equation(rest),
            b"node" => self.answer_node(rest),
            b"chase" => self.answer_chase(rest),
            _ => self.push_choice(line),
        }
    }

    /// Answers a line, or tells that it is not read.
    pub fn push_line(&mut self, line: &[u8]) -> Result<(), AllocError> {
        match self.answer(line) {
            Ok(()) => Ok(()),
            Err(Unread::NoMemory) => Err(AllocError),
            Err(Unread::Form) => {
                self.told.push_bytes(b"not read: ")?;
                self.told.push_bytes(line)?;
                self.told.push_bytes(b"\n")
            }
        }
    }
}
