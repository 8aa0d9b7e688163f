//! Calls as the table spells them. A word is a number: that of the place at which it came first.

use crate::call::Call;
use aw_list::Text;
use aw_name::{Node, Ref, Refs, Slot, Step, Trail};
use aw_spelling::{content_value, cut_at, next_step, node_start, number_value};
use aw_store::{Body, Equation, Equations};
use aw_term_reader::Unread;
use bstr::ByteSlice;
use std::alloc::Global;

/// What a line asks for.
#[derive(Drop)]
pub enum Asked {
    Call(Call),
    /// So many calls that are drawn from a seed.
    Draw { count: u64, seed: u64 },
}

/// The words that were read so far.
#[derive(Drop)]
pub struct Reader {
    words: Vec<Text>,
}

/// The place of a word.
fn place_of(words: &[Text], word: &[u8]) -> Option<usize> {
    for at in 0..words.len() {
        if words[at].as_slice() == word {
            return Some(at);
        }
    }
    None
}

/// A number of 64 bits.
fn read_number(text: &[u8]) -> Result<u64, Unread> {
    match number_value(text) {
        Some(number) => Ok(number),
        None => Err(Unread::Form),
    }
}

/// `r1` or `p2`.
fn read_slot(text: &[u8]) -> Option<Slot> {
    let (kind, digits) = text.split_first()?;
    let number = u16::try_from(number_value(digits)?).ok()?;
    match *kind {
        b'r' => Some(Slot::Result(number)),
        b'p' => Some(Slot::Part(number)),
        _ => None,
    }
}

impl Reader {
    /// No words yet.
    pub fn new(alloc: Global) -> Reader {
        Reader {
            words: Vec::new(alloc),
        }
    }

    /// The number of a word, which may be a new one.
    fn number(&mut self, alloc: Global, word: &[u8]) -> Result<u16, Unread> {
        let at = match place_of(self.words.as_slice(), word) {
            Some(at) => at,
            None => {
                self.words.push(Text::from_bytes(alloc, word)?)?;
                self.words.len() - 1
            }
        };
        match u16::try_from(at) {
            Ok(number) => Ok(number),
            Err(_) => Err(Unread::Form),
        }
    }

    /// `admit.1`.
    fn step(&mut self, alloc: Global, text: &[u8]) -> Result<Step, Unread> {
        let Some(part) = next_step(text) else {
            return Err(Unread::Form);
        };
        let rule = self.number(alloc, part.rule)?;
        Ok(Step {
            rule,
            child: part.child,
        })
    }

    /// Steps, a slash between them.
    fn steps(&mut self, alloc: Global, text: &[u8]) -> Result<Trail, Unread> {
        let mut steps = Vec::new(alloc);
        for part in text.split_str(b"/") {
            steps.push(self.step(alloc, part)?)?;
        }
        if steps.len() > Trail::MOST {
            return Err(Unread::Form);
        }
        Ok(Trail::from_vec(steps)?)
    }

    /// `visit#1` or `visit#1/admit.1`.
    fn node(&mut self, alloc: Global, text: &[u8]) -> Result<Node, Unread> {
        let Some(name) = node_start(text) else {
            return Err(Unread::Form);
        };
        let start = self.number(alloc, name.start)?;
        let steps = match name.steps {
            Some(steps) => self.steps(alloc, steps)?,
            None => Trail::new(alloc),
        };
        Ok(Node {
            start,
            case: name.case,
            steps,
        })
    }

    /// `visit#1:r1` or `visit#1:p2`.
    fn reference(&mut self, alloc: Global, text: &[u8]) -> Result<Ref, Unread> {
        let Some((node, slot)) = cut_at(text, b':') else {
            return Err(Unread::Form);
        };
        let Some(slot) = read_slot(slot) else {
            return Err(Unread::Form);
        };
        let node = self.node(alloc, node)?;
        Ok(Ref { node, slot })
    }

    /// References in parentheses, a comma and a space between them.
    fn references(&mut self, alloc: Global, text: &[u8]) -> Result<Refs, Unread> {
        match text {
            [b'(', inner @ .., b')'] => {
                let mut refs = Vec::new(alloc);
                for part in inner.split_str(b", ") {
                    refs.push(self.reference(alloc, part)?)?;
                }
                Ok(Refs::from_vec(refs)?)
            }
            _ => Err(Unread::Form),
        }
    }

    /// A text, a number, a constructor or a reference.
    fn body(&mut self, alloc: Global, text: &[u8]) -> Result<Body, Unread> {
        if let Some(content) = content_value(alloc, text)? {
            return Ok(Body::Text(content));
        }
        if let Some(number) = number_value(text) {
            return Ok(Body::Num(number));
        }
        match text.find_byte(b'(') {
            Some(at) => {
                let con = self.number(alloc, &text[..at])?;
                Ok(Body::Con(con, self.references(alloc, &text[at..])?))
            }
            None if text.contains_str(b":") => Ok(Body::Same(self.reference(alloc, text)?)),
            None => Ok(Body::Con(self.number(alloc, text)?, Refs::new(alloc))),
        }
    }

    /// The equation of a left side and the text of its body.
    fn equation_of(&mut self, alloc: Global, left: Ref, text: &[u8]) -> Result<Equation, Unread> {
        match self.body(alloc, text) {
            Ok(body) => Ok(Equation { left, body }),
            Err(fault) => {
                drop(left);
                Err(fault)
            }
        }
    }

    /// `LEFT = BODY`.
    fn equation(&mut self, alloc: Global, text: &[u8]) -> Result<Equation, Unread> {
        match text.split_once_str(b" = ") {
            Some((left, body)) => {
                let left = self.reference(alloc, left)?;
                self.equation_of(alloc, left, body)
            }
            None => Err(Unread::Form),
        }
    }

    /// Equations, ` & ` between them.
    fn equations(&mut self, alloc: Global, text: &[u8]) -> Result<Equations, Unread> {
        let mut es = Vec::new(alloc);
        for part in text.split_str(b" & ") {
            es.push(self.equation(alloc, part)?)?;
        }
        Ok(Equations::from_vec(es))
    }

    /// A call by its verb.
    fn call(&mut self, alloc: Global, verb: &[u8], rest: &[u8]) -> Result<Call, Unread> {
        match verb {
            b"name" => Ok(Call::Name(self.reference(alloc, rest)?)),
            b"slot" => Ok(Call::Slot(self.reference(alloc, rest)?)),
            b"reserve" => Ok(Call::Reserve(self.equations(alloc, rest)?)),
            b"add" => Ok(Call::Add(self.equation(alloc, rest)?)),
            b"read" => Ok(Call::Read(self.reference(alloc, rest)?)),
            b"chase" => Ok(Call::Chase(self.reference(alloc, rest)?)),
            b"count" => Ok(Call::Count),
            _ => Err(Unread::Form),
        }
    }

    /// What a line asks for: a verb and what it is about.
    pub fn asked(&mut self, alloc: Global, line: &[u8]) -> Result<Asked, Unread> {
        let (verb, rest) = match line.split_once_str(b" ") {
            Some(cut) => cut,
            None => (line, &line[line.len()..]),
        };
        match (verb, rest.split_once_str(b" ")) {
            (b"draw", Some((count, seed))) => Ok(Asked::Draw {
                count: read_number(count)?,
                seed: read_number(seed)?,
            }),
            _ => Ok(Asked::Call(self.call(alloc, verb, rest)?)),
        }
    }
}
