//! References, bodies and equations as a table spells them.
use aw_base::{Grammar, NameFault, Node, Ref, Slot, parse_node};
use aw_list::Text;
use aw_spelling::{content_value, cut_at, number_value};
use aw_store::{Body, Equation, Refs};
use aw_term_reader::Unread;
use bstr::ByteSlice;
use std::alloc::Global;

/// A node, as `visit#1/admit.1`.
fn read_node(alloc: Global, g: &Grammar, text: &[u8]) -> Result<Node, Unread> {
    match parse_node(alloc, g, text) {
        Ok(node) => Ok(node),
        Err(NameFault::NoMemory) => Err(Unread::NoMemory),
        Err(_) => Err(Unread::Form),
    }
}

/// `r1` or `p2`.
fn read_slot(text: &[u8]) -> Option<Slot> {
    let (kind, digits) = text.split_first()?;
    let number = u16::try_from(number_value(digits)?).ok()?;
    match *kind {
        b'r' => Some(Slot::Result(number)),
        b'p' => Some(Slot::Part(number)),
        _ => None,
    }
}

/// `visit#1:r1` or `visit#1:p2`.
pub fn read_ref(alloc: Global, g: &Grammar, text: &[u8]) -> Result<Ref, Unread> {
    let Some((node, slot)) = cut_at(text, b':') else {
        return Err(Unread::Form);
    };
    let Some(slot) = read_slot(slot) else {
        return Err(Unread::Form);
    };
    let node = read_node(alloc, g, node)?;
    Ok(Ref { node, slot })
}

/// Adds references, a comma and a space between them.
fn read_each(alloc: Global, g: &Grammar, text: &[u8], refs: &mut Vec<Ref>) -> Result<(), Unread> {
    for part in text.split_str(b", ") {
        refs.push(read_ref(alloc, g, part)?)?;
    }
    Ok(())
}

/// References in parentheses, a comma and a space between them.
fn read_refs(alloc: Global, g: &Grammar, text: &[u8]) -> Result<Refs, Unread> {
    match text {
        [] | [b'(', b')'] => Ok(Refs::new(alloc)),
        [b'(', inner @ .., b')'] => {
            let mut refs = Vec::new(alloc);
            read_each(alloc, g, inner, &mut refs)?;
            Ok(Refs::from_vec(refs)?)
        }
        _ => Err(Unread::Form),
    }
}

/// A constructor, and its parts in parentheses where it has some.
fn read_con(alloc: Global, g: &Grammar, name: &[u8], parts: &[u8]) -> Result<Body, Unread> {
    match g.con_named(name) {
        Some(con) => Ok(Body::Con(con, read_refs(alloc, g, parts)?)),
        None => Err(Unread::Form),
    }
}

/// A text, a number, a constructor or a reference.
fn read_body(alloc: Global, g: &Grammar, text: &[u8]) -> Result<Body, Unread> {
    if let Some(content) = content_value(alloc, text)? {
        return Ok(Body::Text(content));
    }
    if let Some(number) = number_value(text) {
        return Ok(Body::Num(number));
    }
    match text.find_byte(b'(') {
        Some(at) => read_con(alloc, g, &text[..at], &text[at..]),
        None if text.contains_str(b":") => Ok(Body::Same(read_ref(alloc, g, text)?)),
        None => read_con(alloc, g, text, b""),
    }
}

/// The equation of a left side and the text of its body.
fn equation_of(alloc: Global, g: &Grammar, left: Ref, text: &[u8]) -> Result<Equation, Unread> {
    match read_body(alloc, g, text) {
        Ok(body) => Ok(Equation { left, body }),
        Err(fault) => {
            drop(left);
            Err(fault)
        }
    }
}

/// `LEFT = BODY`.
pub fn read_equation(alloc: Global, g: &Grammar, text: &[u8]) -> Result<Equation, Unread> {
    match text.split_once_str(b" = ") {
        Some((left, body)) => equation_of(alloc, g, read_ref(alloc, g, left)?, body),
        None => Err(Unread::Form),
    }
}

/// `NAME (REFERENCES)`.
pub fn read_held(alloc: Global, g: &Grammar, text: &[u8]) -> Result<(Node, Refs), Unread> {
    match text.split_once_str(b" ") {
        Some((node, refs)) => Ok((read_node(alloc, g, node)?, read_refs(alloc, g, refs)?)),
        None => Err(Unread::Form),
    }
}
