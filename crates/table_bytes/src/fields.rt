//! Names, messages, choices and requests with their fields in words: roles, sorts, rules and constructors by their positions.
use aw_choice::Choice;
use aw_list::Text;
use aw_msg::{Frame, Message, MsgKind};
use aw_name::{Node, Ref, Slot};
use aw_spelling::{push_number, push_quoted};
use aw_store::{Body, Equation};
use aw_term::Ground;
use std::alloc::AllocError;

/// Adds `0#1/0.1`: the start sort, the case, and of each step the rule and the child.
pub fn push_node(told: &mut Text, node: &Node) -> Result<(), AllocError> {
    push_number(told, u64::from(node.start))?;
    told.push_bytes(b"#")?;
    push_number(told, node.case)?;
    for step in node.steps.as_slice() {
        told.push_bytes(b"/")?;
        push_number(told, u64::from(step.rule))?;
        told.push_bytes(b".")?;
        push_number(told, u64::from(step.child))?;
    }
    Ok(())
}

/// Adds `0#1:r1` for a result and `0#1:p2` for a part.
fn push_ref(told: &mut Text, reference: &Ref) -> Result<(), AllocError> {
    push_node(told, &reference.node)?;
    match reference.slot {
        Slot::Result(number) => {
            told.push_bytes(b":r")?;
            push_number(told, u64::from(number))
        }
        Slot::Part(number) => {
            told.push_bytes(b":p")?;
            push_number(told, u64::from(number))
        }
    }
}

/// Adds references in parentheses.
fn push_refs(told: &mut Text, refs: &[Ref]) -> Result<(), AllocError> {
    told.push_bytes(b"(")?;
    for (place, reference) in refs.iter().enumerate() {
        if place > 0 {
            told.push_bytes(b", ")?;
        }
        push_ref(told, reference)?;
    }
    told.push_bytes(b")")
}

/// Adds a constructor, as `c3`.
fn push_con(told: &mut Text, con: u16) -> Result<(), AllocError> {
    told.push_bytes(b"c")?;
    push_number(told, u64::from(con))
}

fn push_body(told: &mut Text, body: &Body) -> Result<(), AllocError> {
    match body {
        Body::Same(reference) => push_ref(told, reference),
        Body::Con(con, parts) => {
            push_con(told, *con)?;
            push_refs(told, parts.as_slice())
        }
        Body::Num(number) => push_number(told, *number),
        Body::Text(content) => push_quoted(told, content.as_slice()),
    }
}

/// Adds `0#1:p1 = 7`.
fn push_equation(told: &mut Text, equation: &Equation) -> Result<(), AllocError> {
    push_ref(told, &equation.left)?;
    told.push_bytes(b" = ")?;
    push_body(told, &equation.body)
}

/// Adds the equations of a load, as ` with 0#1:p1 = 7; 0#1:p2 = 0#1:p1`, where there are any.
fn push_load(told: &mut Text, load: &[Equation]) -> Result<(), AllocError> {
    for (place, equation) in load.iter().enumerate() {
        told.push_bytes(if place > 0 { b"; " } else { b" with " })?;
        push_equation(told, equation)?;
    }
    Ok(())
}

/// Adds `to 1 call 0#1/0.1 (0#1:p2)`, `to 0 ask 0#1:p2 from 1` or `to 1 tell 0#1:p1 = 7`, and the load.
pub fn push_message(told: &mut Text, message: &Message) -> Result<(), AllocError> {
    told.push_bytes(b"to ")?;
    push_number(told, u64::from(message.to))?;
    match message.kind.get() {
        MsgKind::Call {
            node,
            inherited,
            load,
        } => {
            told.push_bytes(b" call ")?;
            push_node(told, node)?;
            told.push_bytes(b" ")?;
            push_refs(told, inherited.as_slice())?;
            push_load(told, load.as_slice())
        }
        MsgKind::Ask { reference, from } => {
            told.push_bytes(b" ask ")?;
            push_ref(told, reference)?;
            told.push_bytes(b" from ")?;
            push_number(told, u64::from(*from))
        }
        MsgKind::Tell { equation, load } => {
            told.push_bytes(b" tell ")?;
            push_equation(told, equation)?;
            push_load(told, load.as_slice())
        }
    }
}

/// Adds an argument.
#[cycle(grounds)]
fn push_ground(told: &mut Text, ground: &Ground) -> Result<(), AllocError> {
    match ground {
        Ground::Con(con, parts) => {
            push_con(told, *con)?;
            push_grounds(told, parts.as_slice())
        }
        Ground::Num(number) => push_number(told, *number),
        Ground::Text(content) => push_quoted(told, content.as_slice()),
    }
}

/// Adds arguments in parentheses.
#[cycle(grounds)]
fn push_grounds(told: &mut Text, grounds: &[Ground]) -> Result<(), AllocError> {
    told.push_bytes(b"(")?;
    for (place, ground) in grounds.iter().enumerate() {
        if place > 0 {
            told.push_bytes(b", ")?;
        }
        push_ground(told, ground)?;
    }
    told.push_bytes(b")")
}

/// Adds `start 0#1` or `0#1/0.1 rule 2 (7)`.
pub fn push_choice(told: &mut Text, choice: &Choice) -> Result<(), AllocError> {
    match choice {
        Choice::Start { sort, case } => {
            told.push_bytes(b"start ")?;
            push_number(told, u64::from(*sort))?;
            told.push_bytes(b"#")?;
            push_number(told, *case)
        }
        Choice::Develop { node, rule, args } => {
            push_node(told, node)?;
            told.push_bytes(b" rule ")?;
            push_number(told, u64::from(*rule))?;
            told.push_bytes(b" ")?;
            push_grounds(told, args.as_slice())
        }
    }
}

/// Adds a request.
pub fn push_frame(told: &mut Text, frame: &Frame) -> Result<(), AllocError> {
    match frame {
        Frame::Push(message) => {
            told.push_bytes(b"push ")?;
            push_message(told, message)
        }
        Frame::Choose(choice) => {
            told.push_bytes(b"choose ")?;
            push_choice(told, choice)
        }
        Frame::Pull(place) => {
            told.push_bytes(b"pull ")?;
            push_number(told, *place)
        }
        Frame::List(place) => {
            told.push_bytes(b"list ")?;
            push_number(told, *place)
        }
    }
}
