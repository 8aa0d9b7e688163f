//! How many bytes the payload of an event has. No memory is taken.
ghost use Rattle.std.specs.Prelude.{◌≡◌, length, map};
ghost use Rattle.std.specs.List.{flat_map};
ghost use Rattle.aw_term.specs.Views.{ground_of};
ghost use Rattle.aw_choice.specs.ChoiceView.{choice_of};
ghost use Rattle.aw_store.specs.EquationView.{body_of, equation_of};
ghost use Rattle.aw_codec.specs.Names.{spelled_node, spelled_ref, spelled_refs};
ghost use Rattle.aw_codec.specs.Texts.{spelled_text};
ghost use Rattle.aw_codec.specs.Grounds.{spelled_ground};
ghost use Rattle.aw_codec.specs.Choices.{spelled_choice};
ghost use Rattle.aw_msg.specs.Spelling.{spelled_body, spelled_equation, spelled_load, spelled_kind};
ghost use Rattle.aw_msg.specs.MessageView.{plain_kind};
ghost use Rattle.aw_msg.specs.Messages.{spelled_message};
ghost use Rattle.aw_journal.specs.Events.{EventInRange, payload_of};
ghost use Rattle.aw_journal.specs.EventView.{event_of};
ghost use Rattle.aw_journal.specs.Lengths.{capped};

use crate::payload::NodeEvent;
use aw_choice::Choice;
use aw_msg::{Message, MsgKind};
use aw_name::{Node, Ref};
use aw_store::{Body, Equation};
use aw_term::Ground;

/// How many bytes the kind of an item has.
const KIND_BYTES: u64 = 1;

/// How many bytes the number of items has that stands before them.
const COUNT_BYTES: u64 = 1;

/// How many bytes the number of a role, a sort, a rule, a constructor, a result or a part has.
const CODE_BYTES: u64 = 2;

/// How many bytes the length of a text has.
const TEXT_LENGTH_BYTES: u64 = 2;

/// How many bytes a case or a number has.
const NUMBER_BYTES: u64 = 8;

/// How many bytes a step has: a rule, and a child of one byte.
const STEP_BYTES: u64 = CODE_BYTES + 1;

/// How many bytes stand before the steps of a node: a sort, a case and the number of steps.
const NODE_FRONT_BYTES: u64 = CODE_BYTES + NUMBER_BYTES + COUNT_BYTES;

/// How many bytes a kind and the number of a role, a constructor, a result or a part have together.
const KIND_AND_CODE_BYTES: u64 = KIND_BYTES + CODE_BYTES;

/// How many bytes a body or a ground term has that is a number.
const KIND_AND_NUMBER_BYTES: u64 = KIND_BYTES + NUMBER_BYTES;

/// How many bytes stand before the parts of a ground term: its kind, a constructor and the number of parts.
const GROUND_FRONT_BYTES: u64 = KIND_AND_CODE_BYTES + COUNT_BYTES;

/// How many bytes a message has beside what it says: its version, of one byte, and a role.
const MESSAGE_FRONT_BYTES: u64 = 1 + CODE_BYTES;

/// How many bytes the choice of a start has: its kind, a sort and a case.
const START_BYTES: u64 = KIND_AND_CODE_BYTES + NUMBER_BYTES;

/// How many bytes the choice of a rule has beside its node and its arguments: its kind, the rule and the number of arguments.
const DEVELOP_FRONT_BYTES: u64 = KIND_AND_CODE_BYTES + COUNT_BYTES;

#[tactic(auto, using(crate::proofs::Counts::node_length))]
fn node_len(node: &Node) -> u64
    ensures { result ≡ capped (length (spelled_node node.now)) }
{
    (node.steps.len() as u64)
        .saturating_mul(STEP_BYTES)
        .saturating_add(NODE_FRONT_BYTES)
}

#[tactic(auto, using(crate::proofs::Counts::ref_length))]
fn ref_len(reference: &Ref) -> u64
    ensures { result ≡ capped (length (spelled_ref reference.now)) }
{
    node_len(&reference.node).saturating_add(KIND_AND_CODE_BYTES)
}

fn refs_len(refs: &[Ref]) -> u64
    ensures { result ≡ capped (length (spelled_refs refs.now)) }
{
    let mut count: u64 = COUNT_BYTES;
    for reference in refs {
        count = count.saturating_add(ref_len(reference));
    }
    count
}

#[tactic(auto, using(crate::proofs::Counts::text_length))]
fn text_len(content: &[u8]) -> u64
    ensures { result ≡ capped (length (spelled_text content.now)) }
{
    (content.len() as u64).saturating_add(TEXT_LENGTH_BYTES)
}

fn body_len(body: &Body) -> u64
    ensures { result ≡ capped (length (spelled_body (body_of body.now))) }
{
    match body {
        Body::Same(reference) => ref_len(reference).saturating_add(KIND_BYTES),
        Body::Con(_, parts) => refs_len(parts.as_slice()).saturating_add(KIND_AND_CODE_BYTES),
        Body::Num(_) => KIND_AND_NUMBER_BYTES,
        Body::Text(content) => text_len(content.as_slice()).saturating_add(KIND_BYTES),
    }
}

#[tactic(auto, using(crate::proofs::Counts::equation_length))]
fn equation_len(equation: &Equation) -> u64
    ensures { result ≡ capped (length (spelled_equation (equation_of equation.now))) }
{
    ref_len(&equation.left).saturating_add(body_len(&equation.body))
}

fn equations_len(equations: &[Equation]) -> u64
    ensures { result ≡ capped (length (flat_map spelled_equation (map equation_of equations.now))) }
{
    let mut count: u64 = 0;
    for equation in equations {
        count = count.saturating_add(equation_len(equation));
    }
    count
}

#[tactic(auto, using(crate::proofs::Counts::load_length))]
fn load_len(load: &[Equation]) -> u64
    ensures { result ≡ capped (length (spelled_load (map equation_of load.now))) }
{
    if load.is_empty() {
        return 0;
    }
    equations_len(load).saturating_add(COUNT_BYTES)
}

#[tactic(auto, using(crate::proofs::Counts::call_length, crate::proofs::Counts::ask_length, crate::proofs::Counts::tell_length))]
fn kind_len(kind: &MsgKind) -> u64
    ensures { result ≡ capped (length (spelled_kind (plain_kind kind.now))) }
{
    match kind {
        MsgKind::Call {
            node,
            inherited,
            load,
        } => node_len(node)
            .saturating_add(refs_len(inherited.as_slice()))
            .saturating_add(load_len(load.as_slice()))
            .saturating_add(KIND_BYTES),
        MsgKind::Ask { reference, .. } => ref_len(reference).saturating_add(KIND_AND_CODE_BYTES),
        MsgKind::Tell { equation, load } => equation_len(equation)
            .saturating_add(load_len(load.as_slice()))
            .saturating_add(KIND_BYTES),
    }
}

#[tactic(auto, using(crate::proofs::Counts::message_length))]
fn message_len(m: &Message) -> u64
    ensures { result ≡ capped (length (spelled_message m.now)) }
{
    kind_len(m.kind.get()).saturating_add(MESSAGE_FRONT_BYTES)
}

#[cycle(counting)]
fn ground_len(ground: &Ground) -> u64
    ensures { result ≡ capped (length (spelled_ground (ground_of ground.now))) }
{
    match ground {
        Ground::Con(_, parts) => each_len(parts.as_slice()).saturating_add(GROUND_FRONT_BYTES),
        Ground::Num(_) => KIND_AND_NUMBER_BYTES,
        Ground::Text(content) => text_len(content.as_slice()).saturating_add(KIND_BYTES),
    }
}

#[cycle(counting)]
fn each_len(grounds: &[Ground]) -> u64
    ensures { result ≡ capped (length (flat_map spelled_ground (map ground_of grounds.now))) }
{
    let mut count: u64 = 0;
    for ground in grounds {
        count = count.saturating_add(ground_len(ground));
    }
    count
}

#[tactic(auto, using(crate::proofs::Counts::develop_length))]
fn choice_len(choice: &Choice) -> u64
    ensures { result ≡ capped (length (spelled_choice (choice_of choice.now))) }
{
    match choice {
        Choice::Start { .. } => START_BYTES,
        Choice::Develop { node, args, .. } => node_len(node)
            .saturating_add(each_len(args.as_slice()))
            .saturating_add(DEVELOP_FRONT_BYTES),
    }
}

/// How many bytes the payload of an event has.
#[tactic(auto, using(crate::proofs::Counts::event_short))]
pub(crate) fn payload_len(event: &NodeEvent) -> u64
    requires { EventInRange (event_of event.now) }
    ensures { result ≡ length (payload_of (event_of event.now)) }
{
    match event {
        NodeEvent::Took(choice) => choice_len(choice).saturating_add(KIND_BYTES),
        NodeEvent::Got(message) => message_len(message).saturating_add(KIND_BYTES),
    }
}
