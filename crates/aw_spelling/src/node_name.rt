//! Names of nodes, as `visit#1/admit.1`: a start sort, the number of a case, and steps of a rule and a child.
ghost use Rattle.std.specs.Prelude.{◌≡◌, ◌<◌, ◌∷◌, ℕ, List, Some, IsTrue, false, length, is_some, option_map, option_and_then, option_copied, IfSome};
ghost use Rattle.aw_spelling.specs.Spelling.{cut, is_name_byte, start_of, step_of, steps_of, child_of, parts, parts_behind, parts_of_name, node_name, has_spelling, spelled_name};
ghost use Rattle.aw_spelling.specs.NodeParts.{if_named, begins, leads, start_in, step_in, behind_first};

use crate::cut::cut_at;
use crate::name::{is_plain_name, name_len};
use crate::number::number_value;

/// The start of a node name, and the bytes behind its first slash, which are steps still to be read.
#[derive(Clone, Copy, Debug)]
pub struct NodeStart<'a> {
    pub start: &'a [u8],
    pub case: u64,
    pub steps: Option<&'a [u8]>,
}

/// A step of a node name, and the bytes behind the next slash.
#[derive(Clone, Copy, Debug)]
pub struct StepPart<'a> {
    pub rule: &'a [u8],
    /// From 1 to 8.
    pub child: u8,
    pub more: Option<&'a [u8]>,
}

fn first_part(bytes: &[u8]) -> (&[u8], Option<&[u8]>)
    ensures value { parts bytes.now ≡ result.0.now ∷ parts_behind (option_copied result.1) }
    ensures shorter { IfSome result.1 (λ rest. length rest.now < length bytes.now) }
{
    match cut_at(bytes, b'/') {
        Some((part, rest)) => (part, Some(rest)),
        None => (bytes, None),
    }
}

/// The bytes before the first `mark`, where they are a name, and those behind it. Nothing is looked at behind the first byte that
/// may not stand in a name.
fn cut_name(bytes: &[u8], mark: u8) -> Option<(&[u8], &[u8])>
    requires { is_name_byte mark ≡ false }
    ensures { option_map (λ x. (x.0.now, x.1.now)) result ≡ if_named (cut mark bytes.now) }
{
    let len = name_len(bytes);
    if len == bytes.len() {
        return None;
    }
    if bytes[len] != mark {
        return None;
    }
    let (name, behind) = bytes.split_at(len);
    let (_, rest) = behind.split_at(1);
    if is_plain_name(name) {
        Some((name, rest))
    } else {
        None
    }
}

fn start_of(part: &[u8]) -> Option<(&[u8], u64)>
    ensures { option_map (λ x. (x.0.now, x.1)) result ≡ start_of part.now }
{
    let (name, number) = cut_name(part, b'#')?;
    let case = number_value(number)?;
    Some((name, case))
}

fn child_of(digits: &[u8]) -> Option<u8>
    ensures { result ≡ child_of digits.now }
{
    match digits {
        [digit] if matches!(*digit, b'1'..=b'8') => Some(*digit - b'0'),
        _ => None,
    }
}

fn step_of(part: &[u8]) -> Option<(&[u8], u8)>
    ensures { option_map (λ x. (x.0.now, x.1)) result ≡ step_of part.now }
{
    let (rule, digit) = cut_name(part, b'.')?;
    let child = child_of(digit)?;
    Some((rule, child))
}

/// The start of a node name; `None` where the bytes before the first slash are no start and case. What stands behind the
/// slash is not looked at.
pub fn node_start(name: &[u8]) -> Option<NodeStart<'_>>
    ensures value { parts_of_name name.now ≡ option_and_then begins result }
    ensures first { option_map (λ s. (s.start.now, s.case)) result ≡ start_in (parts name.now) }
    ensures behind { IfSome result (λ s. parts_behind (option_copied s.steps) ≡ behind_first (parts name.now)) }
{
    let (part, steps) = first_part(name);
    let (start, case) = start_of(part)?;
    Some(NodeStart { start, case, steps })
}

/// The first step of those that `node_start` or an earlier step left; `None` where the bytes before the next slash are no
/// step. What stands behind the slash is not looked at.
pub fn next_step(steps: &[u8]) -> Option<StepPart<'_>>
    ensures value { steps_of (parts steps.now) ≡ option_and_then leads result }
    ensures first { option_map (λ s. (s.rule.now, s.child)) result ≡ step_in (parts steps.now) }
    ensures behind { IfSome result (λ s. parts_behind (option_copied s.more) ≡ behind_first (parts steps.now)) }
    ensures shorter { IfSome result (λ s. IfSome s.more (λ more. length more.now < length steps.now)) }
{
    let (part, more) = first_part(steps);
    let (rule, child) = step_of(part)?;
    Some(StepPart { rule, child, more })
}

fn are_steps(steps: Option<&[u8]>) -> bool
    ensures { result ≡ is_some (steps_of (parts_behind (option_copied steps.entry))) }
{
    let mut rest = steps;
    while let Some(bytes) = rest {
        match next_step(bytes) {
            Some(step) => rest = step.more,
            None => return false,
        }
    }
    true
}

/// Whether the bytes are the name of a node.
pub fn is_node_name(b: &[u8]) -> bool
    ensures { result ≡ node_name b.now }
{
    match node_start(b) {
        Some(name) => are_steps(name.steps),
        None => false,
    }
}

/// A node name that is printed is read again.
pub fn spelled_name_is_read()
    ensures { (name : List ℕ × ℕ × List (List ℕ × ℕ)) → IsTrue (has_spelling name) → parts_of_name (spelled_name name) ≡ Some name }
{}
