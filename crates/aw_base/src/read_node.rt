//! Reading the name of a node, as `visit#1/admit.1`.
ghost use Rattle.std.specs.Prelude.{◌≡◌, is_some, true, ◌≤◌, ◌<◌, ◌==◌, Some, count_by, length, IfOk, IfSome, option_map, option_and_then, option_copied};
ghost use Rattle.aw_term.specs.Rules.{sort_of};
ghost use Rattle.aw_spelling.specs.NodeParts.{begins};
ghost use Rattle.aw_spelling.specs.Spelling.{node_name, parts_of_name};
ghost use Rattle.aw_name.specs.Limits.{most_steps};
ghost use Rattle.aw_grammar.specs.GrammarOf.{grammar_of, words_of};
ghost use Rattle.aw_base.specs.NodeNames.{first_misfit, node_read};
ghost use Rattle.aw_base.specs.NodeReading.{Reads, leads_on, long_fault, name_fault, start_named, steps_behind};
ghost use Rattle.aw_base.specs.declared.read_node.NameFault.TheVariants.{NoMemory};

use crate::names::sort_of_step;
use aw_grammar::Grammar;
use aw_name::{Node, Step, Trail};
use aw_spelling::{NodeStart, is_node_name, next_step, node_start};
use std::alloc::{AllocError, Global};

/// Why a text names no node; the first that holds is told.
#[derive(Clone, Copy, Debug, PartialEq, Eq)]
pub enum NameFault {
    /// The text is no node name.
    Form,
    /// The name has more than 250 steps.
    Long,
    /// A name in it is not declared, or the sort is no start sort.
    Unknown,
    /// A step, counted from 0, does not fit: the rule is of another sort, or has no such child.
    Step { at: usize },
    NoMemory,
}

impl From<AllocError> for NameFault {
    ghost from_gives = { λ _ e. e ≡ NoMemory };

    fn from(_: AllocError) -> NameFault {
        NameFault::NoMemory
    }
}

/// A step with its rule looked up, and the bytes behind the next slash.
#[derive(Clone, Copy)]
pub(crate) struct NamedStep<'a> {
    pub(crate) step: Step,
    pub(crate) more: Option<&'a [u8]>,
}

/// The first of these steps, where its rule is declared.
pub(crate) fn named_step<'a>(g: &Grammar, steps: &'a [u8]) -> Option<NamedStep<'a>>
    ensures value { steps_behind (words_of g.now) (Some steps.entry.now) ≡ option_and_then (leads_on (words_of g.now)) result }
    ensures shorter { IfSome result (λ s. IfSome s.more (λ more. length more.now < length steps.entry.now)) }
{
    let part = next_step(steps)?;
    let rule = g.rule_named(part.rule)?;
    Some(NamedStep {
        step: Step {
            rule,
            child: part.child,
        },
        more: part.more,
    })
}

/// The steps with their rules looked up, with room for so many at once; `None` where a step is none or its rule is not declared.
fn named_steps(
    alloc: Global,
    g: &Grammar,
    steps: Option<&[u8]>,
    room: usize,
) -> Result<Option<Vec<Step>>, AllocError>
    ensures { IfOk result (λ found. option_map (λ v. v.items) found ≡ steps_behind (words_of g.now) (option_copied steps.entry)) }
{
    let mut found = Vec::with_capacity(alloc, room)?;
    let mut rest = steps;
    while let Some(bytes) = rest {
        match named_step(g, bytes) {
            Some(part) => {
                found.push(part.step)?;
                rest = part.more;
            }
            None => return Ok(None),
        }
    }
    Ok(Some(found))
}

/// The start sort with a name.
pub(crate) fn start_named(g: &Grammar, name: &[u8]) -> Option<u16>
    ensures { result ≡ start_named (words_of g.now) (grammar_of g.now) name.now }
{
    let number = g.sort_named(name)?;
    let sort = g.sort(number)?;
    if sort.start { Some(number) } else { None }
}

/// The first step, counted from 0, that does not fit behind a sort.
fn first_misfit(g: &Grammar, start: u16, steps: &[Step]) -> Option<usize>
    ensures { result ≡ first_misfit (grammar_of g.now) 0 start steps.now }
{
    let mut sort = start;
    for (at, step) in steps.iter().enumerate() {
        match sort_of_step(g, sort, step) {
            Some(next) => sort = next,
            None => return Some(at),
        }
    }
    None
}

/// How many slashes stand in the bytes: as many as a node name has steps.
fn slash_count(text: &[u8]) -> usize
    ensures { result ≡ count_by (λ b. b == 47) text.now }
{
    text.iter().filter(|byte| **byte == b'/').count()
}

/// Why a text names no node, where no node was found by its parts: a name in it is not declared, or it is no node name. Only such
/// a text is read once more.
fn name_fault(text: &[u8]) -> NameFault
    ensures { result ≡ name_fault (node_name text.now) }
{
    if is_node_name(text) {
        NameFault::Unknown
    } else {
        NameFault::Form
    }
}

fn node_of(
    alloc: Global,
    g: &Grammar,
    text: &[u8],
    name: &NodeStart<'_>,
    slashes: usize,
) -> Result<Node, NameFault>
    requires begun { parts_of_name text.now ≡ begins name.now }
    requires few { IfSome (begins name.now) (λ parts. length parts.2 ≤ most_steps) }
    ensures valid { IfOk result (λ n. is_some (sort_of (grammar_of g.now) n) ≡ true) }
    ensures read { Reads (node_read (words_of g.now) (grammar_of g.now) text.now) result }
{
    let Some(start) = start_named(g, name.start) else {
        return Err(name_fault(text));
    };
    let Some(steps) = named_steps(alloc, g, name.steps, slashes)? else {
        return Err(name_fault(text));
    };
    match first_misfit(g, start, &steps) {
        Some(at) => Err(NameFault::Step { at }),
        None => Ok(Node {
            start,
            case: name.case,
            steps: Trail::from_vec(steps)?,
        }),
    }
}

/// Why a text with more than 250 slashes names no node.
fn long_fault(text: &[u8]) -> NameFault
    ensures { result ≡ long_fault (node_name text.now) }
{
    if is_node_name(text) {
        NameFault::Long
    } else {
        NameFault::Form
    }
}

/// The node that a text names, which is then valid.
pub fn parse_node(alloc: Global, g: &Grammar, text: &[u8]) -> Result<Node, NameFault>
    ensures valid { IfOk result (λ n. is_some (sort_of (grammar_of g.now) n) ≡ true) }
    ensures read { Reads (node_read (words_of g.now) (grammar_of g.now) text.now) result }
{
    let slashes = slash_count(text);
    if slashes > Trail::MOST {
        return Err(long_fault(text));
    }
    match node_start(text) {
        Some(name) => node_of(alloc, g, text, &name, slashes),
        None => Err(NameFault::Form),
    }
}
