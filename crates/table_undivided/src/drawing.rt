//! Choices that are drawn. Most fit: an open node, a rule of its sort, and as many arguments as that has.
use crate::draws::Draws;
use crate::values::arguments;
use aw_choice::Choice;
use aw_grammar::Grammar;
use aw_name::{Node, Trail, copy_node};
use aw_plain_rows::{Row, State};
use std::alloc::{AllocError, Global};

/// What is drawn from: the cases that are started, beside the grammar and the rows that stand.
#[derive(Drop)]
pub struct Stand<'a> {
    pub grammar: &'a Grammar,
    pub rows: &'a [Row],
    pub cases: u64,
}

/// The start sorts, in their order.
fn start_sorts(alloc: Global, g: &Grammar) -> Result<Vec<u16>, AllocError> {
    let mut sorts = Vec::new(alloc);
    for number in 0..g.sorts.len() {
        if g.sorts.at(number).start {
            sorts.push(number as u16)?;
        }
    }
    Ok(sorts)
}

/// The rules of a sort, in their order.
fn rules_of(alloc: Global, g: &Grammar, sort: u16) -> Result<Vec<u16>, AllocError> {
    let mut rules = Vec::new(alloc);
    for number in 0..g.rules.len() {
        if g.rules.at(number).sort == sort {
            rules.push(number as u16)?;
        }
    }
    Ok(rules)
}

/// The places of the open rows.
fn open_rows(alloc: Global, rows: &[Row]) -> Result<Vec<usize>, AllocError> {
    let mut open = Vec::new(alloc);
    for at in 0..rows.len() {
        if rows[at].state == State::Pending {
            open.push(at)?;
        }
    }
    Ok(open)
}

/// A rule of the grammar, whatever its sort.
fn any_rule(draws: &mut Draws, g: &Grammar) -> u16 {
    if g.rules.is_empty() {
        return 0;
    }
    draws.draw(g.rules.len() as u64) as u16
}

/// How many parameters a rule has.
fn params_of(g: &Grammar, rule: u16) -> u8 {
    match g.rule(rule) {
        Some(declared) => declared.params,
        None => 0,
    }
}

/// The start of a case.
fn start(alloc: Global, draws: &mut Draws, stand: &Stand<'_>) -> Result<Choice, AllocError> {
    let sorts = start_sorts(alloc, stand.grammar)?;
    let sort = draws.among(sorts.as_slice(), 0);
    let case = draws.draw(stand.cases.max(1));
    Ok(Choice::Start { sort, case })
}

/// Any rule on any node that is held, with up to two arguments.
fn stray(alloc: Global, draws: &mut Draws, stand: &Stand<'_>) -> Result<Choice, AllocError> {
    if stand.rows.is_empty() {
        return start(alloc, draws, stand);
    }
    let at = draws.draw(stand.rows.len() as u64) as usize;
    let node = copy_node(&stand.rows[at].node)?;
    let rule = any_rule(draws, stand.grammar);
    let count = draws.draw(3) as u8;
    let args = arguments(alloc, draws, stand.grammar, count)?;
    Ok(Choice::Develop { node, rule, args })
}

/// A rule on a case that is never started.
fn elsewhere(alloc: Global, draws: &mut Draws, stand: &Stand<'_>) -> Result<Choice, AllocError> {
    let sorts = start_sorts(alloc, stand.grammar)?;
    let node = Node {
        start: draws.among(sorts.as_slice(), 0),
        case: stand.cases,
        steps: Trail::new(alloc),
    };
    let rule = any_rule(draws, stand.grammar);
    let count = params_of(stand.grammar, rule);
    let args = arguments(alloc, draws, stand.grammar, count)?;
    Ok(Choice::Develop { node, rule, args })
}

/// The place of an open row, where there is one.
fn open_row(alloc: Global, draws: &mut Draws, rows: &[Row]) -> Result<Option<usize>, AllocError> {
    let open = open_rows(alloc, rows)?;
    if open.is_empty() {
        return Ok(None);
    }
    Ok(Some(open[draws.draw(open.len() as u64) as usize]))
}

/// One of these rules on the node of a row, with as many arguments as it has.
fn on_row(
    alloc: Global,
    draws: &mut Draws,
    g: &Grammar,
    row: &Row,
    rules: &[u16],
) -> Result<Choice, AllocError> {
    let rule = draws.among(rules, 0);
    let count = params_of(g, rule);
    let args = arguments(alloc, draws, g, count)?;
    let node = copy_node(&row.node)?;
    Ok(Choice::Develop { node, rule, args })
}

/// A rule of the sort of a row; a start where there is none.
fn ruled(
    alloc: Global,
    draws: &mut Draws,
    stand: &Stand<'_>,
    row: &Row,
) -> Result<Choice, AllocError> {
    let rules = rules_of(alloc, stand.grammar, row.sort)?;
    if rules.is_empty() {
        return start(alloc, draws, stand);
    }
    on_row(alloc, draws, stand.grammar, row, rules.as_slice())
}

/// A rule of the sort of an open row, with as many arguments as it has; a start where there is none.
fn fitting(alloc: Global, draws: &mut Draws, stand: &Stand<'_>) -> Result<Choice, AllocError> {
    let Some(at) = open_row(alloc, draws, stand.rows)? else {
        return start(alloc, draws, stand);
    };
    match stand.rows.get(at) {
        Some(row) => ruled(alloc, draws, stand, row),
        None => start(alloc, draws, stand),
    }
}

/// The choice of a turn.
pub fn draw_choice(
    alloc: Global,
    draws: &mut Draws,
    stand: &Stand<'_>,
) -> Result<Choice, AllocError> {
    match draws.draw(10) {
        0 => start(alloc, draws, stand),
        1 => stray(alloc, draws, stand),
        2 => elsewhere(alloc, draws, stand),
        _ => fitting(alloc, draws, stand),
    }
}
