//! The words of `join` and `cases`.
use crate::joint::{JointAsked, Written};
use aw_spelling::number_value;
use clap::{Arg, ArgAction, ArgMatches, Command};
use std::alloc::{AllocError, Global};

/// The case whose events are joined alone.
fn case<'a>(alloc: Global) -> Arg<'a> {
    Arg::new(alloc, "case")
        .long("case")
        .value_name("SORT#NUMBER")
        .help("The events of one case alone, as visit#1")
        .action(ArgAction::Set)
}

/// The roles without a journal.
fn without<'a>(alloc: Global) -> Arg<'a> {
    Arg::new(alloc, "without")
        .long("without")
        .value_name("ROLE")
        .help("A role that has no journal, since it never served")
        .action(ArgAction::Append)
}

/// The older copies of the journals.
fn first<'a>(alloc: Global) -> Arg<'a> {
    Arg::new(alloc, "first")
        .long("first")
        .value_name("OLD")
        .help(
            "Older copies, one for each journal: what they have must fit, and what came since as far as it does. Behind them: --",
        )
        .action(ArgAction::Append)
        .num_args(1..)
}

/// A word that is there or not.
fn flag<'a>(alloc: Global, name: &'static str, help: &'static str) -> Arg<'a> {
    Arg::new(alloc, name)
        .long(name)
        .help(help)
        .action(ArgAction::SetTrue)
}

/// The files of a command, at least one.
fn files<'a>(alloc: Global) -> Arg<'a> {
    Arg::new(alloc, "file")
        .value_name("FILE")
        .help("The journal of a role; one for each role that served")
        .required(true)
        .action(ArgAction::Append)
        .num_args(1..)
}

/// The words of `join`.
pub fn join_command<'a>(alloc: Global) -> Result<Command<'a>, AllocError> {
    Command::new(alloc, "join")
        .about(
            "Write the events of all roles' journals as one schedule, in an order in which they can have come",
        )
        .arg(flag(alloc, "settled", "Deliver all messages behind them"))?
        .arg(flag(
            alloc,
            "reach",
            "Write what fits where they do not fit whole",
        ))?
        .arg(case(alloc))?
        .arg(without(alloc))?
        .arg(first(alloc))?
        .arg(files(alloc))
}

/// The words of `cases`.
pub fn cases_command<'a>(alloc: Global) -> Result<Command<'a>, AllocError> {
    Command::new(alloc, "cases")
        .about(
            "Write each case as it stands in all roles' journals together, once all messages came",
        )
        .arg(flag(alloc, "open", "The lines of open tasks alone"))?
        .arg(flag(
            alloc,
            "reach",
            "Write what fits where they do not fit whole",
        ))?
        .arg(case(alloc))?
        .arg(without(alloc))?
        .arg(first(alloc))?
        .arg(files(alloc))
}

/// The case that a word names, as `visit#1`.
fn case_of(word: &str) -> Option<(&str, u64)> {
    let (sort, digits) = word.split_once('#')?;
    match number_value(digits.as_bytes()) {
        Some(number) => Some((sort, number)),
        None => None,
    }
}

/// All words of a name.
fn all_of<'a>(
    alloc: Global,
    matches: &ArgMatches<'a>,
    name: &str,
) -> Result<Vec<&'a str>, AllocError> {
    let mut all = Vec::new(alloc);
    if let Some(words) = matches.get_strs(name) {
        for word in words {
            all.push(*word)?;
        }
    }
    Ok(all)
}

/// What the words ask for; nothing where the word that should name a case names none.
pub fn joint_words<'a>(
    alloc: Global,
    name: &str,
    matches: &ArgMatches<'a>,
) -> Result<Option<JointAsked<'a>>, AllocError> {
    let case = match matches.get_str("case") {
        None => None,
        Some(word) => match case_of(word) {
            Some(case) => Some(case),
            None => return Ok(None),
        },
    };
    let without = all_of(alloc, matches, "without")?;
    let older = all_of(alloc, matches, "first")?;
    let written = if name == "join" {
        Written::Text {
            settled: matches.get_flag("settled"),
        }
    } else {
        Written::Cases {
            open: matches.get_flag("open"),
        }
    };
    Ok(Some(JointAsked {
        written,
        case,
        without,
        older,
        reach: matches.get_flag("reach"),
    }))
}
