//! The words of the command line.
use crate::asked::{Asked, CaseName, TaskView};
use crate::join_words::{cases_command, join_command};
use aw_list::Text;
use aw_spelling::number_value;
use clap::{Arg, ArgAction, ArgMatches, Command};
use std::alloc::{AllocError, Global};

/// The version that `--version` tells.
const VERSION: &str = "0.3.0";

/// What the words of a command ask for.
#[derive(Drop)]
pub enum Words<'a> {
    /// Something of each file.
    OfFiles(Asked),
    /// How each file stands, and whether it goes on from the older copy of this name.
    OfCopies { asked: Asked, older: &'a str },
    /// The tasks of a journal; again and again where they are followed.
    OfTasks { view: TaskView, follows: bool },
    /// The word that should name a case names none.
    NoCase,
}

/// The files of a command, at least one.
fn files<'a>(alloc: Global) -> Arg<'a> {
    file(alloc).action(ArgAction::Append).num_args(1..)
}

/// The file of a command.
fn file<'a>(alloc: Global) -> Arg<'a> {
    Arg::new(alloc, "file")
        .value_name("FILE")
        .help("The journal of a role")
        .required(true)
}

/// A word that is there or not.
fn flag<'a>(alloc: Global, name: &'static str, help: &'static str) -> Arg<'a> {
    Arg::new(alloc, name)
        .long(name)
        .help(help)
        .action(ArgAction::SetTrue)
}

/// The words of `check`.
fn check<'a>(alloc: Global) -> Result<Command<'a>, AllocError> {
    let digest = "Add the SHA-256 digest of the bytes that count";
    let redo = "Do each event again, as a node would that starts on it";
    let older = Arg::new(alloc, "begins-with")
        .long("begins-with")
        .value_name("OLD")
        .help("Tell whether each goes on from this older copy")
        .action(ArgAction::Set);
    Command::new(alloc, "check")
        .about("Tell how the file of each journal stands, a line for each")
        .arg(flag(alloc, "digest", digest))?
        .arg(flag(alloc, "redo", redo))?
        .arg(older)?
        .arg(files(alloc))
}

/// The words of `tasks`.
fn tasks<'a>(alloc: Global) -> Result<Command<'a>, AllocError> {
    let case = Arg::new(alloc, "case")
        .long("case")
        .value_name("SORT#NUMBER")
        .help("Those of one case alone")
        .action(ArgAction::Set);
    let follow =
        "Write them again after each line of standard input, an empty line behind each time";
    Command::new(alloc, "tasks")
        .about(
            "Write the tasks of a journal with their values, and how each rule stands at the open ones",
        )
        .arg(case)?
        .arg(flag(alloc, "open", "The open ones alone"))?
        .arg(flag(alloc, "follow", follow))?
        .arg(file(alloc))
}

/// The command line, as `--help` tells it.
pub fn command<'a>(alloc: Global) -> Result<Command<'a>, AllocError> {
    let spec = Command::new(alloc, "spec")
        .about("Write the specification of each journal")
        .arg(files(alloc))?;
    let events = Command::new(alloc, "events")
        .about("Write the events of each journal, a line for each")
        .arg(files(alloc))?;
    Command::new(alloc, "aw_book")
        .version(VERSION)
        .about("Read the journals of nodes; no file is changed")
        .subcommand_required(true)
        .subcommand(spec)?
        .subcommand(check(alloc)?)?
        .subcommand(events)?
        .subcommand(tasks(alloc)?)?
        .subcommand(cases_command(alloc)?)?
        .subcommand(join_command(alloc)?)
}

/// The case that a word names, as `visit#1`.
fn case_of(alloc: Global, word: &str) -> Result<Option<CaseName>, AllocError> {
    let Some((sort, digits)) = word.split_once('#') else {
        return Ok(None);
    };
    match number_value(digits.as_bytes()) {
        Some(number) => Ok(Some(CaseName {
            sort: Text::from_bytes(alloc, sort.as_bytes())?,
            number,
        })),
        None => Ok(None),
    }
}

/// What the words of `check` ask for.
fn check_words<'a>(matches: &ArgMatches<'a>) -> Words<'a> {
    let asked = Asked::Check {
        digest: matches.get_flag("digest"),
        redo: matches.get_flag("redo"),
    };
    match matches.get_str("begins-with") {
        Some(older) => Words::OfCopies { asked, older },
        None => Words::OfFiles(asked),
    }
}

/// What the words of `tasks` ask for.
fn tasks_words<'a>(alloc: Global, matches: &ArgMatches<'a>) -> Result<Words<'a>, AllocError> {
    let case = match matches.get_str("case") {
        None => None,
        Some(word) => match case_of(alloc, word)? {
            Some(case) => Some(case),
            None => return Ok(Words::NoCase),
        },
    };
    Ok(Words::OfTasks {
        view: TaskView {
            case,
            only_open: matches.get_flag("open"),
        },
        follows: matches.get_flag("follow"),
    })
}

/// What the words of a command ask for; nothing where there is no such command.
pub fn words_of<'a>(
    alloc: Global,
    name: &str,
    matches: &ArgMatches<'a>,
) -> Result<Option<Words<'a>>, AllocError> {
    match name {
        "spec" => Ok(Some(Words::OfFiles(Asked::Spec))),
        "check" => Ok(Some(check_words(matches))),
        "events" => Ok(Some(Words::OfFiles(Asked::Events))),
        "tasks" => Ok(Some(tasks_words(alloc, matches)?)),
        _ => Ok(None),
    }
}
