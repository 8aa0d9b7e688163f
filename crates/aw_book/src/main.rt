//! The program `aw_book`: it reads the journals of nodes, and changes none.
#![tactic(auto)]

mod asked;
mod blocked;
mod checks;
mod copies;
mod events;
mod faults;
mod following;
mod heads;
mod join_words;
mod joining;
mod joint;
mod joint_files;
mod offices;
mod older;
mod open_lines;
mod printable;
mod reading;
mod redoing;
mod senders;
mod sentences;
mod tasks;
mod words;

use crate::asked::{Asked, TaskView};
use crate::checks::tell_check;
use crate::events::tell_events;
use crate::faults::{BookStop, FileFault};
use crate::following::follow_tasks;
use crate::heads::tell_spec;
use crate::joint_files::tell_joint;
use crate::older::tell_older;
use crate::sentences::{sentence_of, status_of, stop_sentence, stop_status};
use crate::tasks::tell_tasks;
use crate::words::{Words, command, words_of};
use aw_disk::FilePages;
use aw_out::{StdSink, StdSource};
use std::env;
use std::fs::File;
use std::process::ExitCode;
use std::rt::{Env, Files};

/// The status of words that are no command.
const USAGE: u8 = 2;

/// The status of a run for which there is not enough memory.
const NO_MEMORY: u8 = 5;

/// Tells what is asked of a file.
fn tell_file<R: Files<File = File> + Print + AllocGlobal>(
    rt: &R,
    asked: Asked,
    name: &str,
) -> Result<Option<FileFault>, BookStop> {
    let alloc = rt.alloc();
    let mut pages = FilePages::new(rt, name);
    let mut out = StdSink::new(rt);
    match asked {
        Asked::Spec => tell_spec(alloc, &mut pages, &mut out),
        Asked::Check { digest, redo } => {
            tell_check(alloc, name.as_bytes(), &mut pages, digest, redo, &mut out)
        }
        Asked::Events => tell_events(alloc, &mut pages, &mut out),
    }
}

/// Tells what is asked of a file, and where nothing is wrong with it, whether it goes on from an older copy, where one is named.
fn tell_copy<R: Files<File = File> + Print + AllocGlobal>(
    rt: &R,
    asked: Asked,
    older: Option<&str>,
    name: &str,
) -> Result<Option<FileFault>, BookStop> {
    match (tell_file(rt, asked, name)?, older) {
        (None, Some(older)) => tell_older(
            rt.alloc(),
            &mut FilePages::new(rt, older),
            &mut FilePages::new(rt, name),
        ),
        (fault, _) => Ok(fault),
    }
}

/// Tells the tasks of a journal, once, or again and again as standard input asks.
fn tell_view<R: Files<File = File> + Input + Print + AllocGlobal>(
    rt: &R,
    view: &TaskView,
    follows: bool,
    name: &str,
) -> Result<Option<FileFault>, BookStop> {
    let alloc = rt.alloc();
    let mut pages = FilePages::new(rt, name);
    let mut out = StdSink::new(rt);
    if follows {
        follow_tasks(alloc, &mut pages, view, &mut StdSource::new(rt), &mut out)
    } else {
        tell_tasks(alloc, &mut pages, view, &mut out)
    }
}

/// Says in one sentence what is wrong with a file, or why nothing more is told, and gives the status. The second is whether more is told.
fn say<R: Eprint + AllocGlobal>(
    rt: &R,
    name: &str,
    told: Result<Option<FileFault>, BookStop>,
) -> anyhow::Result<(u8, bool)> {
    match told {
        Ok(None) => Ok((0, true)),
        Ok(Some(fault)) => {
            let sentence = sentence_of(name, &fault);
            eprintln!(rt; "aw_book: {sentence}")?;
            Ok((status_of(&fault), true))
        }
        Err(stop) => {
            let sentence = stop_sentence(stop);
            eprintln!(rt; "aw_book: {sentence}")?;
            Ok((stop_status(stop), false))
        }
    }
}

/// Tells what is asked of each file, and says what is wrong with it in one sentence. The greatest status is told.
fn tell<R: Files<File = File> + Print + Eprint + AllocGlobal>(
    rt: &R,
    asked: Asked,
    older: Option<&str>,
    names: &[&str],
) -> anyhow::Result<u8> {
    let mut greatest = 0u8;
    for name in names {
        let (status, more) = say(rt, name, tell_copy(rt, asked, older, name))?;
        greatest = greatest.max(status);
        if !more {
            return Ok(greatest);
        }
    }
    Ok(greatest)
}

/// Does what the words of a command ask for, of these files.
fn tell_words<R: Files<File = File> + Input + Print + Eprint + AllocGlobal>(
    rt: &R,
    words: Words<'_>,
    names: &[&str],
) -> anyhow::Result<u8> {
    match words {
        Words::OfFiles(asked) => tell(rt, asked, None, names),
        Words::OfCopies { asked, older } => tell(rt, asked, Some(older), names),
        Words::OfTasks { view, follows } => {
            let name = names.first().copied().unwrap_or("");
            let (status, _) = say(rt, name, tell_view(rt, &view, follows, name))?;
            Ok(status)
        }
        Words::NoCase => {
            eprintln!(rt; "aw_book: a case is named by its sort and its number, as visit#1")?;
            Ok(USAGE)
        }
    }
}

/// Does what these words ask for, of which the first is the program's name.
fn answer<'a, R: Files<File = File> + Input + Print + Eprint + AllocGlobal>(
    rt: &R,
    words: &'a [String],
) -> anyhow::Result<u8> {
    let matches = match command::<'a>(rt.alloc())?.try_get_matches_from(words) {
        Ok(matches) => matches,
        Err(error) => {
            error.print(rt)?;
            return Ok(error.exit_code() as u8);
        }
    };
    let Some((name, inner)) = matches.subcommand() else {
        return Ok(USAGE);
    };
    if name == "join" || name == "cases" {
        return tell_joint(rt, name, inner);
    }
    match (words_of(rt.alloc(), name, inner)?, inner.get_strs("file")) {
        (Some(asked), Some(names)) => tell_words(rt, asked, names),
        _ => Ok(USAGE),
    }
}

/// Does what the words after the program's name ask for.
fn run<R: Env + Files<File = File> + Input + Print + Eprint + AllocGlobal>(
    rt: &R,
) -> anyhow::Result<u8> {
    let words: Vec<String> = env::args(rt)?.collect(rt.alloc())?;
    answer(rt, words.as_slice())
}

fn main(rt: HostRuntime) -> ExitCode {
    ExitCode::from(run(&rt).unwrap_or(NO_MEMORY))
}
