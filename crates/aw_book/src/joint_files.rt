//! The journals of all roles, by the names of their files.
use crate::copies::Copies;
use crate::faults::BookStop;
use crate::join_words::joint_words;
use crate::joining::{Readings, tell_joined};
use crate::joint::{JointAsked, Said};
use crate::sentences::{stop_sentence, stop_status};
use aw_disk::FilePages;
use aw_out::StdSink;
use clap::ArgMatches;
use std::alloc::AllocError;
use std::fs::File;
use std::rt::Files;

/// The status of words that are no command.
const USAGE: u8 = 2;

/// The files of these names, each opened at its first read.
fn pages_of<'a, R: Files<File = File> + AllocGlobal>(
    rt: &'a R,
    names: &[&'a str],
) -> Result<Vec<FilePages<'a, R>>, AllocError> {
    let mut pages = Vec::new(rt.alloc());
    for name in names {
        pages.push(FilePages::new(rt, name))?;
    }
    Ok(pages)
}

/// Joins the journals in these files, and writes what is asked for.
fn join_named<'a, R: Files<File = File> + Print + AllocGlobal>(
    rt: &'a R,
    asked: &JointAsked<'a>,
    names: &[&'a str],
) -> Result<Said, BookStop> {
    let older = asked.older.as_slice();
    let first = if older.is_empty() { names } else { older };
    let readings = Readings {
        head: FilePages::new(rt, names.first().copied().unwrap_or("")),
        first: pages_of(rt, first)?,
        again: pages_of(rt, names)?,
        third: pages_of(rt, names)?,
        copies: Copies {
            older: pages_of(rt, older)?,
            newer: pages_of(rt, names)?,
        },
    };
    tell_joined(rt.alloc(), names, readings, asked, &mut StdSink::new(rt))
}

/// Writes sentences to standard error, each on a line of its own.
fn write_said<R: Eprint + AllocGlobal>(rt: &R, said: &Said) -> anyhow::Result<()> {
    for line in said.text.as_slice().split(|byte| *byte == b'\n') {
        if let Ok(line) = std::str::from_utf8(line) {
            if !line.is_empty() {
                eprintln!(rt; "aw_book: {line}")?;
            }
        }
    }
    Ok(())
}

/// Does what `join` or `cases` asks for, and gives the status.
pub fn tell_joint<'a, R: Files<File = File> + Print + Eprint + AllocGlobal>(
    rt: &R,
    name: &str,
    matches: &ArgMatches<'a>,
) -> anyhow::Result<u8> {
    let Some(names) = matches.get_strs("file") else {
        return Ok(USAGE);
    };
    let Some(asked) = joint_words(rt.alloc(), name, matches)? else {
        eprintln!(rt; "aw_book: a case is named by its sort and its number, as visit#1")?;
        return Ok(USAGE);
    };
    match join_named(rt, &asked, names) {
        Ok(said) => {
            write_said(rt, &said)?;
            Ok(said.status)
        }
        Err(stop) => {
            let sentence = stop_sentence(stop);
            eprintln!(rt; "aw_book: {sentence}")?;
            Ok(stop_status(stop))
        }
    }
}
