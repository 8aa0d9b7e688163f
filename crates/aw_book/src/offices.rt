//! The journals of all roles, opened to be joined.
use crate::faults::{BookStop, FileFault};
use crate::joint::{JointAsked, Said, unread};
use aw_base::role_name;
use aw_book_drive::{EventSource, JournalSource, OneCase, Selected, SourceFault};
use aw_book_read::HeadFault;
use aw_disk::Pages;
use aw_front::Opened;
use aw_grammar::Grammar;
use aw_journal::{Begun, Records};
use aw_list::{Text, is_same_text};
use std::alloc::{AllocError, Global};

/// The status of what is refused.
const REFUSED: u8 = 1;

/// The status of a file that was not read.
const UNREAD: u8 = 3;

/// Which events are asked for, and which roles have no journal.
#[derive(Drop)]
pub struct Choosing {
    pub case: Option<OneCase>,
    pub without: Vec<u16>,
}

/// The journals of all roles, from their heads on; and which file each is, counted from 0.
#[derive(Drop)]
pub struct Offices<P> {
    pub sources: Vec<Selected<JournalSource<P>>>,
    pub files: Vec<Option<usize>>,
}

impl<P: Drop> Offices<P> {
    /// No role has a journal.
    fn new(alloc: Global, roles: usize, case: Option<OneCase>) -> Result<Offices<P>, AllocError> {
        let mut sources = Vec::new(alloc);
        let mut files = Vec::new(alloc);
        for role in 0..roles {
            sources.push(Selected { source: None, case })?;
            files.push(None)?;
        }
        Ok(Offices { sources, files })
    }
}

/// The name of the file that is a role's journal, or of the role.
pub fn name_of<'a>(files: &[Option<usize>], names: &[&'a str], role: usize) -> &'a str {
    match files.get(role) {
        Some(Some(file)) => names.get(*file).copied().unwrap_or("a journal"),
        _ => "a journal",
    }
}

/// The name of a role; none where there is no such role.
pub fn name_of_role(grammar: &Grammar, role: usize) -> &[u8] {
    match u16::try_from(role) {
        Ok(role) => role_name(grammar, role),
        Err(_) => b"",
    }
}

/// Whether a role is named as one that has no journal.
fn is_without(choosing: &Choosing, role: usize) -> bool {
    for named in choosing.without.as_slice() {
        if usize::from(*named) == role {
            return true;
        }
    }
    false
}

/// The case that is asked for; nothing where its sort is not declared, which is said.
fn case_in(
    grammar: &Grammar,
    asked: &JointAsked<'_>,
    said: &mut Said,
) -> Result<Option<Option<OneCase>>, AllocError> {
    let Some((sort, number)) = asked.case else {
        return Ok(Some(None));
    };
    match grammar.sort_named(sort.as_bytes()) {
        Some(sort) => Ok(Some(Some(OneCase { sort, number }))),
        None => {
            said.push("the specification declares no sort ")?;
            said.push(sort)?;
            said.end(REFUSED)?;
            Ok(None)
        }
    }
}

/// What is asked for, by the numbers of the grammar; nothing where a name is not declared, which is said.
pub fn choosing_of(
    alloc: Global,
    grammar: &Grammar,
    asked: &JointAsked<'_>,
    said: &mut Said,
) -> Result<Option<Choosing>, AllocError> {
    let Some(case) = case_in(grammar, asked, said)? else {
        return Ok(None);
    };
    let mut without = Vec::new(alloc);
    for name in asked.without.as_slice() {
        match grammar.role_named(name.as_bytes()) {
            Some(role) => without.push(role)?,
            None => {
                said.push("the specification declares no role ")?;
                said.push(name)?;
                said.end(REFUSED)?;
                return Ok(None);
            }
        }
    }
    Ok(Some(Choosing { case, without }))
}

/// Says that two files are journals of one role.
fn say_twice(
    said: &mut Said,
    grammar: &Grammar,
    role: u16,
    name: &str,
    other: &str,
) -> Result<(), AllocError> {
    said.push(name)?;
    said.push(": it is a journal of ")?;
    said.push_any(role_name(grammar, role))?;
    said.push(", as ")?;
    said.push(other)?;
    said.push(" is")?;
    said.end(REFUSED)
}

/// A journal that was opened: what its head says, and its events.
#[derive(Drop)]
struct Journal<P> {
    role: u16,
    text: Text,
    source: JournalSource<P>,
}

/// Puts a journal in its role's place, where its head is that of the specification.
fn put_journal<P: Drop>(
    offices: &mut Offices<P>,
    opened: &Opened,
    names: &[&str],
    file: usize,
    journal: Journal<P>,
    said: &mut Said,
) -> Result<(), AllocError> {
    let Journal { role, text, source } = journal;
    let name = names.get(file).copied().unwrap_or("");
    let at = usize::from(role);
    if !is_same_text(&opened.text, &text) {
        said.push(name)?;
        said.push(": its specification is another one than that of the first journal")?;
        return said.end(REFUSED);
    }
    if at >= offices.sources.len() || at >= offices.files.len() {
        return said.push_fault(said.allocator(), name, &FileFault::Head(HeadFault::NoRole));
    }
    if let Some(other) = offices.files[at] {
        let other = names.get(other).copied().unwrap_or("");
        return say_twice(said, opened.accepted.grammar(), role, name, other);
    }
    offices.files[at] = Some(file);
    offices.sources[at].source = Some(source);
    Ok(())
}

/// Says which roles have no journal, and were not named as ones without.
pub fn say_missing(
    files: &[Option<usize>],
    grammar: &Grammar,
    choosing: &Choosing,
    said: &mut Said,
) -> Result<(), AllocError> {
    for role in 0..files.len() {
        let named = is_without(choosing, role);
        let name = name_of_role(grammar, role);
        if files[role].is_none() && !named {
            said.push("no journal of ")?;
            said.push_any(name)?;
            said.push(" is given: if it never served, say so by --without ")?;
            said.push_any(name)?;
            said.end(REFUSED)?;
        }
        if files[role].is_some() && named {
            said.push("a journal of ")?;
            said.push_any(name)?;
            said.push(" is given, which --without names")?;
            said.end(REFUSED)?;
        }
    }
    Ok(())
}

/// Says of which roles no older copy is given, and were not named as ones without.
pub fn say_no_copies(
    files: &[Option<usize>],
    grammar: &Grammar,
    choosing: &Choosing,
    said: &mut Said,
) -> Result<(), AllocError> {
    for role in 0..files.len() {
        if files[role].is_none() && !is_without(choosing, role) {
            said.push("no older copy of the journal of ")?;
            said.push_any(name_of_role(grammar, role))?;
            said.push(" is given behind --first")?;
            said.end(REFUSED)?;
        }
    }
    Ok(())
}

/// Opens a journal, and puts it in its role's place. Where it cannot be opened, that is said.
fn open_one<P: Pages + Drop>(
    offices: &mut Offices<P>,
    opened: &Opened,
    names: &[&str],
    file: usize,
    mut pages: P,
    said: &mut Said,
) -> Result<(), BookStop> {
    let name = names.get(file).copied().unwrap_or("");
    let begun = match Records::begin(said.allocator(), &mut pages) {
        Ok(begun) => begun,
        Err(fault) => {
            said.push_fault(said.allocator(), name, &unread(fault)?)?;
            return Ok(());
        }
    };
    match begun {
        Begun::Whole {
            role,
            text,
            records,
        } => {
            let source = JournalSource { pages, records };
            let journal = Journal { role, text, source };
            put_journal(offices, opened, names, file, journal, said)?;
        }
        Begun::Headless { records: _records } => {
            said.push_fault(said.allocator(), name, &FileFault::Headless)?;
        }
    }
    Ok(())
}

/// Opens journals, each for its role. Where one cannot be opened, or a role has two, that is said.
pub fn open_offices<P: Pages + Drop>(
    alloc: Global,
    opened: &Opened,
    names: &[&str],
    files: Vec<P>,
    choosing: &Choosing,
    said: &mut Said,
) -> Result<Offices<P>, BookStop> {
    let roles = opened.accepted.grammar().roles.len();
    let mut offices = Offices::new(alloc, roles, choosing.case)?;
    let mut file = 0usize;
    for pages in files {
        open_one(&mut offices, opened, names, file, pages, said)?;
        file = file.saturating_add(1);
    }
    Ok(offices)
}

/// How many events a source gives.
fn count_events<S: EventSource>(alloc: Global, source: &mut S) -> Result<u64, SourceFault> {
    for count in 0..u64::MAX {
        if source.next(alloc)?.is_none() {
            return Ok(count);
        }
    }
    Ok(u64::MAX)
}

/// Adds the count of one journal more.
fn push_count(counts: &mut Vec<u64>, count: u64) -> Result<(), AllocError> {
    counts.push(count)?;
    Ok(())
}

/// How many events stand in the journal of each role. Where one is not read to its end, that is said.
pub fn count_all<P: Pages + Drop>(
    alloc: Global,
    names: &[&str],
    offices: &mut Offices<P>,
    said: &mut Said,
) -> Result<Vec<u64>, BookStop> {
    let mut counts = Vec::new(alloc);
    for role in 0..offices.sources.len() {
        match count_events(alloc, &mut offices.sources[role]) {
            Ok(count) => push_count(&mut counts, count)?,
            Err(SourceFault::Unread) => {
                let name = name_of(offices.files.as_slice(), names, role);
                said.push_fault(alloc, name, &FileFault::Unread)?;
                push_count(&mut counts, 0)?;
            }
            Err(SourceFault::NoMemory) => return Err(BookStop::NoMemory),
        }
    }
    Ok(counts)
}
