//! Files of journals that are read and never written. It reads each in pieces of 1 byte and of 4096, and tells its head, its events and how
//! it stands; then it reads each again with each read failing once, and tells whether all were told.
use aw_disk::{DiskCalls, MemPages, Pages};
use aw_journal::{Begun, NodeEvent, ReadFault, Records, Standing};
use aw_list::Text;
use aw_spelling::push_number;
use bstr::ByteSlice;
use std::alloc::{AllocError, Global};

/// The sizes of the pieces.
const PIECES: [usize; 2] = [1, 4096];

/// More reads than a file of the table takes.
const MOST_READS: usize = 20_000;

fn standing_word(standing: Standing) -> &'static [u8] {
    match standing {
        Standing::Empty => b"empty",
        Standing::Headless => b"headless",
        Standing::Sound => b"sound",
        Standing::Cut => b"cut",
        Standing::Damaged => b"damaged",
    }
}

fn event_word(event: &NodeEvent) -> &'static [u8] {
    match event {
        NodeEvent::Took(_) => b" took",
        NodeEvent::Got(_) => b" got",
    }
}

/// Adds the role and the text of a head.
fn push_head(alloc: Global, told: &mut Text, role: u16, text: &[u8]) -> Result<(), AllocError> {
    told.push_bytes(b"head ")?;
    push_number(told, u64::from(role))?;
    told.push_bytes(b" ")?;
    told.push_bytes(hex::encode(alloc, text)?.as_bytes())
}

/// Adds the head of a file, if one stands whole. Gives the records behind it.
fn push_begun(alloc: Global, told: &mut Text, begun: Begun) -> Result<Records, AllocError> {
    match begun {
        Begun::Whole {
            role,
            text,
            records,
        } => {
            push_head(alloc, told, role, text.as_slice())?;
            Ok(records)
        }
        Begun::Headless { records } => {
            told.push_bytes(b"no head")?;
            Ok(records)
        }
    }
}

/// Adds the events of a file.
fn push_events<P: Pages>(
    alloc: Global,
    told: &mut Text,
    records: &mut Records,
    pages: &mut P,
) -> Result<(), ReadFault> {
    for _ in 0..MOST_READS {
        match records.next(alloc, pages)? {
            Some(event) => told.push_bytes(event_word(&event))?,
            None => return Ok(()),
        }
    }
    Ok(())
}

/// Adds what a file has.
fn push_pages<P: Pages>(alloc: Global, told: &mut Text, pages: &mut P) -> Result<(), ReadFault> {
    let begun = Records::begin(alloc, pages)?;
    let mut records = push_begun(alloc, told, begun)?;
    push_events(alloc, told, &mut records, pages)?;
    let ending = records.standing(alloc, pages)?;
    told.push_bytes(b" ")?;
    told.push_bytes(standing_word(ending.standing))?;
    told.push_bytes(b" ")?;
    push_number(told, ending.tail)?;
    Ok(())
}

/// What is told of a file that is read in pieces of this size, where the reads of these numbers fail.
fn told_of(alloc: Global, bytes: &[u8], piece: usize, fails: &[usize]) -> Result<Text, ReadFault> {
    let mut told = Text::new(alloc);
    let bytes = Text::from_bytes(alloc, bytes)?;
    let fails = DiskCalls::from_slice(alloc, fails)?;
    let mut pages = MemPages::new(bytes, piece, fails);
    push_pages(alloc, &mut told, &mut pages)?;
    drop(pages);
    Ok(told)
}

/// Whether each read that fails is told, up to the first number that is not reached, with which the file reads as ever.
fn tells_failures(
    alloc: Global,
    bytes: &[u8],
    piece: usize,
    whole: &[u8],
) -> Result<bool, AllocError> {
    for number in 0..MOST_READS {
        match told_of(alloc, bytes, piece, &[number]) {
            Ok(told) => return Ok(number > 0 && told.as_slice() == whole),
            Err(ReadFault::Failed) => {}
            Err(ReadFault::NoMemory) => return Err(AllocError),
        }
    }
    Ok(false)
}

/// Adds what a file has that is read in pieces of this size.
fn push_piece(
    alloc: Global,
    told: &mut Text,
    bytes: &[u8],
    piece: usize,
) -> Result<(), AllocError> {
    push_number(told, piece as u64)?;
    told.push_bytes(b" ")?;
    let whole = match told_of(alloc, bytes, piece, &[]) {
        Ok(whole) => whole,
        Err(ReadFault::Failed) => return told.push_bytes(b"failed\n"),
        Err(ReadFault::NoMemory) => return Err(AllocError),
    };
    told.push_bytes(whole.as_slice())?;
    let all = tells_failures(alloc, bytes, piece, whole.as_slice())?;
    told.push_bytes(if all {
        b", each failure told\n"
    } else {
        b", a failure not told\n"
    })
}

/// Adds what a file of the input has.
fn push_line(alloc: Global, told: &mut Text, line: &[u8]) -> Result<(), AllocError> {
    told.push_bytes(line)?;
    told.push_bytes(b"\n")?;
    let Ok(bytes) = hex::decode(alloc, line) else {
        return told.push_bytes(b"not read\n");
    };
    for piece in PIECES {
        push_piece(alloc, told, bytes.as_slice(), piece)?;
    }
    Ok(())
}

/// Adds all that is told.
pub fn push_standings(alloc: Global, told: &mut Text, input: &[u8]) -> Result<(), AllocError> {
    for line in input.lines() {
        push_line(alloc, told, line)?;
    }
    Ok(())
}
