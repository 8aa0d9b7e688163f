//! The words of a command line.
ghost use Rattle.std.specs.Prelude.{◌≡◌, IfOk};
ghost use Rattle.aw_run.specs.Words.{command_of, command_named, kept_named, node_named, numbered, role_word, session_count};

use aw_spelling::number_value;
use std::alloc::{AllocError, Global};
use std::marker::Model;

/// One word, as bytes.
#[derive(Drop)]
pub struct Word {
    bytes: Vec<u8>,
}

impl Model for Word {
    ghost use Rattle.std.specs.Prelude.{List, ℕ};

    ghost Value = { List ℕ };

    ghost view = { λ w. w.bytes.items };
}

impl Word {
    /// A word of these bytes.
    pub fn from_bytes(alloc: Global, bytes: &[u8]) -> Result<Word, AllocError>
        ensures { IfOk result (λ word. word ≡ bytes.now) }
    {
        Ok(Word {
            bytes: bytes.to_vec(alloc)?,
        })
    }

    /// The word's bytes.
    pub fn as_bytes(&self) -> &[u8]
        ensures { result.now ≡ self.now }
    {
        self.bytes.as_slice()
    }
}

/// How the events of a schedule are told.
#[derive(Clone, Copy, Debug, PartialEq, Eq)]
pub enum Telling {
    /// The choices alone, answered by the undivided run, and its artifacts.
    Undivided,
    /// Each event, done between one site for each role.
    Replayed,
}

/// What is made of an input that is read to its end.
#[derive(Clone, Copy, Debug, PartialEq, Eq)]
pub enum Job {
    /// A specification is tried for circles, and its dependences are told.
    Check,
    /// The schedule behind a specification is told.
    Tells(Telling),
}

/// What the program is asked to do.
#[derive(Clone, Copy, Debug, PartialEq, Eq)]
pub enum Command {
    /// To read the source to its end, and to make this of it.
    Reads(Job),
    /// To make a trial, drawn from this number. Nothing is read.
    Tries { number: u64 },
    /// To read the source to its end, and to serve a role of it in so many sessions. The role's name is the second word.
    Serves { sessions: u32 },
    /// The same, with each event of the role on the disk before its reply is written.
    Keeps { sessions: u32 },
    /// To read the source to its end, and to carry messages between the nodes of its roles in so many rounds, or until nothing moves.
    Carries { rounds: u64 },
}

/// The most sessions that a node serves.
const MOST_SESSIONS: u64 = 1_000_000;

/// How many sessions a word asks for: a number from 1 to the most that there may be.
fn session_count(word: &[u8]) -> Option<u32>
    ensures { result ≡ session_count word.now }
{
    match number_value(word) {
        Some(count) if 1 <= count && count <= MOST_SESSIONS => Some(count as u32),
        _ => None,
    }
}

/// The word that names a role.
pub fn role_word(words: &[Word]) -> &[u8]
    ensures { result.now ≡ role_word words.now }
{
    match words {
        [_, role, ..] => role.as_bytes(),
        _ => b"",
    }
}

impl Command {
    /// The command that the words spell, if they spell one.
    pub fn from_words(words: &[Word]) -> Option<Command>
        ensures { result ≡ command_of words.now }
    {
        match words {
            [word] => Command::from_word(word.as_bytes()),
            [word, number] => Command::from_number(word.as_bytes(), number.as_bytes()),
            [word, _, sessions] => Command::from_node(word.as_bytes(), sessions.as_bytes()),
            [word, _, sessions, last] => {
                Command::from_kept(word.as_bytes(), sessions.as_bytes(), last.as_bytes())
            }
            _ => None,
        }
    }

    fn from_number(word: &[u8], number: &[u8]) -> Option<Command>
        ensures { result ≡ numbered word.now number.now }
    {
        if word == b"trial".as_slice() {
            let number = number_value(number)?;
            return Some(Command::Tries { number });
        }
        if word == b"courier".as_slice() {
            let rounds = number_value(number)?;
            return Some(Command::Carries { rounds });
        }
        None
    }

    fn from_node(word: &[u8], sessions: &[u8]) -> Option<Command>
        ensures { result ≡ node_named word.now sessions.now }
    {
        if word != b"node".as_slice() {
            return None;
        }
        let sessions = session_count(sessions)?;
        Some(Command::Serves { sessions })
    }

    fn from_kept(word: &[u8], sessions: &[u8], last: &[u8]) -> Option<Command>
        ensures { result ≡ kept_named word.now sessions.now last.now }
    {
        if word != b"node".as_slice() {
            return None;
        }
        if last != b"kept".as_slice() {
            return None;
        }
        let sessions = session_count(sessions)?;
        Some(Command::Keeps { sessions })
    }

    fn from_word(word: &[u8]) -> Option<Command>
        ensures { result ≡ command_named word.now }
    {
        if word == b"check".as_slice() {
            return Some(Command::Reads(Job::Check));
        }
        if word == b"plain".as_slice() {
            return Some(Command::Reads(Job::Tells(Telling::Undivided)));
        }
        if word == b"replay".as_slice() {
            return Some(Command::Reads(Job::Tells(Telling::Replayed)));
        }
        None
    }
}
