//! What is counted of an entry.
use aw_choice::Answer;
use aw_list::Text;
use aw_spelling::push_number;
use std::alloc::AllocError;

/// Where the number made of no bytes stands.
const BEGIN: u64 = 14_695_981_039_346_656_037;

/// What the number is multiplied by at each byte.
const FACTOR: u64 = 1_099_511_628_211;

/// How many choices got each kind of answer, how many runs there were and in how many of them both told the same, how many bytes
/// were told over whole trees, and a number made of all of them.
#[derive(Clone, Copy)]
pub struct Tally {
    runs: u64,
    alike: u64,
    choices: u64,
    taken: u64,
    known: u64,
    not_here: u64,
    developed: u64,
    not_its_rule: u64,
    arguments: u64,
    waiting: u64,
    differing: u64,
    circles: u64,
    too_deep: u64,
    bytes: u64,
    number: u64,
}

/// Adds one.
fn count(counted: &mut u64) {
    *counted = counted.wrapping_add(1);
}

/// Adds a word and a number.
fn push_count(told: &mut Text, word: &[u8], number: u64) -> Result<(), AllocError> {
    told.push_bytes(word)?;
    push_number(told, number)
}

impl Tally {
    /// Nothing was counted yet.
    pub fn new() -> Tally {
        Tally {
            runs: 0,
            alike: 0,
            choices: 0,
            taken: 0,
            known: 0,
            not_here: 0,
            developed: 0,
            not_its_rule: 0,
            arguments: 0,
            waiting: 0,
            differing: 0,
            circles: 0,
            too_deep: 0,
            bytes: 0,
            number: BEGIN,
        }
    }

    /// Counts a choice and its answer.
    pub fn count_answer(&mut self, answer: &Answer) {
        count(&mut self.choices);
        match answer {
            Answer::Taken => count(&mut self.taken),
            Answer::Known => count(&mut self.known),
            Answer::NotHere => count(&mut self.not_here),
            Answer::Developed => count(&mut self.developed),
            Answer::NotItsRule => count(&mut self.not_its_rule),
            Answer::Arguments => count(&mut self.arguments),
            Answer::Waits(_) => count(&mut self.waiting),
            Answer::Differs(_) => count(&mut self.differing),
            Answer::Circle(_) => count(&mut self.circles),
            Answer::TooDeep => count(&mut self.too_deep),
        }
    }

    /// Counts a run, and the bytes that were told of it over whole trees.
    pub fn count_run(&mut self, trees: &Option<Text>, equations: &Option<Text>) {
        count(&mut self.runs);
        if trees == equations {
            count(&mut self.alike);
        }
        if let Some(text) = trees {
            for byte in text.as_slice() {
                count(&mut self.bytes);
                self.number = (self.number ^ u64::from(*byte)).wrapping_mul(FACTOR);
            }
        }
    }

    /// Adds how many choices there were, and how many got each of the first four kinds of answer.
    fn push_choices(&self, told: &mut Text) -> Result<(), AllocError> {
        push_count(told, b"choices ", self.choices)?;
        push_count(told, b": taken ", self.taken)?;
        push_count(told, b", known ", self.known)?;
        push_count(told, b", not here ", self.not_here)?;
        push_count(told, b", developed ", self.developed)
    }

    /// Adds how many choices got each of the other kinds of answer.
    fn push_refused(&self, told: &mut Text) -> Result<(), AllocError> {
        push_count(told, b", wrong rule ", self.not_its_rule)?;
        push_count(told, b", arguments ", self.arguments)?;
        push_count(told, b", waiting ", self.waiting)?;
        push_count(told, b", mismatch ", self.differing)?;
        push_count(told, b", circle ", self.circles)?;
        push_count(told, b", too deep ", self.too_deep)
    }

    /// Adds how many runs there were, and what was told of them.
    fn push_runs(&self, told: &mut Text) -> Result<(), AllocError> {
        push_count(told, b"\nbytes ", self.bytes)?;
        push_count(told, b", as a number ", self.number)?;
        push_count(told, b"\nruns ", self.runs)?;
        push_count(told, b", alike ", self.alike)?;
        told.push_bytes(b"\n")
    }

    /// Adds what was counted.
    pub fn push_told(&self, told: &mut Text) -> Result<(), AllocError> {
        self.push_choices(told)?;
        self.push_refused(told)?;
        self.push_runs(told)
    }
}
