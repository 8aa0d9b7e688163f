//! What an entry asks for.
use aw_spelling::{cut_at, number_value};

/// Where the drawing begins, how many runs are drawn, how many choices each has, and how many cases are started.
#[derive(Clone, Copy)]
pub struct Asked {
    pub seed: u64,
    pub runs: u64,
    pub choices: u64,
    pub cases: u64,
}

/// The number that stands in front of a blank, and what stands behind.
fn number_before(line: &[u8]) -> Option<(u64, &[u8])> {
    let (word, rest) = cut_at(line, b' ')?;
    Some((number_value(word)?, rest))
}

/// The four numbers of a line.
pub fn read_asked(line: &[u8]) -> Option<Asked> {
    let (seed, rest) = number_before(line)?;
    let (runs, rest) = number_before(rest)?;
    let (choices, rest) = number_before(rest)?;
    let cases = number_value(rest)?;
    Some(Asked {
        seed,
        runs,
        choices,
        cases,
    })
}
