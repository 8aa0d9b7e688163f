//! What a trial counts while it goes on.

/// The number from which the next one is drawn; how many cases were started; how many choices were made, the starts aside, and how
/// many of them were taken; and how many deliveries brought nothing new.
#[derive(Clone, Copy, Debug, PartialEq, Eq)]
pub struct Tally {
    pub seed: u64,
    pub starts: u64,
    pub choices: u64,
    pub taken: u64,
    pub repeats: u64,
}
