//! How the file of a journal stands.

/// What a node would make of a file.
#[derive(Clone, Copy, Debug, PartialEq, Eq)]
pub enum Standing {
    /// No bytes: a node begins a journal there.
    Empty,
    /// No head stands whole: a node writes one over it, or refuses it.
    Headless,
    /// The last gate is closed, and nothing stands behind it.
    Sound,
    /// Its end is one that a crash can leave: a node cuts it off.
    Cut,
    /// Whole records stand behind the first gate that does not count: a node would cut them off.
    Damaged,
}
