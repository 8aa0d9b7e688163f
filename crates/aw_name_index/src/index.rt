ghost use Rattle.std.specs.Prelude.{◌≡◌, ◌++◌, ◌∷◌, [], true, false, not, if◌then◌else◌, OnOk, OnErr, IfOk, IfSome, MatchOption, ◌<◌, ◌≤◌, length};
ghost use Rattle.aw_name_index.specs.Places.{place_of, stands, number_of, any_stands, all_stand, has_double};

use aw_list::Text;
use indexmap::IndexSet;
use std::alloc::{AllocError, Global};
use std::marker::Model;

/// How many guesses an index keeps.
const GUESSES: usize = 64;

/// Names in a row, each once. Beside them stand guesses at their places, which look-ups try first: a guess is right where the name
/// at that place is the one sought, and any other costs no more than that comparison. Contracts see the list of the names.
#[derive(Debug, Drop)]
pub struct NameIndex {
    names: IndexSet<Vec<u8>>,
    guesses: [u8; 64],
}

impl Model for NameIndex {
    ghost use Rattle.std.specs.Prelude.{ℕ, List, map};
    ghost use Rattle.std.specs.declared.vec.Vec.{Vec};

    ghost Value = { List (List ℕ) };

    ghost view = { λ x. map (λ name. name.items) x.names.keys };
}

/// Which guess is for a name of one byte, or of none.
fn short_guess(name: &[u8]) -> usize
    ensures { result < 64 }
{
    match name {
        [only, ..] => usize::from(*only) % GUESSES,
        [] => 0,
    }
}

/// Which guess is for a name: a number made of its length, its first byte and its last two, since names that are alike mostly
/// differ there.
fn guess_of(name: &[u8]) -> usize
    ensures { result < 64 }
{
    let n = name.len();
    if n < 2 {
        return short_guess(name);
    }
    let first = usize::from(name[0]);
    let before = usize::from(name[n - 2]);
    let last = usize::from(name[n - 1]);
    (n % GUESSES + first * 7 + before * 10 + last) % GUESSES
}

impl NameIndex {
    /// An index of no names.
    pub fn new(alloc: Global) -> NameIndex
        ensures { result ≡ [] }
    {
        NameIndex {
            names: IndexSet::new(alloc),
            guesses: [0; 64],
        }
    }

    /// An index of no names, with room for this many.
    pub fn with_capacity(alloc: Global, n: usize) -> Result<NameIndex, AllocError>
        ensures { IfOk result (λ index. index ≡ []) }
    {
        Ok(NameIndex {
            names: IndexSet::with_capacity(alloc, n)?,
            guesses: [0; 64],
        })
    }

    /// Where a name stands, counted from 0.
    pub fn find(&self, name: &[u8]) -> Option<usize>
        ensures place { result ≡ place_of name.now self.now }
        ensures within { IfSome result (λ i. i < length self.now) }
    {
        let guess = usize::from(self.guesses[guess_of(name)]);
        if let Some(known) = self.names.as_slice().get(guess) {
            if known.as_slice() == name {
                return Some(guess);
            }
        }
        self.names.get_index_of(name)
    }

    /// Whether a name stands in the list.
    pub fn contains(&self, name: &[u8]) -> bool
        ensures { result ≡ stands name.now self.now }
    {
        self.find(name).is_some()
    }

    /// Where a name that stands in the list stands, counted from 0.
    pub fn place(&self, name: &[u8]) -> usize
        requires { stands name.now self.now ≡ true }
        ensures value { result ≡ number_of name.now self.now }
        ensures within { result < length self.now }
    {
        self.find(name).unwrap()
    }

    /// The place of a name, or past the last where it does not stand.
    pub fn number(&self, name: &[u8]) -> usize
        ensures value { result ≡ number_of name.now self.now }
        ensures within { result ≤ length self.now }
    {
        match self.find(name) {
            Some(place) => place,
            None => self.names.len(),
        }
    }

    /// Adds a name that does not stand yet, at the end. An error changes nothing.
    pub fn push(&mut self, name: &[u8]) -> Result<(), AllocError>
        requires { stands name.now self.old ≡ false }
        ensures ok { OnOk result (self.new ≡ self.old ++ name.now ∷ []) }
        ensures err { OnErr result (self.new ≡ self.old) }
    {
        let place = self.names.len();
        self.names.insert(name.to_vec(*self.names.allocator())?)?;
        self.guesses[guess_of(name)] = (place % 256) as u8;
        Ok(())
    }

    /// Adds a name at the end where it does not stand yet, and tells whether it is new. An error changes nothing.
    pub fn insert(&mut self, name: &[u8]) -> Result<bool, AllocError>
        ensures told { IfOk result (λ new. new ≡ not (stands name.now self.old)) }
        ensures ok { OnOk result (self.new ≡ (if stands name.now self.old then self.old else self.old ++ name.now ∷ [])) }
        ensures err { OnErr result (self.new ≡ self.old) }
    {
        let (place, new) = self
            .names
            .insert_full(name.to_vec(*self.names.allocator())?)?;
        self.guesses[guess_of(name)] = (place % 256) as u8;
        Ok(new)
    }

    /// Whether one of these names stands in the list.
    pub fn contains_any(&self, names: &[Text]) -> bool
        ensures { result ≡ any_stands names.now self.now }
    {
        for name in names {
            if self.contains(name.as_slice()) {
                return true;
            }
        }
        false
    }

    /// Whether each of these names stands in the list.
    pub fn contains_all(&self, names: &[Text]) -> bool
        ensures { result ≡ all_stand names.now self.now }
    {
        for name in names {
            if !self.contains(name.as_slice()) {
                return false;
            }
        }
        true
    }

    /// The index of these names, or `None` where one of them stands twice.
    pub fn of_names(alloc: Global, names: &[Text]) -> Result<Option<NameIndex>, AllocError>
        ensures { IfOk result (λ found. MatchOption found (has_double names.now ≡ true) (λ index. (has_double names.now ≡ false) × (index ≡ names.now))) }
    {
        let mut index = NameIndex::with_capacity(alloc, names.len())?;
        for name in names {
            if !index.insert(name.as_slice())? {
                return Ok(None);
            }
        }
        Ok(Some(index))
    }
}
