//! A few numbers in a row.
ghost use Rattle.std.specs.Prelude.{◌≡◌, ◌<◌, ◌≤◌, ◌++◌, [], Some, true, false, IfOk, length, insert, slice_get};

use crate::inserting::insert_number;
use std::alloc::{AllocError, Global};
use std::marker::Model;

/// A chunk has at most so many numbers.
pub(crate) const CHUNK: usize = 512;

/// Half of them.
pub(crate) const HALF: usize = 256;

/// At most 512 numbers, with memory for so many from the start. Contracts see the numbers.
#[derive(Drop)]
pub struct Chunk {
    numbers: Vec<u32>,
}

impl Model for Chunk {
    ghost use Rattle.std.specs.Prelude.{ℕ, List, ◌≤◌, vec_len, vec_capacity};

    ghost Value = { List ℕ };

    ghost view = { λ c. c.numbers.items };

    ghost invariant = { λ c. (vec_len c.numbers ≤ 512) × (512 ≤ vec_capacity c.numbers) };
}

impl Chunk {
    /// An empty chunk, with its memory.
    pub(crate) fn new(alloc: Global) -> Result<Chunk, AllocError>
        ensures { IfOk result (λ c. c ≡ []) }
    {
        Ok(Chunk {
            numbers: Vec::with_capacity(alloc, CHUNK)?,
        })
    }

    /// Whether no more numbers fit.
    pub(crate) fn is_full(&self) -> bool
        ensures yes { result ≡ true → length self.now ≡ 512 }
        ensures no { result ≡ false → length self.now < 512 }
    {
        self.numbers.len() == CHUNK
    }

    /// The number at a place, from 0, which has to be there.
    pub(crate) fn at(&self, place: usize) -> u32
        requires { place < length self.now }
        ensures { slice_get self.now place ≡ Some result }
    {
        self.numbers[place]
    }

    /// Puts a number at a place, where it fits.
    pub(crate) fn put(&mut self, place: usize, number: u32)
        requires within { place ≤ length self.old }
        requires room { length self.old < 512 }
        ensures { self.new ≡ insert self.old place number }
    {
        insert_number(&mut self.numbers, place, number);
    }

    /// Moves the upper half of a full chunk into an empty one.
    pub(crate) fn halve(&mut self, upper: &mut Chunk)
        requires full { length self.old ≡ 512 }
        requires empty { upper.old ≡ [] }
        ensures whole { self.old ≡ self.new ++ upper.new }
        ensures lower { length self.new ≡ 256 }
        ensures upper { length upper.new ≡ 256 }
    {
        match upper.numbers.extend_from_slice(&self.numbers[HALF..]) {
            Ok(()) => {}
            Err(_) => unreachable!(),
        }
        self.numbers.truncate(HALF);
    }
}
