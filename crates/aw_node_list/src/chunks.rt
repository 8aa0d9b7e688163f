//! Numbers in chunks, each of which is found by the place at which it begins.
ghost use Rattle.std.specs.Prelude.{◌≡◌, ◌+◌, ◌-◌, ◌<◌, ◌≤◌, ◌^◌, ◌++◌, ◌∷◌, [], Some, true, false, All, OnOk, suc};
ghost use Rattle.std.specs.Prelude.{length, map as list_map, insert, slice_get, slice_index_or, vec_len, vec_capacity};
ghost use Rattle.std.specs.List.{concat};
ghost use Rattle.aw_node_list.specs.Chunks.{begins, begin_of, chunk_at, IsUnder, LiesIn, IsHalved};

use crate::chunk::{CHUNK, Chunk, HALF};
use std::alloc::{AllocError, Global};
use std::marker::Model;

/// So many numbers fit in at most, so that each place has 32 bits.
const MOST: usize = u32::MAX as usize;

/// Chunks, the place at which each begins, spare chunks, which are empty, and how many numbers there are in all. Contracts see
/// the chunks, and how many more can be begun with no more memory.
#[derive(Drop)]
pub struct Chunks {
    list: Vec<Chunk>,
    starts: Vec<u32>,
    spare: Vec<Chunk>,
    count: usize,
}

impl Model for Chunks {
    ghost use Rattle.aw_node_list.specs.Chunks.{Chunked};

    ghost Value = { Chunked };

    ghost use Rattle.aw_node_list.specs.ChunkRows.{chunked_of, AreLaid};

    ghost view = { chunked_of };

    ghost invariant = { AreLaid };
}

/// The chunk under a place, by halves.
fn search_under(starts: &[u32], place: usize) -> usize
    requires some { 0 < length starts.now }
    requires first { slice_index_or starts.now 0 0 ≤ place }
    ensures { IsUnder starts.now place result }
{
    let mut low = 0usize;
    let mut high = starts.len();
    while high - low > 1 {
        let middle = low + (high - low) / 2;
        if starts[middle] as usize <= place {
            low = middle;
        } else {
            high = middle;
        }
    }
    low
}

/// The chunk under a place. Where all numbers came in order, each chunk but the last is full, and so the first guess is right.
fn chunk_under(starts: &[u32], place: usize) -> usize
    requires some { 0 < length starts.now }
    requires first { slice_index_or starts.now 0 0 ≤ place }
    ensures { IsUnder starts.now place result }
{
    let guess = place / CHUNK;
    if guess < starts.len() && starts[guess] as usize <= place {
        let next = guess + 1;
        if next == starts.len() || place < starts[next] as usize {
            return guess;
        }
    }
    search_under(starts, place)
}

/// The number at a place of chunks that begin at these places.
fn number_at(list: &[Chunk], starts: &[u32], place: usize) -> u32
    requires begins { starts.now ≡ begins 0 list.now }
    requires place { place < length (concat list.now) }
    ensures { slice_get (concat list.now) place ≡ Some result }
{
    let at = chunk_under(starts, place);
    list[at].at(place - starts[at] as usize)
}

/// One more for each. The function stays one of its own, so that the compiler sees the slice alone, and counts several up at once.
#[inline(never)]
fn count_up(starts: &mut [u32])
    requires { All (λ s. s < 2 ^ 32 - 1) starts.old }
    ensures { starts.new ≡ list_map suc starts.old }
{
    let mut at = 0usize;
    while at < starts.len() {
        starts[at] += 1;
        at += 1;
    }
}

/// Puts a number in, at a place of a chunk that is not full. Those behind it begin one place later.
fn put_in(list: &mut [Chunk], starts: &mut [u32], at: usize, place: usize, number: u32)
    requires begins { starts.old ≡ begins 0 list.old }
    requires within { at < length starts.old }
    requires lies { LiesIn list.old place at }
    requires room { length (chunk_at list.old at) < 512 }
    requires few { length (concat list.old) < 2 ^ 32 - 1 }
    ensures items { concat list.new ≡ insert (concat list.old) place number }
    ensures begins { starts.new ≡ begins 0 list.new }
{
    list[at].put(place - starts[at] as usize, number);
    count_up(&mut starts[at + 1..]);
}

/// Makes empty chunks until there are so many.
fn add_spare(spare: &mut Vec<Chunk>, most: usize) -> Result<(), AllocError>
    requires { All (λ c. c ≡ []) spare.old.items }
    ensures empty { All (λ c. c ≡ []) spare.new.items }
    ensures some { OnOk result (most ≤ vec_len spare.new) }
    ensures kept { vec_len spare.old ≤ vec_len spare.new }
{
    let alloc = *spare.allocator();
    while spare.len() < most {
        spare.push(Chunk::new(alloc)?)?;
    }
    Ok(())
}

/// Takes one of the empty chunks, of which there is one.
fn take_spare(spare: &mut Vec<Chunk>) -> Chunk
    requires some { 0 < vec_len spare.old }
    requires empty { All (λ c. c ≡ []) spare.old.items }
    ensures new { result ≡ [] }
    ensures empty { All (λ c. c ≡ []) spare.new.items }
    ensures len { vec_len spare.new + 1 ≡ vec_len spare.old }
{
    let Some(new) = spare.pop() else {
        unreachable!();
    };
    new
}

/// Puts a chunk in among others, and the place at which it begins. There is room for both.
fn put_chunk(list: &mut Vec<Chunk>, starts: &mut Vec<u32>, at: usize, start: u32, new: Chunk)
    requires list { (at ≤ vec_len list.old) × (vec_len list.old < vec_capacity list.old) }
    requires starts { (at ≤ vec_len starts.old) × (vec_len starts.old < vec_capacity starts.old) }
    ensures list { list.new.items ≡ insert list.old.items at new }
    ensures starts { starts.new.items ≡ insert starts.old.items at start }
    ensures more { (vec_len list.new ≡ vec_len list.old + 1) × (vec_len starts.new ≡ vec_len starts.old + 1) }
    ensures room { (vec_capacity list.old ≤ vec_capacity list.new) × (vec_capacity starts.old ≤ vec_capacity starts.new) }
{
    match list.insert(at, new) {
        Ok(()) => {}
        Err(_) => unreachable!(),
    }
    match starts.insert(at, start) {
        Ok(()) => {}
        Err(_) => unreachable!(),
    }
}

impl Chunks {
    /// No chunk yet, and no memory.
    pub(crate) fn new(alloc: Global) -> Chunks
        ensures { result.chunks ≡ [] }
    {
        Chunks {
            list: Vec::new(alloc),
            starts: Vec::new(alloc),
            spare: Vec::new(alloc),
            count: 0,
        }
    }

    /// How many numbers there are.
    pub(crate) fn len(&self) -> usize
        ensures { result ≡ length (concat self.now.chunks) }
    {
        self.count
    }

    /// The number at a place, from 0, which has to be there.
    pub(crate) fn at(&self, place: usize) -> u32
        requires { place < length (concat self.now.chunks) }
        ensures { slice_get (concat self.now.chunks) place ≡ Some result }
    {
        number_at(self.list.as_slice(), self.starts.as_slice(), place)
    }

    /// Makes room to begin so many more chunks, and for as many more numbers. What is there stays, also on an error.
    pub(crate) fn reserve(&mut self, more: usize) -> Result<(), AllocError>
        ensures chunks { self.new.chunks ≡ self.old.chunks }
        ensures spare { OnOk result (more ≤ self.new.spare) }
        ensures few { OnOk result (length (concat self.old.chunks) + more ≤ 2 ^ 32 - 1) }
        ensures more { self.old.spare ≤ self.new.spare }
    {
        if MOST - self.count < more {
            return Err(AllocError);
        }
        self.list.reserve(more)?;
        self.starts.reserve(more)?;
        add_spare(&mut self.spare, more)
    }

    /// Begins a chunk behind the others, and tells its position.
    fn begin(&mut self) -> usize
        requires { 0 < self.old.spare }
        ensures chunks { self.new.chunks ≡ self.old.chunks ++ [] ∷ [] }
        ensures position { result ≡ length self.old.chunks }
        ensures spare { self.old.spare ≤ self.new.spare + 1 }
    {
        let at = self.list.len();
        let new = take_spare(&mut self.spare);
        put_chunk(&mut self.list, &mut self.starts, at, self.count as u32, new);
        at
    }

    /// Makes two chunks of one that is full.
    fn halve(&mut self, at: usize)
        requires within { at < length self.old.chunks }
        requires full { length (chunk_at self.old.chunks at) ≡ 512 }
        requires spare { 0 < self.old.spare }
        ensures halved { IsHalved self.old.chunks at self.new.chunks }
        ensures spare { self.old.spare ≤ self.new.spare + 1 }
    {
        let mut upper = take_spare(&mut self.spare);
        self.list[at].halve(&mut upper);
        let start = self.starts[at] + HALF as u32;
        put_chunk(&mut self.list, &mut self.starts, at + 1, start, upper);
    }

    /// Whether no more numbers fit in the chunk at a position.
    fn is_full(&self, at: usize) -> bool
        requires { at < length self.now.chunks }
        ensures yes { result ≡ true → length (chunk_at self.now.chunks at) ≡ 512 }
        ensures no { result ≡ false → length (chunk_at self.now.chunks at) < 512 }
    {
        self.list[at].is_full()
    }

    /// The place at which the chunk at a position begins.
    fn start(&self, at: usize) -> usize
        requires { at < length self.now.chunks }
        ensures { result ≡ begin_of self.now.chunks at }
    {
        self.starts[at] as usize
    }

    /// The position of a chunk in which a place lies, or right behind which, where there is a chunk.
    fn find(&self, place: usize) -> usize
        requires some { 0 < length self.now.chunks }
        requires place { place ≤ length (concat self.now.chunks) }
        ensures lies { LiesIn self.now.chunks place result }
        ensures few { result < 2 ^ 64 - 1 }
    {
        chunk_under(self.starts.as_slice(), place)
    }

    /// Whether the place is behind all numbers, and no chunk ends there that is not full.
    fn ends_full(&self, place: usize) -> bool
        requires { place ≤ length (concat self.now.chunks) }
        ensures yes { result ≡ true → place ≡ length (concat self.now.chunks) }
        ensures no { result ≡ false → 0 < length self.now.chunks }
    {
        if place < self.count {
            return false;
        }
        match self.list.last() {
            Some(last) => last.is_full(),
            None => true,
        }
    }

    /// The position of a chunk that is not full, and in which a place lies. A full one becomes two; behind the last number a new
    /// one begins, so that numbers that come in order fill their chunks.
    pub(crate) fn open(&mut self, place: usize) -> usize
        requires place { place ≤ length (concat self.old.chunks) }
        requires spare { 0 < self.old.spare }
        ensures items { concat self.new.chunks ≡ concat self.old.chunks }
        ensures lies { LiesIn self.new.chunks place result }
        ensures room { length (chunk_at self.new.chunks result) < 512 }
        ensures spare { self.old.spare ≤ self.new.spare + 1 }
    {
        if self.ends_full(place) {
            return self.begin();
        }
        let at = self.find(place);
        if !self.is_full(at) {
            return at;
        }
        self.halve(at);
        if place <= self.start(at + 1) {
            at
        } else {
            at + 1
        }
    }

    /// Puts a number in, at a place in a chunk that is not full.
    pub(crate) fn put(&mut self, at: usize, place: usize, number: u32)
        requires lies { LiesIn self.old.chunks place at }
        requires room { length (chunk_at self.old.chunks at) < 512 }
        requires few { length (concat self.old.chunks) < 2 ^ 32 - 1 }
        ensures items { concat self.new.chunks ≡ insert (concat self.old.chunks) place number }
        ensures spare { self.new.spare ≡ self.old.spare }
    {
        put_in(
            self.list.as_mut_slice(),
            self.starts.as_mut_slice(),
            at,
            place,
            number,
        );
        self.count += 1;
    }
}
