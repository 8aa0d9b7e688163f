//! Which messages were delivered.
ghost use Rattle.std.specs.Prelude.{◌≡◌, ◌+◌, ◌<◌, ◌≤◌, ℕ, List, [], true, OnOk, length, drop, slice_set};
ghost use Rattle.aw_world.specs.Marks.{marks, leading, is_marked};
ghost use Rattle.aw_law_sites.specs.Worlds.{count_set};
ghost use Rattle.aw_msg.specs.declared.message.Message.{Message};

use std::alloc::{AllocError, Global};

/// Marks of the first messages, up to the last that was delivered; how many are marked before the first that is not; and
/// how many are marked.
#[derive(Drop)]
pub struct Marks {
    pub delivered: Vec<bool>,
    pub first: usize,
    pub count: usize,
    pub ghost leads: { first ≡ leading delivered.items },
    pub ghost counts: { count ≡ count_set delivered.items },
}

/// Whether a place is marked; one past the last is not.
fn is_marked(flags: &[bool], at: usize) -> bool
    ensures { result ≡ is_marked flags.now at }
{
    match flags.get(at) {
        Some(flag) => *flag,
        None => false,
    }
}

/// Goes on from a place to the first that is not marked.
fn go_on(flags: &[bool], from: usize) -> usize
    requires { from + leading (drop from flags.now) ≡ leading flags.now }
    ensures { result ≡ leading flags.now }
{
    let mut at = from;
    while at < flags.len() && is_marked(flags, at) {
        at += 1;
    }
    at
}

/// One more, where there is room.
fn one_more(count: usize, most: usize) -> usize
    requires { count < most }
    ensures { result ≡ count + 1 }
{
    count + 1
}

/// Marks a place.
fn mark(flags: &mut [bool], first: &mut usize, count: &mut usize, at: usize)
    requires at { at < length flags.old }
    requires leads { first.old ≡ leading flags.old }
    requires counts { count.old ≡ count_set flags.old }
    ensures flags { flags.new ≡ slice_set flags.old at true }
    ensures leads { first.new ≡ leading flags.new }
    ensures counts { count.new ≡ count_set flags.new }
{
    if !is_marked(flags, at) {
        *count = one_more(*count, flags.len());
    }
    flags[at] = true;
    *first = go_on(flags, *first);
}

/// Makes room for a mark at a place. It marks nothing.
fn pad(flags: &mut Vec<bool>, at: usize) -> Result<(), AllocError>
    ensures marks { (ms : List Message) → marks ms flags.new.items ≡ marks ms flags.old.items }
    ensures leads { leading flags.new.items ≡ leading flags.old.items }
    ensures counts { count_set flags.new.items ≡ count_set flags.old.items }
    ensures room { OnOk result (at < length flags.new.items) }
    ensures most { (n : ℕ) → length flags.old.items ≤ n → at < n → length flags.new.items ≤ n }
{
    while flags.len() <= at {
        flags.push(false)?;
    }
    Ok(())
}

impl Marks {
    /// Nothing is marked.
    pub fn new(alloc: Global) -> Marks
        ensures { result.delivered.items ≡ [] }
    {
        Marks {
            delivered: Vec::new(alloc),
            first: 0,
            count: 0,
        }
    }

    /// Makes room for a mark at a place. It marks nothing.
    pub fn pad(&mut self, at: usize) -> Result<(), AllocError>
        ensures marks { (ms : List Message) → marks ms self.new.delivered.items ≡ marks ms self.old.delivered.items }
        ensures counts { count_set self.new.delivered.items ≡ count_set self.old.delivered.items }
        ensures room { OnOk result (at < length self.new.delivered.items) }
        ensures most { (n : ℕ) → length self.old.delivered.items ≤ n → at < n → length self.new.delivered.items ≤ n }
    {
        pad(&mut self.delivered, at)
    }

    /// Marks a place.
    pub fn mark(&mut self, at: usize)
        requires { at < length self.old.delivered.items }
        ensures { self.new.delivered.items ≡ slice_set self.old.delivered.items at true }
    {
        mark(&mut self.delivered, &mut self.first, &mut self.count, at)
    }
}
