//! Lists of keys that are linked by index, so that a key leaves its list in constant time. They are the `LinkedLists` of the
//! kit, in less room: places are numbers of 32 bits, and all memory is taken at once.
ghost use Rattle.std.specs.Prelude.{◌≡◌, ◌≢◌, ℕ, ◌^◌, ◌+◌, ◌<◌, ◌≤◌, [], ◌∷◌, ◌++◌, Some, None, IfSome, IfNone, IfOk, slice_get, vec_len};
ghost use Rattle.futures.specs.LinkedLists.{items, list_of, list_count, key_limit, without, IsApart, Moves};
ghost use Rattle.aw_work.specs.Rings.{after, before, Skips, Splices};

use std::alloc::{AllocError, Global};
use std::marker::Model;

/// So many places can have a number.
const MOST: usize = 1 << 32;

/// The places of the two neighbours.
#[derive(Clone, Copy)]
struct Link {
    prev: u32,
    next: u32,
}

/// A fixed number of lists, and of keys, each of which is in one list at most. Each list is a ring through its head: that of
/// list `n` is at `n`, and the link of a key is at `heads + key`.
#[derive(Drop)]
pub struct Lists {
    links: Vec<Link>,
    owners: Vec<Option<u32>>,
    heads: usize,
}

impl Model for Lists {
    ghost use Rattle.futures.specs.LinkedLists.{LinkedLists, lists_code};
    ghost use Rattle.futures.specs.Links.{lists_of};
    ghost use Rattle.aw_work.specs.Rings.{all_wide, IsSmall};

    ghost Value = { LinkedLists };

    ghost coded = { lists_code };

    ghost view = { λ s. lists_of (all_wide s.links.items) s.owners.items s.heads };

    ghost invariant = { λ s. IsSmall s.links.items s.owners.items s.heads };
}

/// Joins the two neighbours of a place.
fn skip(links: &mut Vec<Link>, at: usize)
    requires at_in { at < vec_len links.old }
    requires prev_in { before links.old.items at < vec_len links.old }
    requires next_in { after links.old.items at < vec_len links.old }
    ensures skips { Skips links.old.items links.new.items at }
    ensures len { vec_len links.new ≡ vec_len links.old }
{
    let Link { prev, next } = links[at];
    links[prev as usize].next = next;
    links[next as usize].prev = prev;
}

/// Puts a place just before another one.
fn splice(links: &mut Vec<Link>, at: usize, next: usize)
    requires at_in { at < vec_len links.old }
    requires next_in { next < vec_len links.old }
    requires prev_in { before links.old.items next < vec_len links.old }
    requires few { vec_len links.old ≤ 2 ^ 32 }
    requires not_next { at ≢ next }
    requires not_prev { at ≢ before links.old.items next }
    ensures splices { Splices links.old.items links.new.items at next }
    ensures len { vec_len links.new ≡ vec_len links.old }
{
    let prev = links[next].prev;
    links[at] = Link {
        prev,
        next: next as u32,
    };
    links[prev as usize].next = at as u32;
    links[next].prev = at as u32;
}

impl Lists {
    /// So many empty lists, and room for so many keys. There is no memory for more of both than places have numbers.
    pub fn new(alloc: Global, lists: usize, keys: usize) -> Result<Lists, AllocError>
        ensures count { IfOk result (λ s. list_count s ≡ lists) }
        ensures limit { IfOk result (λ s. key_limit s ≡ keys) }
        ensures no_keys { IfOk result (λ s. (key : ℕ) → list_of s key ≡ None) }
    {
        if lists > MOST || keys > MOST - lists {
            return Err(AllocError);
        }
        let size = lists + keys;
        let mut links = Vec::with_capacity(alloc, size)?;
        for at in 0..size {
            links.push_reserved(Link {
                prev: at as u32,
                next: at as u32,
            });
        }
        let mut owners = Vec::new(alloc);
        owners.resize(keys, None)?;
        Ok(Lists {
            links,
            owners,
            heads: lists,
        })
    }

    /// The list that a key is in.
    pub fn list_of(&self, key: usize) -> Option<usize>
        ensures { result ≡ list_of self.now key }
    {
        match self.owners.get(key)? {
            Some(list) => Some(*list as usize),
            None => None,
        }
    }

    /// The first key of a list.
    pub fn front(&self, list: usize) -> Option<usize>
        requires { list < list_count self.now }
        ensures value { result ≡ slice_get (items self.now list) 0 }
        ensures member { IfSome result (λ key. list_of self.now key ≡ Some list) }
        ensures empty { IfNone result ((key : ℕ) → list_of self.now key ≢ Some list) }
        ensures apart { IsApart (items self.now list) }
    {
        let first = self.links[list].next as usize;
        if first == list {
            None
        } else {
            Some(first - self.heads)
        }
    }

    /// Puts a key, which is in no list, at the end of a list.
    pub fn push_back(&mut self, list: usize, key: usize)
        requires list_in { list < list_count self.old }
        requires key_in { key < key_limit self.old }
        requires unlinked { list_of self.old key ≡ None }
        ensures moves { Moves self.old self.new key (Some list) }
        ensures last { items self.new list ≡ items self.old list ++ key ∷ [] }
        ensures others { (other : ℕ) → other ≢ list → items self.new other ≡ items self.old other }
    {
        splice(&mut self.links, self.heads + key, list);
        self.owners[key] = Some(list as u32);
    }

    /// Takes a key out of its list, if it is in one, and gives that list.
    pub fn unlink(&mut self, key: usize) -> Option<usize>
        ensures value { result ≡ list_of self.old key }
        ensures moves { Moves self.old self.new key None }
        ensures left { IfSome result (λ list. items self.new list ≡ without key (items self.old list)) }
        ensures others { (other : ℕ) → result ≢ Some other → items self.new other ≡ items self.old other }
    {
        let list = self.list_of(key)?;
        skip(&mut self.links, self.heads + key);
        self.owners[key] = None;
        Some(list)
    }
}
