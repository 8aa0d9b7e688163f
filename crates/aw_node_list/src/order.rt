//! Numbers in an order in which one can be put in at any place.
ghost use Rattle.std.specs.Prelude.{◌≡◌, ◌+◌, ◌<◌, ◌≤◌, [], Some, OnOk, length, insert, slice_get};

use crate::chunks::Chunks;
use std::alloc::{AllocError, Global};
use std::marker::Model;

/// Numbers in an order. One that is put in between moves at most some hundred others, since the numbers lie in chunks. Contracts
/// see the numbers, and how many more there is room for.
#[derive(Drop)]
pub struct Order {
    chunks: Chunks,
}

impl Model for Order {
    ghost use Rattle.std.specs.Prelude.{◌-◌, ◌^◌, length, min};
    ghost use Rattle.std.specs.List.{concat};
    ghost use Rattle.aw_node_list.specs.Chunks.{Numbered};

    ghost Value = { Numbered };

    ghost view = { λ a. record { items = concat a.chunks.chunks; room = min a.chunks.spare (2 ^ 32 - 1 - length (concat a.chunks.chunks)) } };
}

impl Order {
    /// No number. It takes no memory yet.
    pub fn new(alloc: Global) -> Order
        ensures { result.items ≡ [] }
    {
        Order {
            chunks: Chunks::new(alloc),
        }
    }

    /// How many numbers there are.
    pub fn len(&self) -> usize
        ensures { result ≡ length self.now.items }
    {
        self.chunks.len()
    }

    /// The number at a place, from 0, which has to be there.
    pub fn at(&self, place: usize) -> u32
        requires { place < length self.now.items }
        ensures { slice_get self.now.items place ≡ Some result }
    {
        self.chunks.at(place)
    }

    /// Makes room for so many more numbers. Those that are there stay, and so does the room, also on an error.
    pub fn reserve(&mut self, more: usize) -> Result<(), AllocError>
        ensures items { self.new.items ≡ self.old.items }
        ensures room { OnOk result (more ≤ self.new.room) }
        ensures kept { self.old.room ≤ self.new.room }
    {
        self.chunks.reserve(more)
    }

    /// Puts a number at a place. There is room for it.
    pub fn insert(&mut self, place: usize, number: u32)
        requires within { place ≤ length self.old.items }
        requires room { 0 < self.old.room }
        ensures items { self.new.items ≡ insert self.old.items place number }
        ensures room { self.old.room ≤ self.new.room + 1 }
    {
        let at = self.chunks.open(place);
        self.chunks.put(at, place, number);
    }
}
