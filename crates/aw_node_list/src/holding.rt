//! Held nodes that stay where they lie.
ghost use Rattle.std.specs.Prelude.{◌≡◌, ◌+◌, ◌<◌, ◌≤◌, ◌^◌, [], Some, length, insert, vec_len, vec_capacity, slice_get, OnOk};
ghost use Rattle.std.specs.Option.{option_copied};
ghost use Rattle.aw_node_list.specs.InOrder.{done_at};
ghost use Rattle.aw_node_list.specs.Picked.{picked, AreKnown, AreApart};

use crate::held::Held;
use crate::order::Order;
use aw_choice::Choice;
use std::alloc::{AllocError, Global};
use std::marker::Model;

/// So many nodes can have a number.
const MOST: usize = 1 << 32;

/// Held nodes in their order. A node stays where it was put first, and its number stands at its place: one that is put in
/// between moves a few small numbers, and no node. Nodes are numbered from 0 as they come. Contracts see the nodes in their order,
/// their numbers, and how many more there is room for.
#[derive(Drop)]
pub struct Holding {
    order: Order,
    nodes: Vec<Held>,
    /// The place at which a node was put in or developed last.
    near: usize,
}

impl Model for Holding {
    ghost use Rattle.aw_node_list.specs.Row.{Row};
    ghost use Rattle.std.specs.Coded.{codes};
    ghost use Rattle.aw_node_list.specs.contracts.held.Held as held;

    ghost Value = { Row };

    ghost coded = { Prim.hlevel (codes, held.the_row.coded) };

    ghost use Rattle.aw_node_list.specs.Rows.{row_of, IsWhole};

    ghost view = { row_of };

    ghost invariant = { IsWhole };
}

/// The node at a place, over its number.
fn node_at<'n>(order: &Order, nodes: &'n [Held], place: usize) -> &'n Held
    requires place { place < length order.now.items }
    requires known { AreKnown order.now.items nodes.now }
    ensures { slice_get (picked order.now.items nodes.now) place ≡ Some result.now }
{
    let which = order.at(place);
    &nodes[which as usize]
}

/// Puts a node after the others, and its number at a place. There is room for it.
fn put_number(order: &mut Order, nodes: &mut Vec<Held>, place: usize, new: Held)
    requires place { place ≤ length order.old.items }
    requires known { AreKnown order.old.items nodes.old.items }
    requires apart { AreApart order.old.items }
    requires room { 0 < order.old.room }
    requires nodes { vec_len nodes.old < vec_capacity nodes.old }
    requires number { vec_len nodes.old < 2 ^ 32 }
    ensures items { picked order.new.items nodes.new.items ≡ insert (picked order.old.items nodes.old.items) place new }
    ensures known { AreKnown order.new.items nodes.new.items }
    ensures apart { AreApart order.new.items }
    ensures order { order.old.room ≤ order.new.room + 1 }
    ensures numbers { order.new.items ≡ insert order.old.items place (vec_len nodes.old) }
    ensures nodes { (vec_len nodes.new ≡ vec_len nodes.old + 1) × (vec_capacity nodes.old ≤ vec_capacity nodes.new) }
{
    let number = nodes.len() as u32;
    match nodes.push(new) {
        Ok(()) => {}
        Err(_) => unreachable!(),
    }
    order.insert(place, number);
}

/// Notes the choice that developed the node at a place.
fn mark_at(order: &Order, nodes: &mut [Held], place: usize, done: Choice)
    requires place { place < length order.now.items }
    requires known { AreKnown order.now.items nodes.old }
    requires apart { AreApart order.now.items }
    ensures items { picked order.now.items nodes.new ≡ done_at done place (picked order.now.items nodes.old) }
    ensures len { length nodes.new ≡ length nodes.old }
{
    let number = order.at(place);
    let node = &mut nodes[number as usize];
    node.done = Some(done);
}

impl Holding {
    /// Nothing is held. It takes no memory yet.
    pub fn new(alloc: Global) -> Holding
        ensures items { result.items ≡ [] }
        ensures numbers { result.numbers ≡ [] }
    {
        Holding {
            order: Order::new(alloc),
            nodes: Vec::new(alloc),
            near: 0,
        }
    }

    /// Where it takes its memory from.
    pub fn allocator(&self) -> Global {
        *self.nodes.allocator()
    }

    /// How many nodes are held.
    pub fn len(&self) -> usize
        ensures { result ≡ length self.now.items }
    {
        self.order.len()
    }

    /// The place at which a node was put in or developed last, from which others are sought. Any place would do, and is as right.
    pub(crate) fn near(&self) -> usize {
        self.near
    }

    /// The node at a place, from 0, which has to be there.
    pub fn at(&self, place: usize) -> &Held
        requires { place < length self.now.items }
        ensures { slice_get self.now.items place ≡ Some result.now }
    {
        node_at(&self.order, self.nodes.as_slice(), place)
    }

    /// The number of the node at a place, from 0, which has to be there.
    pub fn number_at(&self, place: usize) -> u32
        requires { place < length self.now.items }
        ensures { slice_get self.now.numbers place ≡ Some result }
    {
        self.order.at(place)
    }

    /// The node at a place, from 0; `None` past the last.
    pub fn get(&self, place: usize) -> Option<&Held>
        ensures { option_copied result ≡ slice_get self.now.items place }
    {
        if place < self.len() {
            Some(self.at(place))
        } else {
            None
        }
    }

    /// Makes room for so many more nodes. What is held stays, also on an error.
    pub fn reserve(&mut self, more: usize) -> Result<(), AllocError>
        ensures items { self.new.items ≡ self.old.items }
        ensures numbers { self.new.numbers ≡ self.old.numbers }
        ensures room { OnOk result (more ≤ self.new.room) }
    {
        if MOST.saturating_sub(self.nodes.len()) < more {
            return Err(AllocError);
        }
        self.order.reserve(more)?;
        self.nodes.reserve(more)
    }

    /// Puts a node at a place. There is room for it.
    pub(crate) fn put_at(&mut self, place: usize, new: Held)
        requires place { place ≤ length self.old.items }
        requires room { 0 < self.old.room }
        ensures items { self.new.items ≡ insert self.old.items place new }
        ensures numbers { self.new.numbers ≡ insert self.old.numbers place (length self.old.numbers) }
        ensures room { self.old.room ≤ self.new.room + 1 }
    {
        put_number(&mut self.order, &mut self.nodes, place, new);
        self.near = place;
    }

    /// Notes the choice that developed the node at a place.
    pub fn mark_done(&mut self, place: usize, done: Choice)
        requires { place < length self.old.items }
        ensures items { self.new.items ≡ done_at done place self.old.items }
        ensures numbers { self.new.numbers ≡ self.old.numbers }
        ensures room { self.new.room ≡ self.old.room }
    {
        mark_at(&self.order, self.nodes.as_mut_slice(), place, done);
        self.near = place;
    }
}
