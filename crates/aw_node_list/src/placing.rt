//! Held nodes found, and put in, in the order of their nodes.
ghost use Rattle.std.specs.Prelude.{◌≡◌, ◌+◌, ◌<◌, ◌≤◌, Some, true, false, insert, length, IfSome};
ghost use Rattle.std.specs.List.{AllWithin};
ghost use Rattle.aw_term.specs.Names.{node_lt};
ghost use Rattle.aw_node_list.specs.InOrder.{IsInOrder, place_in, insert_in, Lacks};

use crate::held::Held;
use crate::holding::Holding;
use aw_name::Node;
use aw_term::order::{is_before, is_node};

/// Between which places a node goes that no node from a place on is before: all held nodes in front of the first place are before
/// it, and none from the second on. It is sought downward in steps that are soon wide.
fn bounds_below(held: &Holding, node: &Node, from: usize) -> (usize, usize)
    requires ordered { IsInOrder held.now.items }
    requires from { from ≤ length held.now.items }
    requires rest { AllWithin (λ h. node_lt h.node node.now ≡ false) held.now.items from (length held.now.items) }
    ensures within { (result.0 ≤ result.1) × (result.1 ≤ length held.now.items) }
    ensures front { AllWithin (λ h. node_lt h.node node.now ≡ true) held.now.items 0 result.0 }
    ensures rest { AllWithin (λ h. node_lt h.node node.now ≡ false) held.now.items result.1 (length held.now.items) }
{
    let mut high = from;
    let mut step = 1usize;
    while high > 0 {
        let at = high.saturating_sub(step);
        if is_before(&held.at(at).node, node) {
            return (at + 1, high);
        }
        high = at;
        step = step.saturating_mul(16);
    }
    (0, 0)
}

/// Between which places a node goes that all nodes in front of a place are before. It is sought upward in steps that are soon wide,
/// since what is not near may be anywhere.
fn bounds_above(held: &Holding, node: &Node, from: usize) -> (usize, usize)
    requires ordered { IsInOrder held.now.items }
    requires from { from ≤ length held.now.items }
    requires front { AllWithin (λ h. node_lt h.node node.now ≡ true) held.now.items 0 from }
    ensures within { (result.0 ≤ result.1) × (result.1 ≤ length held.now.items) }
    ensures front { AllWithin (λ h. node_lt h.node node.now ≡ true) held.now.items 0 result.0 }
    ensures rest { AllWithin (λ h. node_lt h.node node.now ≡ false) held.now.items result.1 (length held.now.items) }
{
    let mut low = from;
    let mut step = 0usize;
    while low < held.len() {
        let at = low.saturating_add(step).min(held.len() - 1);
        if !is_before(&held.at(at).node, node) {
            return (low, at);
        }
        low = at + 1;
        step = step.saturating_mul(16).saturating_add(1);
    }
    (low, low)
}

/// Between which places a node goes: all held nodes in front of the first place are before it, and none from the second on. It is
/// sought from the place that changed last, since who works on a node mostly works near it next.
fn bounds_of(held: &Holding, node: &Node) -> (usize, usize)
    requires { IsInOrder held.now.items }
    ensures within { (result.0 ≤ result.1) × (result.1 ≤ length held.now.items) }
    ensures front { AllWithin (λ h. node_lt h.node node.now ≡ true) held.now.items 0 result.0 }
    ensures rest { AllWithin (λ h. node_lt h.node node.now ≡ false) held.now.items result.1 (length held.now.items) }
{
    let near = held.near();
    if near >= held.len() {
        return bounds_below(held, node, held.len());
    }
    if is_before(&held.at(near).node, node) {
        bounds_above(held, node, near + 1)
    } else {
        bounds_below(held, node, near)
    }
}

/// How many held nodes are before a node.
fn count_before(held: &Holding, node: &Node) -> usize
    requires { IsInOrder held.now.items }
    ensures within { result ≤ length held.now.items }
    ensures front { AllWithin (λ h. node_lt h.node node.now ≡ true) held.now.items 0 result }
    ensures rest { AllWithin (λ h. node_lt h.node node.now ≡ false) held.now.items result (length held.now.items) }
{
    let (mut low, mut high) = bounds_of(held, node);
    while low < high {
        let middle = low + (high - low) / 2;
        if is_before(&held.at(middle).node, node) {
            low = middle + 1;
        } else {
            high = middle;
        }
    }
    low
}

/// The place of a node, where it is held, by the order of the nodes.
fn find_in_order(held: &Holding, node: &Node) -> Option<usize>
    requires { IsInOrder held.now.items }
    ensures place { result ≡ place_in node.now held.now.items }
    ensures within { IfSome result (λ at. at < length held.now.items) }
{
    let at = count_before(held, node);
    match held.get(at) {
        Some(h) if is_node(node, &h.node) => Some(at),
        _ => None,
    }
}

/// Whether a node is the one at a place.
fn is_at(held: &Holding, node: &Node, place: usize) -> bool
    requires { IsInOrder held.now.items }
    ensures place { result ≡ true → place_in node.now held.now.items ≡ Some place }
    ensures within { result ≡ true → place < length held.now.items }
{
    match held.get(place) {
        Some(h) => is_node(node, &h.node),
        None => false,
    }
}

/// The place of a node, where it is held. It is looked for first at a place that the caller guesses, and right behind that. Any
/// guess is as right.
pub fn find_from(held: &Holding, node: &Node, guess: usize) -> Option<usize>
    requires { IsInOrder held.now.items }
    ensures place { result ≡ place_in node.now held.now.items }
    ensures within { IfSome result (λ at. at < length held.now.items) }
{
    if is_at(held, node, guess) {
        return Some(guess);
    }
    let next = guess.saturating_add(1);
    if is_at(held, node, next) {
        return Some(next);
    }
    find_in_order(held, node)
}

/// The place of a node, where it is held. It is looked for first at the place that changed last.
pub fn find_held(held: &Holding, node: &Node) -> Option<usize>
    requires { IsInOrder held.now.items }
    ensures place { result ≡ place_in node.now held.now.items }
    ensures within { IfSome result (λ at. at < length held.now.items) }
{
    find_from(held, node, held.near())
}

/// Puts a node that is not held in its place, and tells that place. There is room for it.
pub fn put_between(held: &mut Holding, new: Held) -> usize
    requires ordered { IsInOrder held.old.items }
    requires lacks { Lacks new.node held.old.items }
    requires room { 0 < held.old.room }
    ensures items { held.new.items ≡ insert_in new held.old.items }
    ensures place { held.new.items ≡ insert held.old.items result new }
    ensures numbers { held.new.numbers ≡ insert held.old.numbers result (length held.old.numbers) }
    ensures within { result ≤ length held.old.items }
    ensures ordered { IsInOrder held.new.items }
    ensures room { held.old.room ≤ held.new.room + 1 }
{
    let place = count_before(held, &new.node);
    held.put_at(place, new);
    place
}
