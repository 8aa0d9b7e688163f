//! The nodes of several workspaces in one order.
ghost use Rattle.std.specs.Prelude.{◌≡◌, ◌+◌, ◌<◌, ◌≤◌, [], Some, None, IfOk, IfSome, IsSome, length, map as list_map, replicate, slice_index, slice_set};
ghost use Rattle.aw_world.specs.Firsts.{next_of, IsFirstOf};
ghost use Rattle.aw_world.specs.Merged.{merged, nodes_of, left_of, held_at, PassesOn};

use crate::workspace::Workspace;
use aw_node_list::{Held, Holding};
use aw_term::order::is_before;
use std::alloc::{AllocError, Global};

/// Where a node stands: the place of its workspace among all, and its place there.
#[derive(Clone, Copy, Debug)]
pub struct Spot {
    pub site: usize,
    pub place: usize,
}

/// The node of a workspace that is next in order.
fn next_held<'w, W: Workspace>(sites: &'w [W], places: &[usize], at: usize) -> Option<&'w Held>
    ensures none { result ≡ None → next_of ⟦<W as Workspace>⟧ sites.now places.now at ≡ None }
    ensures some { IfSome result (λ h. next_of ⟦<W as Workspace>⟧ sites.now places.now at ≡ Some h.now) }
{
    let site = sites.get(at)?;
    let place = places.get(at)?;
    site.nodes().get(*place)
}

/// Of two workspaces the one whose next node comes first, and the later one where both have the same node next.
fn earlier<W: Workspace>(sites: &[W], places: &[usize], best: usize, at: usize) -> usize
    requires best { best ≤ at }
    requires first { IsFirstOf ⟦<W as Workspace>⟧ sites.now places.now at best }
    ensures best { result ≤ at }
    ensures first { IsFirstOf ⟦<W as Workspace>⟧ sites.now places.now (at + 1) result }
{
    let Some(new) = next_held(sites, places, at) else {
        return best;
    };
    let Some(old) = next_held(sites, places, best) else {
        return at;
    };
    if is_before(&old.node, &new.node) {
        best
    } else {
        at
    }
}

/// The workspace whose next node is the first, where there is any.
fn first_site<W: Workspace>(sites: &[W], places: &[usize]) -> usize
    ensures { IsFirstOf ⟦<W as Workspace>⟧ sites.now places.now (length sites.now) result }
{
    let mut best = 0;
    for at in 0..sites.len() {
        best = earlier(sites, places, best, at);
    }
    best
}

/// One place on from a node.
fn past(nodes: &Holding, place: usize) -> usize
    requires { place < length nodes.now.items }
    ensures { result ≡ place + 1 }
{
    let _count = nodes.len();
    place + 1
}

/// Passes on the next node of a workspace.
fn pass<W: Workspace>(sites: &[W], places: &mut [usize], site: usize) -> Spot
    requires { IsSome (next_of ⟦<W as Workspace>⟧ sites.now places.old site) }
    ensures spot { result ≡ record { site = site; place = slice_index places.old site } }
    ensures places { places.new ≡ slice_set places.old site (slice_index places.old site + 1) }
{
    let place = places[site];
    places[site] = past(sites[site].nodes(), place);
    Spot { site, place }
}

/// Passes on the node that is first of those that are left.
fn take_next<W: Workspace>(sites: &[W], places: &mut [usize]) -> Option<Spot>
    requires { length places.old ≡ length sites.now }
    ensures none { result ≡ None → merged (left_of ⟦<W as Workspace>⟧ sites.now places.old) ≡ [] }
    ensures some { IfSome result (λ spot. PassesOn ⟦<W as Workspace>⟧ sites.now places.old places.new spot) }
{
    let site = first_site(sites, places);
    match next_held(sites, places, site) {
        Some(_) => Some(pass(sites, places, site)),
        None => None,
    }
}

/// The start of each of so many workspaces.
fn starts(alloc: Global, count: usize) -> Result<Vec<usize>, AllocError>
    ensures { IfOk result (λ places. places.items ≡ replicate count 0) }
{
    Ok(vec![in alloc; 0; count]?)
}

/// Where the nodes of all workspaces stand, in the order of nodes.
pub(crate) fn in_order<W: Workspace>(alloc: Global, sites: &[W]) -> Result<Vec<Spot>, AllocError>
    ensures { IfOk result (λ spots. list_map (held_at ⟦<W as Workspace>⟧ sites.now) spots.items ≡ list_map Some (merged (nodes_of ⟦<W as Workspace>⟧ sites.now))) }
{
    let mut places = starts(alloc, sites.len())?;
    let mut spots = Vec::new(alloc);
    while let Some(spot) = take_next(sites, places.as_mut_slice()) {
        spots.push(spot)?;
    }
    Ok(spots)
}
