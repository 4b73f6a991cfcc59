//! The moments that are reached by one number of steps.
ghost use Rattle.std.specs.Prelude.{ℕ, List, [], ◌∷◌, ◌++◌, ◌≡◌, ◌≢◌, ◌+◌, ◌<◌, ◌≤◌, All, None, Some, OnOk, IfNone, IfSome, IfOk, IfErr, false, length, nat_eq, true, slice_get, slice_index_or, slice_set, vec_len};
ghost use Rattle.std.specs.HashMap.{get};
ghost use Rattle.lab_orders.specs.Fronts.{AddsSteps, AreFit, states};
ghost use Rattle.lab_orders.specs.Levels.{IsApart, IsIndexed};
ghost use Rattle.lab_orders.specs.Weights.{count_limit, weight};

use crate::nodes::{Node, Reached};
use crate::worlds::World;
use std::alloc::{AllocError, Global};
use std::collections::HashMap;

/// Why not all orders were gone through.
#[derive(Clone, Copy, PartialEq, Eq)]
pub enum OrdersError {
    /// Memory couldn't grow.
    Memory,
    /// More orders lead to one state than a count can hold: 2^128 or more.
    Count,
}

/// Moments, and for each digest the place of the newest one that has it.
#[derive(Drop)]
pub(crate) struct Level<M> {
    pub(crate) nodes: Vec<Node<M>>,
    places: HashMap<u64, usize>,
    // For each node the place of the next older one of its digest.
    older: Vec<Option<usize>>,
}

impl<M> Level<M> {
    /// No moments.
    pub(crate) fn new(alloc: Global) -> Level<M>
        ensures nodes { result.nodes.items ≡ [] }
        ensures indexed { IsIndexed [] result }
    {
        Level {
            nodes: Vec::new(alloc),
            places: HashMap::new(alloc),
            older: Vec::new(alloc),
        }
    }

    /// The nodes alone.
    pub(crate) fn into_nodes(self) -> Vec<Node<M>>
        ensures { result.items ≡ self.nodes.items }
    {
        self.nodes
    }
}

// Whether the node at a place is at a moment of the same state as the one that a step has just led to.
fn is_at<W: World>(
    world: &W,
    nodes: &[Node<W::Moment>],
    place: usize,
    reached: &Reached<W::Moment, W::Hand>,
) -> bool
    requires nodes { AreFit (W.fits world.now) nodes.now }
    requires moment { W.fits world.now reached.now.at }
    requires hand { W.is_at_hand world.now reached.now.hand reached.now.at }
    ensures within { result ≡ true → place < length nodes.now }
    ensures same { result ≡ true → (node : _) → slice_get nodes.now place ≡ Some node → W.state world.now node.at ≡ W.state world.now reached.now.at }
    ensures apart { W.complete world.now → result ≡ false → (node : _) → slice_get nodes.now place ≡ Some node → W.state world.now node.at ≢ W.state world.now reached.now.at }
{
    match nodes.get(place) {
        Some(node) => world.is_same(&node.at, reached),
        None => false,
    }
}

// The place of the newest node of a digest.
fn newest_of<M>(level: &Level<M>, digest: u64) -> Option<usize>
    ensures { result ≡ get nat_eq level.now.places digest }
{
    level.places.get(&digest).copied()
}

// The place of the next older node of the digest of the one at a place.
fn older_than<M>(level: &Level<M>, place: usize) -> Option<usize>
    ensures { result ≡ slice_index_or level.now.older.items place None }
{
    match level.older.get(place) {
        Some(older) => *older,
        None => None,
    }
}

// The place of a node at a moment of the same state, among those of this digest.
fn place_of<W: World>(
    world: &W,
    level: &Level<W::Moment>,
    digest: u64,
    reached: &Reached<W::Moment, W::Hand>,
) -> Option<usize>
    requires nodes { AreFit (W.fits world.now) level.now.nodes.items }
    requires moment { W.fits world.now reached.now.at }
    requires hand { W.is_at_hand world.now reached.now.hand reached.now.at }
    ensures within { IfSome result (λ i. i < vec_len level.now.nodes) }
    ensures same { IfSome result (λ i. (node : _) → slice_get level.now.nodes.items i ≡ Some node → W.state world.now node.at ≡ W.state world.now reached.now.at) }
    ensures none { IfNone result (W.complete world.now → digest ≡ W.digest_at world.now (W.state world.now reached.now.at) → IsApart (W.state world.now) (W.digest_at world.now) level.now
        → All (λ at. at ≢ W.state world.now reached.now.at) (states (W.state world.now) level.now.nodes.items)) }
{
    let mut next = newest_of(level, digest);
    for _step in 0..level.nodes.len() {
        let Some(place) = next else {
            return None;
        };
        if is_at(world, level.nodes.as_slice(), place, reached) {
            return Some(place);
        }
        next = older_than(level, place);
    }
    None
}

// Adds orders to those of the node at a place.
fn add_at<M: Drop>(nodes: &mut Vec<Node<M>>, place: usize, count: u128) -> Result<(), OrdersError>
    requires { place < vec_len nodes.old }
    ensures uncounted { IfErr result (λ error. (node : _) → slice_get nodes.old.items place ≡ Some node → count_limit ≤ node.count + count) }
    ensures raised { OnOk result ((node : _) → slice_get nodes.old.items place ≡ Some node → nodes.new.items ≡ slice_set nodes.old.items place (record node { count = node.count + count })) }
{
    match nodes[place].count.checked_add(count) {
        Some(sum) => {
            nodes[place].count = sum;
            Ok(())
        }
        None => Err(OrdersError::Count),
    }
}

// An order with one step more.
fn longer(alloc: Global, order: &[u16], caller: u16) -> Result<Vec<u16>, AllocError>
    ensures { IfOk result (λ longer. longer.items ≡ order.now ++ caller ∷ []) }
{
    let mut all = Vec::with_capacity(alloc, order.len().saturating_add(1))?;
    all.extend_from_slice(order)?;
    all.push(caller)?;
    Ok(all)
}

// Puts a node after all others.
fn add_node<M: Drop>(level: &mut Level<M>, digest: u64, node: Node<M>) -> Result<(), AllocError>
    ensures nodes { OnOk result (level.new.nodes.items ≡ level.old.nodes.items ++ node ∷ []) }
    ensures indexed { OnOk result ((digests : List ℕ) → length digests ≡ vec_len level.old.nodes → IsIndexed digests level.old → IsIndexed (digests ++ digest ∷ []) level.new) }
{
    let older = newest_of(level, digest);
    level.older.push(older)?;
    level.places.insert(digest, level.nodes.len())?;
    level.nodes.push(node)?;
    Ok(())
}

/// One moment, to which the order of no steps leads.
pub(crate) fn first_level<M: Drop>(alloc: Global, moment: M) -> Result<Level<M>, AllocError>
    ensures { IfOk result (λ level. (node : _) × (level.nodes.items ≡ node ∷ [])
        × (node.at ≡ moment) × (node.count ≡ 1) × (node.order.items ≡ [])) }
{
    let mut level = Level::new(alloc);
    let node = Node {
        at: moment,
        count: 1,
        order: Vec::new(alloc),
    };
    match add_node(&mut level, 0, node) {
        Ok(()) => Ok(level),
        Err(error) => Err(error),
    }
}

// Puts a moment after all others, to which the orders of the node before lead by a step of this caller.
fn add_moment<M: Drop>(
    alloc: Global,
    level: &mut Level<M>,
    digest: u64,
    moment: M,
    before: &Node<M>,
    caller: u16,
) -> Result<(), AllocError>
    ensures node { OnOk result ((node : _) × (level.new.nodes.items ≡ level.old.nodes.items ++ node ∷ [])
        × (node.at ≡ moment) × (node.count ≡ before.now.count) × (node.order.items ≡ before.now.order.items ++ caller ∷ [])) }
    ensures indexed { OnOk result ((digests : List ℕ) → length digests ≡ vec_len level.old.nodes → IsIndexed digests level.old → IsIndexed (digests ++ digest ∷ []) level.new) }
{
    let order = longer(alloc, before.order.as_slice(), caller)?;
    let node = Node {
        at: moment,
        count: before.count,
        order,
    };
    match add_node(level, digest, node) {
        Ok(()) => Ok(()),
        Err(error) => Err(error),
    }
}

/// Adds the orders of the node before, each with a step of this caller more, which leads to this moment.
pub(crate) fn add_orders<W: World>(
    alloc: Global,
    world: &W,
    level: &mut Level<W::Moment>,
    reached: Reached<W::Moment, W::Hand>,
    before: &Node<W::Moment>,
    caller: u16,
) -> Result<(), OrdersError>
    requires nodes { AreFit (W.fits world.now) level.old.nodes.items }
    requires moment { W.fits world.now reached.at }
    requires hand { W.is_at_hand world.now reached.hand reached.at }
    requires count { 0 < before.now.count }
    requires leads { (W.machine world.now).go (W.state world.now before.now.at) caller ≡ Some (W.state world.now reached.at) }
    ensures uncounted { IfErr result (λ error. error ≡ OrdersError.Count → count_limit ≤ weight (W.state world.now) (λ s. 1) level.old.nodes.items + before.now.count) }
    ensures adds { OnOk result (AddsSteps (W.machine world.now) (W.state world.now) (W.fits world.now) before.now (caller ∷ []) level.old.nodes.items level.new.nodes.items) }
    ensures apart { OnOk result (W.complete world.now → IsApart (W.state world.now) (W.digest_at world.now) level.old → IsApart (W.state world.now) (W.digest_at world.now) level.new) }
{
    let digest = world.digest(&reached.at);
    match place_of(world, level, digest, &reached) {
        Some(place) => match add_at(&mut level.nodes, place, before.count) {
            Ok(()) => Ok(()),
            Err(error) => Err(error),
        },
        None => match add_moment(alloc, level, digest, reached.at, before, caller) {
            Ok(()) => Ok(()),
            Err(_) => Err(OrdersError::Memory),
        },
    }
}
