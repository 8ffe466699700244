//! The nodes of one path, so that a path that shares its beginning is soon made.
ghost use Rattle.std.specs.Prelude.{◌≡◌, ℕ, ◌+◌, ◌/◌, ◌<◌, ◌≤◌, ◌++◌, ◌∷◌, [], List, IsSome, IfOk, length, take, slice_index_or, slice_set};
ghost use Rattle.tree_search.specs.Links.{path_in, IsLinked};
ghost use Rattle.tree_search.specs.Space.{HasChild, HasLiveChild, IsMadeAgain, IsMadeAt, IsMadeChild};
ghost use Rattle.tree_search.specs.Trails.{AreKept, HasPlaces, IsKept, IsPut, IsTrail, Leads, made_in, node_in};

use crate::links::Link;
use crate::space::Space;
use fux_pitch::Memory;
use std::alloc::Global;

/// The nodes of a path, from the root's on, and then some that mean nothing. Those at even levels
/// stand in one list and those at odd ones in another, so that a child is made in its place while
/// its parent is read.
#[derive(Drop)]
pub struct Nodes<N: Copy> {
    pub even: Vec<N>,
    pub odd: Vec<N>,
}

/// The node at a level.
#[inline(always)]
pub fn node_at<N: Copy>(nodes: &Nodes<N>, level: usize) -> &N
    requires even { level / 2 < length nodes.now.even.items }
    requires odd { level / 2 < length nodes.now.odd.items }
    ensures { (d : N) → result.now ≡ node_in nodes.now level d }
{
    if level % 2 == 0 {
        return &nodes.even[level / 2];
    }
    &nodes.odd[level / 2]
}

/// Puts a node at the level behind this one.
#[inline(always)]
fn put<N: Copy>(nodes: &mut Nodes<N>, level: usize, node: N)
    requires even { (level + 1) / 2 < length nodes.old.even.items }
    requires odd { level / 2 < length nodes.old.odd.items }
    ensures { IsPut nodes.old nodes.new level node }
{
    if level % 2 == 0 {
        nodes.odd[level / 2] = node;
    } else {
        nodes.even[(level + 1) / 2] = node;
    }
}

/// The path of an entry and its nodes.
#[derive(Drop)]
pub struct Trail<N: Copy> {
    /// The number of the entry.
    pub entry: u32,
    /// The numbers of the entries from the root to the node, and then some that mean nothing. They
    /// ascend.
    pub entries: Vec<u32>,
    /// The child numbers down to the node, and then some that mean nothing.
    pub path: Vec<u16>,
    /// The nodes from the root to the node, and then some that mean nothing.
    pub nodes: Nodes<N>,
    /// How long the path is.
    pub level: usize,
    /// A place in which a child is made while the trail goes on from its parent to another.
    pub spare: N,
}

/// A list of copies.
fn copies<N: Copy>(alloc: Global, node: N, count: usize) -> Result<Vec<N>, Memory>
    ensures count { IfOk result (λ nodes. length nodes.items ≡ count) }
    ensures first { IfOk result (λ nodes. (d : N) → 0 < count → slice_index_or nodes.items 0 d
        ≡ node) }
{
    let mut nodes = Vec::with_capacity(alloc, count)?;
    for _k in 0..count {
        nodes.push(node)?;
    }
    Ok(nodes)
}

/// The path to the root.
pub fn start_trail<S: Space>(
    space: &S,
    alloc: Global,
    root: S::Node,
) -> Result<Trail<S::Node>, Memory>
    requires { S.is_at space.now root [] }
    ensures { IfOk result (Leads (S.is_at space.now) (S.height space.now) []) }
{
    let depth = space.depth();
    Ok(Trail {
        entry: 0,
        entries: vec![in alloc; 0u32; depth + 1]?,
        path: vec![in alloc; 0u16; depth]?,
        nodes: Nodes {
            even: copies(alloc, root, depth / 2 + 1)?,
            odd: copies(alloc, root, depth / 2 + 1)?,
        },
        level: 0,
        spare: root,
    })
}

/// The floor of a child of the node at a level, if it is live: then it is made at the next level.
fn child_behind<S: Space>(
    space: &S,
    nodes: &mut Nodes<S::Node>,
    level: usize,
    k: usize,
) -> Option<u64>
    requires places { HasPlaces (S.height space.now) nodes.old }
    requires above { level < S.height space.now }
    requires child { (d : S.Node) → HasChild (S.is_at space.now (node_in nodes.old level d))
        (S.height space.now) (S.width space.now) k }
    requires told { (d : S.Node) → S.is_told space.now (node_in nodes.old level d) k }
    ensures made { (d : S.Node) → IsMadeChild (S.is_at space.now) (S.live space.now) k
        (node_in nodes.old level d) (node_in nodes.new (level + 1) d) result }
    ensures kept { AreKept nodes.old nodes.new level }
{
    if level % 2 == 0 {
        return space.child_into(&nodes.even[level / 2], k, &mut nodes.odd[level / 2]);
    }
    space.child_into(&nodes.odd[level / 2], k, &mut nodes.even[(level + 1) / 2])
}

/// Makes a live child of the node at a level again, at the next level.
fn remake_behind<S: Space>(space: &S, nodes: &mut Nodes<S::Node>, level: usize, k: usize)
    requires places { HasPlaces (S.height space.now) nodes.old }
    requires above { level < S.height space.now }
    requires child { (d : S.Node) → HasLiveChild (S.is_at space.now (node_in nodes.old level d))
        (S.live space.now) k }
    ensures made { (d : S.Node) (path : List ℕ) → S.is_at space.now (node_in nodes.old level d) path
        → IsSome (S.live space.now (path ++ k ∷ []))
        → S.is_at space.now (node_in nodes.new (level + 1) d) (path ++ k ∷ []) }
    ensures kept { AreKept nodes.old nodes.new level }
{
    if level % 2 == 0 {
        let _ = space.remake(&nodes.even[level / 2], k, &mut nodes.odd[level / 2]);
    } else {
        let _ = space.remake(&nodes.odd[level / 2], k, &mut nodes.even[(level + 1) / 2]);
    }
}

/// The floor of a child of the node at a level whose number was answered, if it is live: then it is
/// made at the next level where the trail goes no further, and else in the spare place.
pub fn make_child<S: Space>(
    space: &S,
    trail: &mut Trail<S::Node>,
    level: usize,
    k: usize,
) -> Option<u64>
    requires trail { IsTrail (S.is_at space.now) (S.height space.now)
        trail.old.path.items trail.old.nodes level }
    requires above { level < S.height space.now }
    requires within { k < S.width space.now (take level trail.old.path.items) }
    requires told { (d : S.Node) → S.is_told space.now (node_in trail.old.nodes level d) k }
    ensures made { IsMadeAt (S.is_at space.now) (S.live space.now)
        (take level trail.old.path.items ++ k ∷ []) (made_in trail.new level) result }
    ensures kept { IsKept trail.old trail.new level }
{
    if trail.level > level {
        return space.child_into(node_at(&trail.nodes, level), k, &mut trail.spare);
    }
    child_behind(space, &mut trail.nodes, level, k)
}

/// Goes on from a level to a child, which stands at the next one: to the entry of this number.
#[inline(always)]
fn go_on<N: Copy>(trail: &mut Trail<N>, level: usize, k: u16, entry: u32)
    requires path { level < length trail.old.path.items }
    requires entries { level + 1 < length trail.old.entries.items }
    ensures path { trail.new.path.items ≡ slice_set trail.old.path.items level k }
    ensures nodes { trail.new.nodes ≡ trail.old.nodes }
    ensures entries { trail.new.entries.items ≡ slice_set trail.old.entries.items (level + 1)
        entry }
    ensures level { trail.new.level ≡ level + 1 }
    ensures entry { trail.new.entry ≡ entry }
{
    trail.path[level] = k;
    trail.entries[level + 1] = entry;
    trail.level = level + 1;
    trail.entry = entry;
}

/// Goes from the node at a level to a child that was made: to the entry of this number.
pub fn place<N: Copy>(trail: &mut Trail<N>, level: usize, k: u16, entry: u32)
    requires path { level < length trail.old.path.items }
    requires even { (level + 1) / 2 < length trail.old.nodes.even.items }
    requires odd { level / 2 < length trail.old.nodes.odd.items }
    requires entries { level + 1 < length trail.old.entries.items }
    ensures path { trail.new.path.items ≡ slice_set trail.old.path.items level k }
    ensures nodes { IsPut trail.old.nodes trail.new.nodes level (made_in trail.old level) }
    ensures entries { trail.new.entries.items ≡ slice_set trail.old.entries.items (level + 1)
        entry }
    ensures level { trail.new.level ≡ level + 1 }
    ensures entry { trail.new.entry ≡ entry }
{
    if trail.level > level {
        let made = trail.spare;
        put(&mut trail.nodes, level, made);
    }
    go_on(trail, level, k, entry);
}

/// The greatest level of the trail at which no later entry than this one is.
#[inline]
fn level_before<N: Copy>(trail: &Trail<N>, entry: u32) -> usize
    requires within { trail.now.level < length trail.now.entries.items }
    requires root { (d : ℕ) → slice_index_or trail.now.entries.items 0 d ≡ 0 }
    ensures up { result ≤ trail.now.level }
    ensures reached { (d : ℕ) → slice_index_or trail.now.entries.items result d ≤ entry }
{
    let mut level = trail.level;
    while trail.entries[level] > entry {
        level -= 1;
    }
    level
}

/// Goes on to a child that is live, the entry of this number.
fn step<S: Space>(space: &S, trail: &mut Trail<S::Node>, k: u16, entry: u32)
    requires trail { IsTrail (S.is_at space.now) (S.height space.now)
        trail.old.path.items trail.old.nodes trail.old.level }
    requires entries { length trail.old.entries.items ≡ S.height space.now + 1 }
    requires live { IsSome (S.live space.now (take trail.old.level trail.old.path.items ++ k
        ∷ [])) }
    ensures trail { IsTrail (S.is_at space.now) (S.height space.now)
        trail.new.path.items trail.new.nodes trail.new.level }
    ensures path { trail.new.path.items ≡ slice_set trail.old.path.items trail.old.level k }
    ensures entries { trail.new.entries.items ≡ slice_set trail.old.entries.items (trail.old.level
        + 1) entry }
    ensures level { trail.new.level ≡ trail.old.level + 1 }
    ensures entry { trail.new.entry ≡ entry }
{
    let level = trail.level;
    remake_behind(space, &mut trail.nodes, level, k as usize);
    go_on(trail, level, k, entry);
}

/// Goes to an entry, by way of the last entry of the trail that its links lead to. Only the nodes
/// from there on are made.
pub fn go_to<S: Space>(space: &S, links: &[Link], trail: &mut Trail<S::Node>, entry: u32)
    requires linked { IsLinked links.now }
    requires within { entry ≤ length links.now }
    requires live { IsSome (S.live space.now (path_in links.now entry)) }
    requires trail { Leads (S.is_at space.now) (S.height space.now) links.now trail.old }
    ensures trail { Leads (S.is_at space.now) (S.height space.now) links.now trail.new }
    ensures entry { trail.new.entry ≡ entry }
{
    let level = level_before(trail, entry);
    trail.level = level;
    trail.entry = trail.entries[level];
    if trail.entry == entry {
        return;
    }
    let link = links[entry as usize - 1];
    go_to(space, links, trail, link.parent);
    step(space, trail, link.child, entry);
}
