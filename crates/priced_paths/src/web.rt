//! The web of what may be kept.
ghost use Rattle.std.specs.Prelude.{◌≡◌, ◌<◌, [], length};
ghost use Rattle.std.specs.Bool.{OnTrue};
ghost use Rattle.priced_paths.specs.Webs.{depth_in, edge_in, HasSlots, IsInside, LeadsOn, IsEdgeOf, IsSpotOf, IsWeb, slot_edge};

use crate::pricing::Pricing;
use tree_search::Space;

/// How many spots a web may have.
pub const MOST_SPOTS: usize = 4_194_304;

/// How many edges a web may have.
pub const MOST_EDGES: usize = 6_000_000;

/// How many labels its spots may have.
pub const MOST_LABELS: usize = 48_000_000;

/// What an edge may cost.
pub const MOST_COST: u32 = 524_287;

/// An edge to a later spot, and what it costs.
#[derive(Clone, Copy)]
pub struct Edge {
    pub to: u32,
    pub cost: u32,
}

/// What is kept of some paths of a length, how many labels its steps have, and its slots among the
/// edges: one for each label from `low` on, up to `high`. Under its other labels no step is made.
#[derive(Clone, Copy)]
pub struct Spot<K: Copy> {
    pub depth: usize,
    pub kept: K,
    pub labels: usize,
    pub low: usize,
    pub high: usize,
    /// Where its slots begin.
    pub first: usize,
}

/// The spots, the root's first, and the edges of all of them.
#[derive(Drop)]
pub struct Web<K: Copy> {
    pub spots: Vec<Spot<K>>,
    pub edges: Vec<Option<Edge>>,
}

/// Whether a spot's slots are for some of its labels, and stand among the edges.
fn has_slots<K: Copy>(edges: &[Option<Edge>], spot: &Spot<K>) -> bool
    ensures { OnTrue result (HasSlots edges.now spot.now) }
{
    if spot.low > spot.high || spot.high > spot.labels {
        return false;
    }
    let count = edges.len();
    let slots = spot.high - spot.low;
    slots <= count && spot.first <= count - slots
}

/// The edge in the slot of a spot for a label. None where it has no slot for it.
#[inline]
fn slot<K: Copy>(edges: &[Option<Edge>], spot: &Spot<K>, label: usize) -> Option<Edge>
    requires { HasSlots edges.now spot.now }
    ensures { result ≡ slot_edge edges.now spot.now label }
{
    if label < spot.low || label >= spot.high {
        return None;
    }
    edges[spot.first + (label - spot.low)]
}

impl<K: Copy> Web<K> {
    /// How long the paths are that are kept at a spot.
    #[inline]
    pub fn depth(&self, at: usize) -> usize
        requires { at < length self.now.spots.items }
        ensures { result ≡ depth_in self.now at }
    {
        self.spots[at].depth
    }

    /// The edge of a spot under a label.
    #[inline]
    pub fn edge(&self, at: usize, label: usize) -> Option<Edge>
        requires { IsInside self.now at }
        ensures { result ≡ edge_in self.now at label }
    {
        let spot = self.spots.get(at)?;
        if label >= spot.labels {
            return None;
        }
        slot(&self.edges, spot, label)
    }
}

/// Whether an edge leads to a later spot, one deeper, at which this is kept, and costs this, or the
/// most that an edge may where that is less.
fn leads_on<P: Pricing>(
    pricing: &P,
    web: &Web<P::Kept>,
    at: usize,
    depth: usize,
    kept: &P::Kept,
    cost: u32,
    edge: Edge,
) -> bool
    ensures { OnTrue result (LeadsOn web.now at depth kept.now cost edge) }
{
    let Some(next) = web.spots.get(edge.to as usize) else {
        return false;
    };
    if edge.to as usize <= at || edge.cost != cost.min(MOST_COST) {
        return false;
    }
    if next.depth == 0 || next.depth - 1 != depth {
        return false;
    }
    if !pricing.is_same(&next.kept, kept) {
        return false;
    }
    true
}

/// Whether the edge of a spot under a label is the step that leads on from what is kept.
fn is_edge<P: Pricing>(
    pricing: &P,
    web: &Web<P::Kept>,
    at: usize,
    spot: &Spot<P::Kept>,
    label: usize,
) -> bool
    requires above { spot.now.depth < P.Tree.height (P.tree pricing.now) }
    requires label { label < P.breadth pricing.now spot.now.depth }
    requires slots { HasSlots web.now.edges.items spot.now }
    ensures { OnTrue result (IsEdgeOf web.now at spot.now.depth
        (slot_edge web.now.edges.items spot.now label)
        (P.step_at pricing.now spot.now.depth spot.now.kept label)) }
{
    let edge = slot(&web.edges, spot, label);
    if !pricing.may_step(spot.depth, &spot.kept, label) {
        return match edge {
            None => true,
            Some(_) => false,
        };
    }
    let step = pricing.step(spot.depth, &spot.kept, label);
    match (edge, step) {
        (None, None) => true,
        (Some(edge), Some((kept, cost))) => leads_on(
            pricing, web, at, spot.depth, &kept, cost, edge,
        ),
        _ => false,
    }
}

/// Whether a spot has the edges of its steps.
fn is_spot<P: Pricing>(pricing: &P, web: &Web<P::Kept>, at: usize, spot: &Spot<P::Kept>) -> bool
    ensures { OnTrue result (IsSpotOf (P.Tree.height (P.tree pricing.now)) (P.breadth pricing.now)
        (P.step_at pricing.now) web.now at spot.now) }
{
    if !has_slots(&web.edges, spot) {
        return false;
    }
    if spot.depth >= pricing.space().depth() {
        if spot.labels != 0 {
            return false;
        }
        return true;
    }
    if spot.labels != pricing.labels(spot.depth) {
        return false;
    }
    for label in 0..spot.labels {
        if !is_edge(pricing, web, at, spot, label) {
            return false;
        }
    }
    true
}

/// Whether a web begins with what is kept at first and each of its spots has the edges of its
/// steps.
pub fn is_web<P: Pricing>(pricing: &P, web: &Web<P::Kept>) -> bool
    ensures { OnTrue result (IsWeb (P.kept_of pricing.now []) (P.Tree.height (P.tree pricing.now))
        (P.breadth pricing.now) (P.step_at pricing.now) web.now) }
{
    let Some(root) = web.spots.first() else {
        return false;
    };
    if web.spots.len() > MOST_SPOTS || root.depth != 0 {
        return false;
    }
    if !pricing.is_same(&root.kept, &pricing.start()) {
        return false;
    }
    for at in 0..web.spots.len() {
        if !is_spot(pricing, web, at, &web.spots[at]) {
            return false;
        }
    }
    true
}
