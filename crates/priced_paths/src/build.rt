//! How a web is made. No clause speaks of it: what is made is checked.
ghost use Rattle.std.specs.Prelude.{◌<◌};

use crate::pricing::Pricing;
use crate::web::{Edge, MOST_COST, MOST_EDGES, MOST_SPOTS, Spot, Web};
use fux_pitch::Memory;
use std::alloc::Global;
use tree_search::Space;

/// How many labels are tried for each slot that there is room for. Most of them make no step, which
/// is soon told.
const LABELS_OF_A_SLOT: usize = 24;

/// How many seats there are in which spots are looked up.
const SEATS: usize = 65_536;

/// How many seats are tried.
const TRIES: usize = 32;

/// A web in the making, with a seat for each spot of greatest depth, unless too many seats were
/// taken; and how many labels were tried.
#[derive(Drop)]
struct Weaver<K: Copy> {
    web: Web<K>,
    seats: Vec<u32>,
    tried: usize,
}

/// Seats that are free: they have the root, which is never looked up.
fn free_seats(alloc: Global) -> Result<Vec<u32>, Memory> {
    Ok(vec![in alloc; 0u32; SEATS]?)
}

/// The spot at a depth that keeps this, or a new one. None where there are too many.
fn spot_for<P: Pricing>(
    pricing: &P,
    weaver: &mut Weaver<P::Kept>,
    depth: usize,
    kept: P::Kept,
) -> Result<Option<u32>, Memory> {
    let count = weaver.web.spots.len();
    if count >= MOST_SPOTS {
        return Ok(None);
    }
    let start = pricing.key(&kept).wrapping_mul(0x9e37_79b9_7f4a_7c15) >> 40;
    for turn in 0..TRIES {
        let seat = (start as usize + turn) % SEATS;
        let Some(known) = weaver.seats.get(seat).copied() else {
            break;
        };
        match weaver.web.spots.get(known as usize) {
            Some(spot) if spot.depth == depth => {
                if pricing.is_same(&spot.kept, &kept) {
                    return Ok(Some(known));
                }
            }
            _ => {
                if let Some(free) = weaver.seats.get_mut(seat) {
                    *free = count as u32;
                }
                break;
            }
        }
    }
    weaver.web.spots.push(Spot {
        depth,
        kept,
        labels: 0,
        low: 0,
        high: 0,
        first: 0,
    })?;
    Ok(Some(count as u32))
}

/// The slots of a spot in the making: from the first label that makes a step on, up to the last.
#[derive(Clone, Copy)]
struct Slots {
    low: usize,
    high: usize,
    first: usize,
}

impl Slots {
    /// Takes in the edge of a label beyond all before. Labels between that make no step have empty
    /// slots.
    fn take(
        &mut self,
        edges: &mut Vec<Option<Edge>>,
        label: usize,
        edge: Edge,
    ) -> Result<(), Memory> {
        if self.high == 0 {
            self.low = label;
        } else {
            for _empty in self.high..label {
                edges.push(None)?;
            }
        }
        self.high = label.saturating_add(1);
        edges.push(Some(edge))?;
        Ok(())
    }
}

/// Adds the edges of a spot. It answers whether there was room for them.
fn add_edges<P: Pricing>(
    pricing: &P,
    weaver: &mut Weaver<P::Kept>,
    at: usize,
    depth: usize,
    kept: P::Kept,
    most: usize,
) -> Result<bool, Memory>
    requires above { depth < P.Tree.height (P.tree pricing.now) }
    requires short { depth < 192 }
{
    let labels = pricing.labels(depth);
    weaver.tried = weaver.tried.saturating_add(labels);
    let mut slots = Slots {
        low: 0,
        high: 0,
        first: weaver.web.edges.len(),
    };
    for label in 0..labels {
        if !pricing.may_step(depth, &kept, label) {
            continue;
        }
        if let Some((next, cost)) = pricing.step(depth, &kept, label) {
            let Some(to) = spot_for(pricing, weaver, depth + 1, next)? else {
                return Ok(false);
            };
            let cost = cost.min(MOST_COST);
            slots.take(&mut weaver.web.edges, label, Edge { to, cost })?;
        }
    }
    if let Some(spot) = weaver.web.spots.get_mut(at) {
        spot.labels = labels;
        spot.low = slots.low;
        spot.high = slots.high;
        spot.first = slots.first;
    }
    Ok(weaver.web.edges.len() <= most)
}

/// How many depths a web may be ahead of what it may come to in the end.
const DEPTHS_AHEAD: usize = 16;

/// Whether what was counted up to a depth will be more than this in the end, if it goes on as it
/// began.
fn is_too_much(counted: usize, depth: usize, height: usize, most: usize) -> bool {
    let part = (most / height.max(1)).saturating_mul(depth.saturating_add(DEPTHS_AHEAD));
    counted > part
}

/// Whether a web that has come to a depth will be made of too many labels, or have too many slots.
fn is_too_wide<K: Copy>(weaver: &Weaver<K>, depth: usize, height: usize, most: usize) -> bool {
    let labels = LABELS_OF_A_SLOT.saturating_mul(most);
    let slots = weaver.web.edges.len();
    is_too_much(weaver.tried, depth, height, labels) || is_too_much(slots, depth, height, most)
}

/// A web of what is kept from the start on, each depth after the one before, unless it is too big
/// or would have more slots than these.
pub fn weave<P: Pricing>(
    alloc: Global,
    pricing: &P,
    most: usize,
) -> Result<Option<Web<P::Kept>>, Memory> {
    let most = most.min(MOST_EDGES);
    let mut weaver = Weaver {
        web: Web {
            spots: Vec::new(alloc),
            edges: Vec::new(alloc),
        },
        seats: free_seats(alloc)?,
        tried: 0,
    };
    weaver.web.spots.push(Spot {
        depth: 0,
        kept: pricing.start(),
        labels: 0,
        low: 0,
        high: 0,
        first: 0,
    })?;
    let height = pricing.space().depth();
    for at in 0..MOST_SPOTS {
        let Some(spot) = weaver.web.spots.get(at) else {
            break;
        };
        let (depth, kept) = (spot.depth, spot.kept);
        if depth < height && !add_edges(pricing, &mut weaver, at, depth, kept, most)? {
            return Ok(None);
        }
        if is_too_wide(&weaver, depth, height, most) {
            return Ok(None);
        }
    }
    let Weaver {
        web,
        seats: _,
        tried: _,
    } = weaver;
    Ok(Some(web))
}
