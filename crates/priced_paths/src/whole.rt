//! The whole web of what may be kept.
ghost use Rattle.std.specs.Prelude.{◌≡◌, ◌+◌, ◌<◌, ◌≤◌, ◌++◌, ℕ, List, [], None, Some, Err, Option, IfOk, OnOk, length, slice_get, slice_index_or};
ghost use Rattle.priced_paths.specs.Sizes.{IsTooLarge};
ghost use Rattle.priced_paths.specs.Listed.{AreAllStates};
ghost use Rattle.priced_paths.specs.Laid.{AreLaid, IsEdgeTo, IsLaid, IsRow};
ghost use Rattle.priced_paths.specs.Webs.{IsWeb};
ghost use Rattle.priced_paths.specs.declared.states.WebFault.TheVariants.{TooLarge as too_large};

use crate::pricing::Pricing;
use crate::states::{State, WebFault, labels_at, states_of};
use crate::web::{Edge, MOST_COST, Spot, Web};
use fux_pitch::Memory;
use indexmap::IndexSet;
use std::alloc::Global;

/// The edge of a state under a label, if that makes a step.
fn edge_to<P: Pricing>(
    pricing: &P,
    states: &IndexSet<State<P::Kept>>,
    at: usize,
    state: &State<P::Kept>,
    label: usize,
) -> Option<Edge>
    requires states { AreAllStates (P.kept_of pricing.now []) (P.Tree.height (P.tree pricing.now))
        (P.breadth pricing.now) (P.step_at pricing.now) states.now.keys }
    requires there { slice_get states.now.keys at ≡ Some state.now }
    requires above { state.now.depth < P.Tree.height (P.tree pricing.now) }
    requires label { label < P.breadth pricing.now state.now.depth }
    requires short { state.now.depth < 192 }
    ensures { IsEdgeTo states.now.keys at state.now.depth result
        (P.step_at pricing.now state.now.depth state.now.kept label) }
{
    if !pricing.may_step(state.depth, &state.kept, label) {
        return None;
    }
    let (kept, cost) = pricing.step(state.depth, &state.kept, label)?;
    let next = State {
        depth: state.depth + 1,
        kept,
    };
    let to = states.get_index_of(&next)?;
    Some(Edge {
        to: to as u32,
        cost: cost.min(MOST_COST),
    })
}

/// The edges of a state that has so many labels.
fn fill_row<P: Pricing>(
    pricing: &P,
    states: &IndexSet<State<P::Kept>>,
    at: usize,
    state: &State<P::Kept>,
    labels: usize,
    row: &mut Vec<Option<Edge>>,
) -> Result<(), Memory>
    requires states { AreAllStates (P.kept_of pricing.now []) (P.Tree.height (P.tree pricing.now))
        (P.breadth pricing.now) (P.step_at pricing.now) states.now.keys }
    requires there { slice_get states.now.keys at ≡ Some state.now }
    requires above { 0 < labels → state.now.depth < P.Tree.height (P.tree pricing.now) }
    requires all { 0 < labels → labels ≡ P.breadth pricing.now state.now.depth }
    requires short { 0 < labels → state.now.depth < 192 }
    ensures { OnOk result (IsRow (P.step_at pricing.now) states.now.keys at state.now labels
        row.new.items) }
{
    row.clear();
    for label in 0..labels {
        let edge = edge_to(pricing, states, at, state, label);
        row.push(edge)?;
    }
    Ok(())
}

/// Where the edges of a row begin.
fn row_start(row: &[Option<Edge>]) -> usize
    ensures within { result ≤ length row.now }
    ensures none { (k : ℕ) → k < result → slice_index_or row.now k None ≡ None }
{
    for k in 0..row.len() {
        if row[k].is_some() {
            return k;
        }
    }
    row.len()
}

/// Where the edges of a row end.
fn row_end(row: &[Option<Edge>]) -> usize
    ensures within { result ≤ length row.now }
    ensures none { (k : ℕ) → result ≤ k → k < length row.now → slice_index_or row.now k None
        ≡ None }
{
    let mut end = 0;
    for k in 0..row.len() {
        if row[k].is_some() {
            end = k + 1;
        }
    }
    end
}

/// The spot of a state, with slots for the edges of its row.
fn lay_row<K: Copy>(
    state: &State<K>,
    row: &[Option<Edge>],
    edges: &mut Vec<Option<Edge>>,
) -> Result<Spot<K>, Memory>
    ensures laid { IfOk result (IsLaid state.now row.now edges.new.items) }
    ensures grown { OnOk result ((more : List (Option Edge)) × (edges.new.items
        ≡ edges.old.items ++ more)) }
{
    let high = row_end(row);
    let low = row_start(row).min(high);
    let first = edges.len();
    edges.extend_from_slice(&row[low..high])?;
    Ok(Spot {
        depth: state.depth,
        kept: state.kept,
        labels: row.len(),
        low,
        high,
        first,
    })
}

/// Adds the spot of a state.
fn lay_state<P: Pricing>(
    pricing: &P,
    states: &IndexSet<State<P::Kept>>,
    at: usize,
    state: &State<P::Kept>,
    row: &mut Vec<Option<Edge>>,
    web: &mut Web<P::Kept>,
) -> Result<(), Memory>
    requires states { AreAllStates (P.kept_of pricing.now []) (P.Tree.height (P.tree pricing.now))
        (P.breadth pricing.now) (P.step_at pricing.now) states.now.keys }
    requires there { slice_get states.now.keys at ≡ Some state.now }
    requires laid { AreLaid (P.Tree.height (P.tree pricing.now)) (P.breadth pricing.now)
        (P.step_at pricing.now) states.now.keys at web.old }
    ensures { OnOk result (AreLaid (P.Tree.height (P.tree pricing.now)) (P.breadth pricing.now)
        (P.step_at pricing.now) states.now.keys (at + 1) web.new) }
{
    let labels = labels_at(pricing, state.depth);
    fill_row(pricing, states, at, state, labels, row)?;
    let spot = lay_row(state, row, &mut web.edges)?;
    web.spots.push(spot)?;
    Ok(())
}

/// The web over all states.
fn web_over<P: Pricing>(
    alloc: Global,
    pricing: &P,
    states: &IndexSet<State<P::Kept>>,
) -> Result<Web<P::Kept>, Memory>
    requires { AreAllStates (P.kept_of pricing.now []) (P.Tree.height (P.tree pricing.now))
        (P.breadth pricing.now) (P.step_at pricing.now) states.now.keys }
    ensures { IfOk result (IsWeb (P.kept_of pricing.now []) (P.Tree.height (P.tree pricing.now))
        (P.breadth pricing.now) (P.step_at pricing.now)) }
{
    let keys = states.as_slice();
    let mut web = Web {
        spots: Vec::with_capacity(alloc, keys.len())?,
        edges: Vec::new(alloc),
    };
    let mut row = Vec::new(alloc);
    for at in 0..keys.len() {
        let state = keys[at];
        lay_state(pricing, states, at, &state, &mut row, &mut web)?;
    }
    Ok(web)
}

/// The web of all that a pricing keeps, unless it is too large. It tells nothing of charges, so
/// that pricings which keep the same, and differ in what they charge, have one web.
pub fn whole_web<P: Pricing>(alloc: Global, pricing: &P) -> Result<Web<P::Kept>, WebFault>
    ensures web { IfOk result (IsWeb (P.kept_of pricing.now []) (P.Tree.height (P.tree pricing.now))
        (P.breadth pricing.now) (P.step_at pricing.now)) }

    // There is one wherever it isn't too large, unless memory is short.
    ensures fits { OnOk result (IsTooLarge (P.kept_of pricing.now [])
        (P.Tree.height (P.tree pricing.now)) (P.breadth pricing.now) (P.step_at pricing.now) → ⊥) }
    ensures large { result ≡ Err too_large → IsTooLarge (P.kept_of pricing.now [])
        (P.Tree.height (P.tree pricing.now)) (P.breadth pricing.now) (P.step_at pricing.now) }
{
    let states = states_of(alloc, pricing)?;
    let web = web_over(alloc, pricing, &states)?;
    Ok(web)
}
