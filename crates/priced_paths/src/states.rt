//! The states of what may be kept, each once.
ghost use Rattle.std.specs.Prelude.{◌≡◌, ◌+◌, ◌<◌, ◌≤◌, [], ◌∷◌, is_some, slice_get, Some, Err, IfOk, OnOk};
ghost use Rattle.priced_paths.specs.Sizes.{IsTooLarge, edges_of, labels_under, state_after, state_at};
ghost use Rattle.priced_paths.specs.Listed.{AreAllStates, AreCounted, AreWorkable, GrowsBy, IsWorked};
ghost use Rattle.priced_paths.specs.declared.states.WebFault.TheVariants.{Memory as no_memory, TooLarge as too_large};

use crate::pricing::Pricing;
use crate::web::{MOST_EDGES, MOST_LABELS, MOST_SPOTS};
use fux_pitch::Memory;
use indexmap::IndexSet;
use std::alloc::Global;
use tree_search::Space;

/// What is kept, where so many labels were taken.
#[derive(Clone, Copy, PartialEq, Eq, Hash)]
pub struct State<K> {
    pub depth: usize,
    pub kept: K,
}

/// Why there is no web.
#[derive(Clone, Copy, Debug, PartialEq, Eq)]
pub enum WebFault {
    /// What is kept is too much for a web.
    TooLarge,
    Memory,
}

impl From<Memory> for WebFault {
    ghost from_gives = { λ _ fault. fault ≡ no_memory };

    fn from(_: Memory) -> Self {
        WebFault::Memory
    }
}

/// How many labels and edges some states have.
#[derive(Clone, Copy)]
pub(crate) struct Tally {
    pub labels: usize,
    pub edges: usize,
}

/// How many labels a state has.
pub(crate) fn labels_at<P: Pricing>(pricing: &P, depth: usize) -> usize
    ensures value { result ≡ labels_under (P.Tree.height (P.tree pricing.now))
        (P.breadth pricing.now) depth }
    ensures above { 0 < result → depth < P.Tree.height (P.tree pricing.now) }
    ensures all { 0 < result → result ≡ P.breadth pricing.now depth }
    ensures short { 0 < result → depth < 192 }
{
    if depth >= pricing.space().depth() {
        return 0;
    }
    pricing.labels(depth)
}

/// The state behind a label of one, if it makes a step.
fn next_state<P: Pricing>(
    pricing: &P,
    state: &State<P::Kept>,
    label: usize,
) -> Option<State<P::Kept>>
    requires above { state.now.depth < P.Tree.height (P.tree pricing.now) }
    requires label { label < P.breadth pricing.now state.now.depth }
    requires short { state.now.depth < 192 }
    ensures { result ≡ state_after (P.Tree.height (P.tree pricing.now)) (P.breadth pricing.now)
        (P.step_at pricing.now) state.now label }
{
    if !pricing.may_step(state.depth, &state.kept, label) {
        return None;
    }
    let (kept, _cost) = pricing.step(state.depth, &state.kept, label)?;
    Some(State {
        depth: state.depth + 1,
        kept,
    })
}

/// Lists the state behind a label of one, and tells whether it makes a step.
fn list_next<P: Pricing>(
    pricing: &P,
    states: &mut IndexSet<State<P::Kept>>,
    state: &State<P::Kept>,
    label: usize,
) -> Result<bool, Memory>
    requires above { state.now.depth < P.Tree.height (P.tree pricing.now) }
    requires label { label < P.breadth pricing.now state.now.depth }
    requires short { state.now.depth < 192 }
    ensures made { IfOk result (λ made. made ≡ is_some (state_after
        (P.Tree.height (P.tree pricing.now)) (P.breadth pricing.now) (P.step_at pricing.now)
        state.now label)) }
    ensures grown { OnOk result (GrowsBy (state_after (P.Tree.height (P.tree pricing.now))
        (P.breadth pricing.now) (P.step_at pricing.now) state.now label) states.old.keys
        states.new.keys) }
{
    let Some(next) = next_state(pricing, state, label) else {
        return Ok(false);
    };
    states.insert(next)?;
    Ok(true)
}

/// Lists the states behind one that has so many labels, and tells how many of these make a step.
fn list_steps<P: Pricing>(
    pricing: &P,
    states: &mut IndexSet<State<P::Kept>>,
    state: &State<P::Kept>,
    labels: usize,
) -> Result<usize, WebFault>
    requires labels { labels ≡ labels_under (P.Tree.height (P.tree pricing.now))
        (P.breadth pricing.now) state.now.depth }
    requires above { 0 < labels → state.now.depth < P.Tree.height (P.tree pricing.now) }
    requires all { 0 < labels → labels ≡ P.breadth pricing.now state.now.depth }
    requires short { 0 < labels → state.now.depth < 192 }
    requires workable { AreWorkable (P.kept_of pricing.now []) (P.Tree.height (P.tree pricing.now))
        (P.breadth pricing.now) (P.step_at pricing.now) state.now states.old.keys }
    ensures worked { OnOk result (IsWorked (P.kept_of pricing.now [])
        (P.Tree.height (P.tree pricing.now)) (P.breadth pricing.now) (P.step_at pricing.now)
        state.now states.old.keys states.new.keys) }
    ensures edges { IfOk result (λ edges. edges ≡ edges_of (P.Tree.height (P.tree pricing.now))
        (P.breadth pricing.now) (P.step_at pricing.now) state.now) }
    ensures few { IfOk result (λ edges. edges ≤ labels) }
    ensures large { result ≡ Err too_large → IsTooLarge (P.kept_of pricing.now [])
        (P.Tree.height (P.tree pricing.now)) (P.breadth pricing.now) (P.step_at pricing.now) }
{
    let mut edges = 0;
    for label in 0..labels {
        let made = list_next(pricing, states, state, label)?;
        if states.len() > MOST_SPOTS {
            return Err(WebFault::TooLarge);
        }
        if made {
            edges += 1;
        }
    }
    Ok(edges)
}

/// Lists the states behind the one at a place, and counts its labels and edges.
fn work_state<P: Pricing>(
    pricing: &P,
    states: &mut IndexSet<State<P::Kept>>,
    at: usize,
    state: &State<P::Kept>,
    tally: Tally,
) -> Result<Tally, WebFault>
    requires there { slice_get states.old.keys at ≡ Some state.now }
    requires workable { AreWorkable (P.kept_of pricing.now []) (P.Tree.height (P.tree pricing.now))
        (P.breadth pricing.now) (P.step_at pricing.now) state.now states.old.keys }
    requires counted { AreCounted (P.Tree.height (P.tree pricing.now)) (P.breadth pricing.now)
        (P.step_at pricing.now) at tally states.old.keys }
    ensures worked { OnOk result (IsWorked (P.kept_of pricing.now [])
        (P.Tree.height (P.tree pricing.now)) (P.breadth pricing.now) (P.step_at pricing.now)
        state.now states.old.keys states.new.keys) }
    ensures counted { IfOk result (λ tally. AreCounted (P.Tree.height (P.tree pricing.now))
        (P.breadth pricing.now) (P.step_at pricing.now) (at + 1) tally states.new.keys) }
    ensures large { result ≡ Err too_large → IsTooLarge (P.kept_of pricing.now [])
        (P.Tree.height (P.tree pricing.now)) (P.breadth pricing.now) (P.step_at pricing.now) }
{
    let own = labels_at(pricing, state.depth);
    if own > MOST_LABELS - tally.labels {
        return Err(WebFault::TooLarge);
    }
    let edges = list_steps(pricing, states, state, own)?;
    if edges > MOST_EDGES - tally.edges {
        return Err(WebFault::TooLarge);
    }
    Ok(Tally {
        labels: tally.labels + own,
        edges: tally.edges + edges,
    })
}

/// The state of the empty path.
fn first_state<P: Pricing>(alloc: Global, pricing: &P) -> Result<IndexSet<State<P::Kept>>, Memory>
    ensures { IfOk result (λ states. states.keys ≡ state_at 0 (P.kept_of pricing.now []) ∷ []) }
{
    let mut states = IndexSet::new(alloc);
    states.insert(State {
        depth: 0,
        kept: pricing.start(),
    })?;
    Ok(states)
}

/// All states of what is kept, each behind those that lead to it.
pub(crate) fn states_of<P: Pricing>(
    alloc: Global,
    pricing: &P,
) -> Result<IndexSet<State<P::Kept>>, WebFault>
    ensures states { IfOk result (λ states. AreAllStates (P.kept_of pricing.now [])
        (P.Tree.height (P.tree pricing.now)) (P.breadth pricing.now) (P.step_at pricing.now)
        states.keys) }
    ensures large { result ≡ Err too_large → IsTooLarge (P.kept_of pricing.now [])
        (P.Tree.height (P.tree pricing.now)) (P.breadth pricing.now) (P.step_at pricing.now) }
{
    let mut states = first_state(alloc, pricing)?;
    let mut tally = Tally {
        labels: 0,
        edges: 0,
    };
    for at in 0..MOST_SPOTS {
        let Some(state) = states.get_index(at).copied() else {
            return Ok(states);
        };
        tally = work_state(pricing, &mut states, at, &state, tally)?;
    }
    Ok(states)
}
