//! What is known of pitches of which a claim is judged.

use cantus_space::CantusNode;
use rule_law::RuleSet;
use std::cmp::Ordering;

/// What is known of pitches: what rules and gauges keep of them, the rules that are broken in them,
/// how the head's cantus goes against them by the first pitch in which they differ, and how many
/// they are.
#[derive(Clone, Copy)]
pub struct CantusKnown {
    pub node: CantusNode,
    pub broken: RuleSet,
    pub order: Ordering,
    pub len: usize,
}
