//! A space of which only what is below a cap is kept.

use tree_search::Space;

/// A space without the nodes whose floors are above `high`. The other floors are raised to `low`,
/// which may be known to be a bound of all leaves: then a search is done with the first leaf of
/// this value that it meets.
#[derive(Drop)]
pub struct Capped<'a, S: Space> {
    pub space: &'a S,
    pub low: u64,
    pub high: u64,
}

impl<'a, S: Space> Capped<'a, S> {
    ghost use Rattle.std.specs.Prelude.{◌≡◌, ◌≤◌, ℕ, Some, IsSomeAnd};
    ghost use Rattle.std.specs.Bool.{OnTrue};
    ghost use Rattle.floor_graphs.specs.Capped.{capped_floor};

    /// What is kept of a floor.
    fn cap(&self, floor: u64) -> Option<u64>
        ensures { result ≡ capped_floor self.now.low self.now.high (Some floor) }
    {
        if floor <= self.high {
            Some(self.low.max(floor))
        } else {
            None
        }
    }

    /// Whether nothing is better than the best, since no floor is below the bound.
    fn is_met(&self, best: Option<u64>) -> bool
        ensures met { OnTrue result (IsSomeAnd best (λ value. value ≤ self.now.low)) }
    {
        match best {
            None => false,
            Some(value) => value <= self.low,
        }
    }

    /// The value that the space may take for the best: what is no better than that is above the
    /// cap, or no better than the best.
    fn best_below_cap(&self, best: Option<u64>) -> Option<u64>
        ensures { (floor : ℕ) → floor ≤ self.now.high → IsSomeAnd result (λ value. value ≤ floor)
            → IsSomeAnd best (λ value. value ≤ floor) }
    {
        let Some(above) = self.high.checked_add(1) else {
            return best;
        };
        match best {
            Some(value) => Some(value.min(above)),
            None => Some(above),
        }
    }
}

impl<'a, S: Space> Space for Capped<'a, S> {
    ghost use Rattle.floor_graphs.specs.Capped.{capped, capped_grows};

    type Node = S::Node;

    ghost live = { λ s. capped (S.live s.space.now) s.low s.high };

    ghost width = { λ s. S.width s.space.now };

    ghost height = { λ s. S.height s.space.now };

    ghost is_at = { λ s. S.is_at s.space.now };

    ghost is_told = { λ s. S.is_told s.space.now };

    ghost floors_grow = { λ s. capped_grows (S.live s.space.now) s.low s.high (S.width s.space.now) (S.height s.space.now)
        (S.floors_grow s.space.now) };

    fn depth(&self) -> usize {
        self.space.depth()
    }

    fn root(&self) -> Option<(Self::Node, u64)> {
        let (root, floor) = self.space.root()?;
        let floor = self.cap(floor)?;
        Some((root, floor))
    }

    fn count(&self, node: &Self::Node) -> usize {
        self.space.count(node)
    }

    fn child(&self, node: &Self::Node, k: usize) -> Option<(Self::Node, u64)> {
        let (child, floor) = self.space.child(node, k)?;
        let floor = self.cap(floor)?;
        Some((child, floor))
    }

    fn child_into(&self, node: &Self::Node, k: usize, child: &mut Self::Node) -> Option<u64> {
        let floor = self.space.child_into(node, k, child)?;
        self.cap(floor)
    }

    fn remake(&self, node: &Self::Node, k: usize, child: &mut Self::Node) -> u64 {
        self.low.max(self.space.remake(node, k, child))
    }

    fn next_child(&self, node: &Self::Node, from: usize, best: Option<u64>) -> usize {
        if self.is_met(best) {
            return self.space.count(node);
        }
        self.space.next_child(node, from, self.best_below_cap(best))
    }
}
