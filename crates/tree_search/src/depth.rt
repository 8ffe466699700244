//! Depth first: the children of a node in their order, and nothing that cannot be better.
ghost use Rattle.std.specs.Prelude.{◌≡◌, ℕ, ◌<◌, ◌≤◌, ◌+◌, ◌^◌, ◌++◌, ◌∷◌, ◌↔◌, [], IfOk, Some, IsSomeAnd};
ghost use Rattle.std.specs.Bool.{OnTrue, OnFalse};
ghost use Rattle.tree_search.specs.Answer.{IsFirstLeast, HasNoLeaf, BoundsLeaves, Many, AtMost, IsLiveBelowRoot, IsOpened};
ghost use Rattle.tree_search.specs.Outcomes.{IfFound, OnNothing, IfSpent, IsSpent};
ghost use Rattle.tree_search.specs.Walks.{path_to, HasOpened, HasBestBefore, HasBestAfter, OpensUnder, OpensFrom, LacksUnder, LacksFrom, HasLengths};

use crate::outcome::Outcome;
use crate::space::Space;
use fux_pitch::{List, Memory};
use std::alloc::Global;

/// The walk so far.
#[derive(Drop)]
pub struct Walk {
    /// The child numbers down to the node, and then some that mean nothing.
    path: Vec<u16>,
    /// The path to the best leaf, where there is one.
    best_path: Vec<u16>,
    /// The value of the best leaf.
    best: Option<u64>,
    /// How many more nodes may be opened.
    left: u32,
}

/// Whether no leaf below a node of this floor is better than the best.
#[inline]
fn is_no_better(floor: u64, best: Option<u64>) -> bool
    ensures worse { OnTrue result (IsSomeAnd best (λ value. value ≤ floor)) }
    ensures better { OnFalse result ((value : ℕ) → best ≡ Some value → floor < value) }
{
    match best {
        None => false,
        Some(value) => value <= floor,
    }
}

/// Goes through what is below a node. It answers whether the budget was enough.
#[cycle(walk)]
fn descend<S: Space>(space: &S, node: &S::Node, level: usize, walk: &mut Walk) -> bool
    requires node { S.is_at space.now node.now (path_to walk.old level) }
    requires above { level < S.height space.now }
    requires lengths { HasLengths (S.height space.now) walk.old }
    requires best { HasBestBefore (S.live space.now) (S.height space.now) (path_to walk.old level)
        walk.old }
    ensures path { path_to walk.new level ≡ path_to walk.old level }
    ensures lengths { HasLengths (S.height space.now) walk.new }
    ensures best { OnTrue result (HasBestAfter (S.live space.now) (S.height space.now)
        (S.width space.now) level walk.old walk.new) }
    ensures opened { OnTrue result (OpensUnder (S.live space.now) (S.height space.now)
        (S.width space.now) level walk.old walk.new) }
    ensures spent { OnFalse result
        (LacksUnder (S.live space.now) (S.height space.now) (S.width space.now) level walk.old) }
{
    let count = space.count(node);
    let mut from = 0;
    while from < count {
        let k = space.next_child(node, from, walk.best);
        if k >= count {
            return true;
        }
        if !enter(space, node, level, k, walk) {
            return false;
        }
        from = k + 1;
    }
    true
}

/// Goes through a child and what is below it. It answers whether the budget was enough.
#[cycle(walk)]
#[inline]
fn enter<S: Space>(space: &S, node: &S::Node, level: usize, k: usize, walk: &mut Walk) -> bool
    requires node { S.is_at space.now node.now (path_to walk.old level) }
    requires above { level < S.height space.now }
    requires within { k < S.width space.now (path_to walk.old level) }
    requires small { k < 2 ^ 16 }
    requires told { S.is_told space.now node.now k }
    requires lengths { HasLengths (S.height space.now) walk.old }
    requires best { HasBestBefore (S.live space.now) (S.height space.now) (path_to walk.old level
        ++ k ∷ []) walk.old }
    ensures path { path_to walk.new level ≡ path_to walk.old level }
    ensures lengths { HasLengths (S.height space.now) walk.new }
    ensures best { OnTrue result (HasBestBefore (S.live space.now) (S.height space.now)
        (path_to walk.old level ++ (k + 1) ∷ []) walk.new) }
    ensures opened { OnTrue result (OpensFrom (S.live space.now) (S.height space.now)
        (path_to walk.old level ++ k ∷ []) walk.old walk.new) }
    ensures spent { OnFalse result (LacksFrom (S.live space.now) (S.height space.now)
        (path_to walk.old level ++ k ∷ []) walk.old) }
{
    let mut child = *node;
    let Some(floor) = space.child_into(node, k, &mut child) else {
        return true;
    };
    if is_no_better(floor, walk.best) {
        return true;
    }
    if walk.left == 0 {
        return false;
    }
    walk.left -= 1;
    walk.path[level] = k as u16;
    if level + 1 < walk.path.len() {
        return descend(space, &child, level + 1, walk);
    }
    walk.best_path.copy_from_slice(&walk.path);
    walk.best = Some(floor);
    true
}

/// What a search in depth answers, and how much it leaves of its budget.
#[derive(Drop)]
pub struct Spending {
    pub outcome: Outcome,
    pub left: u32,
}

/// The first leaf of least value, if a budget is enough for the nodes that have to be opened, and
/// what is left of the budget. A live node below the root is opened, and takes one unit of the
/// budget, unless a leaf before it in the order of paths has no higher value than its floor. Of a
/// budget that isn't enough nothing is left. All memory is taken before the walk begins.
pub fn spend_depth<S: Space>(alloc: Global, space: &S, budget: u32) -> Result<Spending, Memory>
    ensures found { IfOk result (λ it. IfFound it.outcome (IsFirstLeast (S.live space.now)
        (S.height space.now))) }
    ensures nothing { IfOk result
        (λ it. OnNothing it.outcome (HasNoLeaf (S.live space.now) (S.height space.now))) }
    ensures spent { IfOk result
        (λ it. IfSpent it.outcome (λ _. Many (IsLiveBelowRoot (S.live space.now)) (budget + 1))) }
    ensures bound { IfOk result (λ it. IfSpent it.outcome (BoundsLeaves (S.live space.now)
        (S.height space.now))) }
    ensures floor { IfOk result (λ it. IfSpent it.outcome (λ bound. (floor : ℕ) → S.live space.now []
        ≡ Some floor → floor ≤ bound)) }
    ensures enough { AtMost (IsLiveBelowRoot (S.live space.now)) budget
        → IfOk result (λ it. ¬ IsSpent it.outcome) }

    // The budget is spent exactly where more nodes than that are to be opened.
    ensures opened { IfOk result (λ it. IsSpent it.outcome
        ↔ Many (IsOpened (S.live space.now) (S.height space.now)) (budget + 1)) }

    // Else each node that is to be opened takes a unit, and all else is left.
    ensures charged { IfOk result (λ it. ¬ IsSpent it.outcome
        → HasOpened (IsOpened (S.live space.now) (S.height space.now)) budget it.left) }
    ensures left { IfOk result (λ it. it.left ≤ budget) }
{
    let depth = space.depth();
    let path = vec![in alloc; 0u16; depth]?;
    let best_path = vec![in alloc; 0u16; depth]?;
    let Some((root, floor)) = space.root() else {
        return Ok(Spending {
            outcome: Outcome::Nothing,
            left: budget,
        });
    };
    if depth == 0 {
        return Ok(Spending {
            outcome: Outcome::Found {
                path: List::new(best_path),
                value: floor,
            },
            left: budget,
        });
    }
    let mut walk = Walk {
        path,
        best_path,
        best: None,
        left: budget,
    };
    if !descend(space, &root, 0, &mut walk) {
        return Ok(Spending {
            outcome: Outcome::Spent { bound: floor },
            left: 0,
        });
    }
    let Walk {
        path: _,
        best_path,
        best,
        left,
    } = walk;
    match best {
        None => Ok(Spending {
            outcome: Outcome::Nothing,
            left,
        }),
        Some(value) => Ok(Spending {
            outcome: Outcome::Found {
                path: List::new(best_path),
                value,
            },
            left,
        }),
    }
}

/// The first leaf of least value, if a budget is enough for the nodes that have to be opened, as
/// `spend_depth` has it.
pub fn search_depth<S: Space>(alloc: Global, space: &S, budget: u32) -> Result<Outcome, Memory>
    ensures found { IfOk result (λ outcome. IfFound outcome (IsFirstLeast (S.live space.now)
        (S.height space.now))) }
    ensures nothing { IfOk result
        (λ outcome. OnNothing outcome (HasNoLeaf (S.live space.now) (S.height space.now))) }
    ensures spent { IfOk result (λ outcome. IfSpent outcome (λ _. Many (IsLiveBelowRoot (S.live space.now))
        (budget + 1))) }
    ensures bound { IfOk result (λ outcome. IfSpent outcome (BoundsLeaves (S.live space.now)
        (S.height space.now))) }
    ensures floor { IfOk result (λ outcome. IfSpent outcome (λ bound. (floor : ℕ) → S.live space.now []
        ≡ Some floor → floor ≤ bound)) }
    ensures enough { AtMost (IsLiveBelowRoot (S.live space.now)) budget
        → IfOk result (λ outcome. ¬ IsSpent outcome) }

    // The budget is spent exactly where more nodes than that are to be opened.
    ensures opened { IfOk result (λ outcome. IsSpent outcome
        ↔ Many (IsOpened (S.live space.now) (S.height space.now)) (budget + 1)) }
{
    let Spending { outcome, left: _ } = spend_depth(alloc, space, budget)?;
    Ok(outcome)
}
