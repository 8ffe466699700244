//! The claims that are written of a tree, one after the other.

ghost use Rattle.std.specs.Prelude.{◌≡◌, [], Some, IfOk, vec_capacity};
ghost use Rattle.cert_tree.specs.Walks.{IsWalk};
ghost use Rattle.cert_tree.specs.Writing.{AreTold, claims_to_come, claims_with};
ghost use Rattle.cert_tree.specs.Trees.{AreTrueFrom, claims_from};

use crate::claim_tree::ClaimTree;
use crate::walk::{Walk, go_on, own_next};
use std::alloc::{AllocError, Global};

/// The room of a walk, in which nothing is owed.
pub fn room_for_walk<T: ClaimTree>(alloc: Global, it: &T) -> Result<Walk<T::Known>, AllocError>
    ensures { IfOk result (λ walk. vec_capacity walk.levels ≡ (T.ways it.now).height) }
{
    let levels = Vec::with_capacity(alloc, it.depth())?;
    Ok(Walk { levels, root: None })
}

/// Starts from the root in the room of a walk: all claims that are written are still to come.
pub fn begin_again<T: ClaimTree>(it: &T, walk: &mut Walk<T::Known>)
    requires room { vec_capacity walk.old.levels ≡ (T.ways it.now).height }
    requires told { AreTrueFrom (T.tree it.now) (T.own it.now) (T.ways it.now).height
        (T.root it.now) }
    ensures walk { IsWalk (T.tree it.now) (T.is_of it.now) (T.ways it.now) walk.new }
    ensures told { AreTold (T.tree it.now) (T.own it.now) (T.ways it.now) walk.new }
    ensures claims { claims_to_come (T.tree it.now) (T.own it.now) (T.ways it.now) walk.new
        ≡ claims_from (T.tree it.now) (T.own it.now) (T.ways it.now).height (T.root it.now) }
{
    walk.levels.clear();
    walk.root = Some(it.first());
}

/// The claim that comes next.
pub fn next_claim<T: ClaimTree>(it: &T, walk: &mut Walk<T::Known>) -> Option<T::Claim>
    requires walk { IsWalk (T.tree it.now) (T.is_of it.now) (T.ways it.now) walk.old }
    requires told { AreTold (T.tree it.now) (T.own it.now) (T.ways it.now) walk.old }
    ensures walk { IsWalk (T.tree it.now) (T.is_of it.now) (T.ways it.now) walk.new }
    ensures told { AreTold (T.tree it.now) (T.own it.now) (T.ways it.now) walk.new }
    ensures claims { claims_to_come (T.tree it.now) (T.own it.now) (T.ways it.now) walk.old
        ≡ claims_with result (claims_to_come (T.tree it.now) (T.own it.now) (T.ways it.now)
        walk.new) }
{
    let mut found = None;
    let claim = own_next(it, walk, &mut found)?;
    go_on(it, walk, it.is_open(claim), &found);
    Some(claim)
}
