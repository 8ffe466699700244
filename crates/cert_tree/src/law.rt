//! What certified claims show, and that claims which are written so are certified.

ghost use Rattle.std.specs.Prelude.{ℕ, List};
ghost use Rattle.cert_tree.specs.Trees.{AreTrueFrom, IsCertifiedFrom, claims_from};

use crate::claim_tree::ClaimTree;

/// Where claims from the root on are certified, no leaf refutes: each claim is true of the node
/// that is owed next, none is owed in the end, and none is over. It does nothing; callers that
/// prove something about claims learn this from it.
pub fn shown_by<T: ClaimTree>(it: &T)
    ensures { (claims : List T.Claim) → IsCertifiedFrom (T.tree it.now) (T.root it.now) claims →
        (leaf : T.Leaf) → T.refutes it.now leaf → ⊥ }
{
    let _ = it;
}

/// Where each node's own claim is true, the claims that are written from the root on are certified.
/// It does nothing, as `shown_by`.
pub fn written<T: ClaimTree>(it: &T)
    ensures { (count : ℕ) → AreTrueFrom (T.tree it.now) (T.own it.now) count (T.root it.now)
        → IsCertifiedFrom (T.tree it.now) (T.root it.now)
        (claims_from (T.tree it.now) (T.own it.now) count (T.root it.now)) }
{
    let _ = it;
}
