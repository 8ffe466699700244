//! Trees that are made as they are searched.
ghost use Rattle.std.specs.Prelude.{◌≡◌, ℕ, ◌<◌, ◌≤◌, [], List, Option, IsTrue};
ghost use Rattle.tree_search.specs.Space.{IsInner, HasChild, HasLiveChild, IsFoundAt, IsFoundChild, IsMadeChild, IsLast, IsMadeAgain, IsToldBefore, AreNoBetter, FloorsGrow};

/// A tree of bounded depth, whose live nodes have floors. A node is named by its path, the child
/// numbers from the root to it. A node at `depth` is a leaf, and its floor is its value.
pub trait Space {
    /// What stands for a path while the search is there.
    type Node: Copy;

    /// The floor of the node at a path, or none where no live node is.
    ghost live: { Self → List ℕ → Option ℕ };

    /// How many children the node at a path has, dead ones too.
    ghost width: { Self → List ℕ → ℕ };

    /// How long the path to a leaf is.
    ghost height: { Self → ℕ };

    /// The node stands for the path.
    ghost is_at: { Self → Self.Node → List ℕ → Type 0 };

    /// What `next_child` tells of a child by answering its number, so that it isn't asked again
    /// where the child is made; nothing, but where a space says what.
    ghost is_told: { Self → Self.Node → ℕ → Type 0 } = { λ _ _ _. Unit {0} };

    /// How long the path to a leaf is.
    fn depth(&self) -> usize
        ensures value { result ≡ height self.now }
        ensures bounded { result ≤ 192 };

    /// The root with its floor, if it is live.
    fn root(&self) -> Option<(Self::Node, u64)>
        ensures { IsFoundAt (is_at self.now) (live self.now) [] result };

    /// How many children a node has, dead ones too.
    fn count(&self, node: &Self::Node) -> usize
        requires { IsInner (is_at self.now node.now) (height self.now) }
        ensures value { (path : List ℕ) → is_at self.now node.now path → result
            ≡ width self.now path }
        ensures bounded { result ≤ 8192 };

    /// A child with its floor, if it is live.
    fn child(&self, node: &Self::Node, k: usize) -> Option<(Self::Node, u64)>
        requires { HasChild (is_at self.now node.now) (height self.now) (width self.now) k }
        ensures { IsFoundChild (is_at self.now) (live self.now) k node.now result };

    /// The floor of a child whose number `next_child` answered, if it is live: then the child is
    /// written into the place that is given.
    #[inline]
    fn child_into(&self, node: &Self::Node, k: usize, child: &mut Self::Node) -> Option<u64>
        requires child { HasChild (is_at self.now node.now) (height self.now) (width self.now) k }
        requires told { is_told self.now node.now k }
        ensures { IsMadeChild (is_at self.now) (live self.now) k node.now child.new result }
    {
        match self.child(node, k) {
            Some((made, floor)) => {
                *child = made;
                Some(floor)
            }
            None => None,
        }
    }

    /// The floor of a child that is known to be live, as a search knows of one that it comes back
    /// to. The child is written into the place that is given. A space that can make such a child
    /// without finding out whether it is live does so here.
    #[inline]
    fn remake(&self, node: &Self::Node, k: usize, child: &mut Self::Node) -> u64
        requires { HasLiveChild (is_at self.now node.now) (live self.now) k }
        ensures { IsMadeAgain (is_at self.now) (live self.now) k node.now child.new result }
    {
        match self.child(node, k) {
            Some((made, floor)) => {
                *child = made;
                floor
            }
            None => 0,
        }
    }

    /// The least number, from this one on, of a child that may be live and better than the best
    /// leaf so far, or a number that no child has where none of the rest may be. A search tries
    /// only such children, so a space that can tell without trying each one says so here. It goes
    /// on behind a child whose number was answered.
    fn next_child(&self, node: &Self::Node, from: usize, best: Option<u64>) -> usize
        requires child { HasChild (is_at self.now node.now) (height self.now) (width self.now)
            from }
        requires before { IsToldBefore (is_told self.now node.now) from }
        ensures onward { from ≤ result }
        ensures passed { (path : List ℕ) → is_at self.now node.now path
            → AreNoBetter (live self.now) path best from result }
        ensures told { (path : List ℕ) → is_at self.now node.now path
            → result < width self.now path → is_told self.now node.now result };

    /// Whether no child behind this one is live where it is live itself. A search then asks for no
    /// other one. A space that can tell at once says so here; where it says no, there may be none
    /// all the same.
    #[inline]
    fn is_last(&self, node: &Self::Node, k: usize) -> bool
        requires { HasChild (is_at self.now node.now) (height self.now) (width self.now) k }
        ensures { IsTrue result → IsLast (is_at self.now node.now) (live self.now) k }
    {
        let _ = node;
        let _ = k;
        false
    }

    /// A live node's parent is live, has that child, is no leaf, and its floor is no higher.
    ghost floors_grow: { (space : Self) → FloorsGrow (live space) (width space) (height space) };
}
