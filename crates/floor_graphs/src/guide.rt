//! Floors that are known of a space beside its own.
ghost use Rattle.std.specs.Prelude.{◌≡◌, ℕ, [], List, Option};
ghost use Rattle.tree_search.specs.Space.{IsFoundAt};
ghost use Rattle.floor_graphs.specs.Graphs.{AreFloors};
ghost use Rattle.floor_graphs.specs.Guides.{IsFollowed, IsLiveChild};

use tree_search::Space;

/// Floors of the paths of a space, beside its own: the sum of a path is at most the value of each
/// leaf below it, and a path without a sum has no leaf below it. A sum may be what a path has paid
/// with the number of a graph's node, as `Graphs` says, or the least such sum of several graphs;
/// how it was found is all one.
pub trait Guide {
    type Tree: Space;

    /// What stands for a path while a search is there.
    type Place: Copy;

    /// The space.
    ghost tree: { Self → Self.Tree };

    /// The sum of a path, if it has one.
    ghost sum: { Self → List ℕ → Option ℕ };

    /// The place belongs to the path.
    ghost stands: { Self → Self.Place → List ℕ → Type 0 };

    /// The space.
    fn space(&self) -> &Self::Tree
        ensures { result.now ≡ tree self.now };

    /// The place and the sum of the empty path.
    fn start(&self) -> Option<(Self::Place, u64)>
        ensures { IsFoundAt (stands self.now) (sum self.now) [] result };

    /// The place and the sum of a live child.
    fn follow(
        &self,
        place: &Self::Place,
        k: usize,
        child: &<Self::Tree as Space>::Node,
    ) -> Option<(Self::Place, u64)>
        requires { IsLiveChild (stands self.now place.now) (Self.Tree.is_at (tree self.now)
            child.now) (Self.Tree.live (tree self.now)) k }
        ensures { IsFollowed (stands self.now) (sum self.now) place.now
            (Self.Tree.is_at (tree self.now) child.now) (Self.Tree.live (tree self.now)) k result };

    /// The sums are floors.
    ghost floors: { (guide : Self) → AreFloors (Self.Tree.live (tree guide)) (Self.Tree.height (tree guide)) (sum guide) };
}
