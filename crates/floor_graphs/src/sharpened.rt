//! A space with the sharper floors of a guide.

use crate::guide::Guide;
use tree_search::Space;

/// The space of a guide, with the same leaves, values and order. The floor of a node is the
/// greatest of the space's floors and of the guide's sums on the way to it, and a node is dead too
/// where there is no sum on the way to it.
#[derive(Drop)]
pub struct Sharpened<'a, G: Guide> {
    pub guide: &'a G,
}

/// A node of the guide's space, with its place and its sharpened floor.
#[derive(Clone, Copy)]
pub struct Sharp<N: Copy, P: Copy> {
    pub node: N,
    pub place: P,
    pub floor: u64,
}

impl<'a, G: Guide> Space for Sharpened<'a, G> {
    ghost use Rattle.std.specs.Prelude.{◌≡◌, Some};
    ghost use Rattle.floor_graphs.specs.Sharper.{sharpened};
    ghost use Rattle.floor_graphs.specs.Laws.{sharpened_grows};

    type Node = Sharp<<G::Tree as Space>::Node, G::Place>;

    ghost live = { λ s. sharpened (G.Tree.live (G.tree s.guide.now)) (G.sum s.guide.now) };

    ghost width = { λ s. G.Tree.width (G.tree s.guide.now) };

    ghost height = { λ s. G.Tree.height (G.tree s.guide.now) };

    ghost is_at = { λ s sharp path. G.Tree.is_at (G.tree s.guide.now) sharp.node path × G.stands s.guide.now sharp.place path
        × (sharpened (G.Tree.live (G.tree s.guide.now)) (G.sum s.guide.now) path ≡ Some sharp.floor) };

    ghost is_told = { λ s sharp. G.Tree.is_told (G.tree s.guide.now) sharp.node };

    ghost floors_grow = { λ s. sharpened_grows (G.Tree.live (G.tree s.guide.now)) (G.sum s.guide.now)
        (G.Tree.width (G.tree s.guide.now)) (G.Tree.height (G.tree s.guide.now)) (G.Tree.floors_grow (G.tree s.guide.now)) };

    fn depth(&self) -> usize {
        self.guide.space().depth()
    }

    fn root(&self) -> Option<(Self::Node, u64)> {
        let (node, floor) = self.guide.space().root()?;
        let (place, sum) = self.guide.start()?;
        let floor = floor.max(sum);
        Some((Sharp { node, place, floor }, floor))
    }

    fn count(&self, sharp: &Self::Node) -> usize {
        self.guide.space().count(&sharp.node)
    }

    fn child(&self, sharp: &Self::Node, k: usize) -> Option<(Self::Node, u64)> {
        let (node, floor) = self.guide.space().child(&sharp.node, k)?;
        let (place, sum) = self.guide.follow(&sharp.place, k, &node)?;
        let floor = sharp.floor.max(floor).max(sum);
        Some((Sharp { node, place, floor }, floor))
    }

    fn child_into(&self, sharp: &Self::Node, k: usize, child: &mut Self::Node) -> Option<u64> {
        let floor = self
            .guide
            .space()
            .child_into(&sharp.node, k, &mut child.node)?;
        let (place, sum) = self.guide.follow(&sharp.place, k, &child.node)?;
        child.place = place;
        child.floor = sharp.floor.max(floor).max(sum);
        Some(child.floor)
    }

    fn remake(&self, sharp: &Self::Node, k: usize, child: &mut Self::Node) -> u64 {
        let own = self.guide.space().remake(&sharp.node, k, &mut child.node);
        let Some((next, sum)) = self.guide.follow(&sharp.place, k, &child.node) else {
            return 0;
        };
        child.place = next;
        child.floor = sharp.floor.max(own).max(sum);
        child.floor
    }

    fn next_child(&self, sharp: &Self::Node, from: usize, best: Option<u64>) -> usize {
        self.guide.space().next_child(&sharp.node, from, best)
    }
}
