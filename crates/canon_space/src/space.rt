//! The canons of a kind as a tree.

ghost use Rattle.std.specs.Prelude.{◌≡◌, ◌<◌, ◌≤◌};
ghost use Rattle.canon_space.specs.Canons.{IsCanon};
ghost use Rattle.canon_space.specs.Nodes.{IsNodeOf};

use crate::bars::{CELLS, next_bar, numbered_bar};
use crate::canon::Canon;
use crate::node::CanonNode;
use penalty_sheet::Sheet;
use std::marker::Model;
use tree_search::{QuestSpace, Space};

/// The canons that are as one asks, as a tree: a child adds the bar of its number. It is dead where
/// the bar isn't as a canon setting asks, or a rule is broken by it.
#[derive(Drop)]
pub struct CanonSpace {
    canon: Canon,
    sheet: Sheet,
}

impl Model for CanonSpace {
    ghost use Rattle.canon_space.specs.Canons.{IsCanon};
    ghost use Rattle.canon_space.specs.Tasks.{CanonTask};

    ghost Value = { CanonTask };

    ghost view = { λ s. record { canon = s.canon; sheet = s.sheet } };

    ghost invariant = { λ s. IsCanon s.canon };
}

impl CanonSpace {
    /// The space of the canons that are as `canon` asks, by a sheet. It takes no memory.
    pub fn new(canon: &Canon, sheet: &Sheet) -> CanonSpace
        requires { IsCanon canon.now }
        ensures { result ≡ record { canon = canon.now; sheet = sheet.now } }
    {
        CanonSpace {
            canon: *canon,
            sheet: *sheet,
        }
    }

    /// What its canons are to be.
    pub fn canon(&self) -> &Canon
        ensures value { result.now ≡ self.now.canon }
        ensures valid { IsCanon self.now.canon }
    {
        &self.canon
    }
}

impl Space for CanonSpace {
    ghost use Rattle.canon_space.specs.Paths.{IsNodeAt, WIDTH, live_at};
    ghost use Rattle.canon_space.specs.Grows.{canons_grow};

    type Node = CanonNode;

    ghost live = { λ space. live_at space.canon space.sheet };

    ghost width = { λ _ _. WIDTH };

    ghost height = { λ space. space.canon.bars };

    ghost is_at = { λ space. IsNodeAt space.canon space.sheet };

    ghost floors_grow = { λ space. canons_grow space.canon space.sheet };

    fn depth(&self) -> usize {
        self.canon.bars as usize
    }

    fn root(&self) -> Option<(CanonNode, u64)> {
        Some((CanonNode::start(), 0))
    }

    fn count(&self, _node: &CanonNode) -> usize {
        CELLS * CELLS
    }

    fn child(&self, node: &CanonNode, k: usize) -> Option<(CanonNode, u64)> {
        match node.after(&self.canon, &self.sheet, &numbered_bar(k)) {
            Some(next) => Some((next, next.paid)),
            None => None,
        }
    }

    /// A bar may come only if each of its cells fits its voice, so those may be passed of which one
    /// doesn't.
    fn next_child(&self, node: &CanonNode, from: usize, _best: Option<u64>) -> usize {
        next_bar(&self.canon, node.bars(), from)
    }
}

/// Its live paths are exactly the whole bars that begin a canon and break no rule, with children in
/// reading order, and its leaves exactly the lawful canons, with their penalties by its sheet as
/// values.
impl QuestSpace for CanonSpace {
    ghost use Rattle.std.specs.Prelude.{List};
    ghost use Rattle.fux_grid.specs.declared.cell.Cell.{Cell};
    ghost use Rattle.canon_space.specs.Paths.{bars_at};
    ghost use Rattle.canon_space.specs.Trees.{canons};

    ghost Step = { List Cell };

    ghost quest = { λ space. canons space.canon space.sheet };

    ghost there = { λ _. bars_at };

    fn is_tree(&self) {
        let _ = self.canon();
    }
}
