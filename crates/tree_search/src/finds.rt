//! The leaves that a search keeps of those that it met.
ghost use Rattle.std.specs.Prelude.{◌≡◌, ◌<◌, [], length, IfOk, OnOk};
ghost use Rattle.std.specs.Bool.{OnTrue, OnFalse};
ghost use Rattle.tree_search.specs.Finds.{AreAllLower, EndsAs, HasHigh, IsFinds, TakesIn, kept};

use crate::outcome::Numbered;
use fux_pitch::{List, Memory};
use std::alloc::Global;
use std::collections::BinaryHeap;

/// A leaf that was met: its value, its path and the number of its entry. So leaves are in order of
/// value and then of path.
type Leaf = (u64, (Vec<u16>, u32));

/// The first of the leaves met so far, and no more than may be.
#[derive(Drop)]
pub struct Finds {
    /// How many may be kept.
    pub most: u32,
    /// What is kept: the last comes out first.
    pub leaves: BinaryHeap<Leaf>,
}

impl Finds {
    /// Nothing is kept yet.
    pub fn new(alloc: Global, most: u32) -> Finds
        ensures most { result.most ≡ most }
        ensures none { kept result ≡ [] }
        ensures finds { IsFinds result }
    {
        Finds {
            most,
            leaves: BinaryHeap::new(alloc),
        }
    }

    /// Whether as many are kept as may be, and all of them are lower than this floor.
    pub fn are_lower(&self, floor: u64) -> bool
        requires { IsFinds self.now }
        ensures lower { OnTrue result (AreAllLower self.now.most floor (kept self.now)) }
        ensures not_lower { OnFalse result
            (length (kept self.now) ≡ self.now.most → HasHigh floor (kept self.now)) }
    {
        if self.leaves.len() < self.most as usize {
            return false;
        }
        match self.leaves.peek() {
            None => true,
            Some((value, _)) => *value < floor,
        }
    }

    /// Keeps a leaf too, and lets the last go where that is one too many.
    pub fn put(&mut self, alloc: Global, path: &[u16], value: u64, entry: u32) -> Result<(), Memory>
        requires { IsFinds self.old }
        ensures most { OnOk result (self.new.most ≡ self.old.most) }
        ensures finds { OnOk result (IsFinds self.new) }
        ensures put { OnOk result
            (TakesIn self.old.most (kept self.old) (kept self.new) value path.now entry) }
    {
        let copy = Vec::from_slice(alloc, path)?;
        self.leaves.push((value, (copy, entry)))?;
        if self.leaves.len() <= self.most as usize {
            return Ok(());
        }
        let _ = self.leaves.pop();
        Ok(())
    }

    /// What a search that goes no further comes to: the last of what is kept, or how many there are
    /// where these are fewer than may be.
    pub fn ended(mut self) -> Numbered
        requires finds { IsFinds self }
        requires some { 0 < self.most }
        ensures { EndsAs self.most (kept self) result }
    {
        let count = self.leaves.len() as u32;
        if count < self.most {
            return Numbered::Only { count };
        }
        match self.leaves.pop() {
            None => Numbered::Only { count: 0 },
            Some((value, (path, _))) => Numbered::Found {
                path: List::new(path),
                value,
            },
        }
    }
}
