//! What the tries of a search may open together.
ghost use Rattle.std.specs.Prelude.{◌≡◌, ◌+◌, ◌-◌, ◌*◌, ◌<◌, ◌≤◌, ◌^◌, IfOk, min};
ghost use Rattle.tree_search.specs.Answer.{BoundsLeaves, HasNoLeaf, IsFirstLeast, IsOpened};
ghost use Rattle.tree_search.specs.Outcomes.{IfFound, IfSpent, IsSpent, OnNothing};
ghost use Rattle.tree_search.specs.Walks.{HasOpened};

use fux_pitch::Memory;
use std::alloc::Global;
use tree_search::{Outcome, Space, Spending, search_front, spend_depth};

/// How many budgets a purse has.
const BUDGETS: u64 = 9;

/// How many prefixes the tries of a search may still open together.
#[derive(Drop)]
pub struct Purse {
    pub left: u64,
}

impl Purse {
    /// The purse of a search with a budget: nine of it.
    pub fn of(budget: u32) -> Purse
        ensures { result.left ≡ BUDGETS * budget }
    {
        Purse {
            left: BUDGETS * u64::from(budget),
        }
    }

    /// As much of this as is there.
    fn part(&self, most: u32) -> u32
        ensures { result ≡ min most self.now.left }
    {
        u64::from(most).min(self.left) as u32
    }

    /// Pays for what was spent of a part: all but what is left of it.
    fn pay(&mut self, part: u32, left: u32)
        requires part { part ≤ self.old.left }
        requires left { left ≤ part }
        ensures { self.new.left + part ≡ self.old.left + left }
    {
        self.left = self.left - u64::from(part - left);
    }

    /// A purse of its own with so much of this, or with all that is there.
    pub fn share(&mut self, most: u64) -> Purse
        ensures most { result.left ≤ most }
        ensures left { result.left + self.new.left ≡ self.old.left }
    {
        let left = most.min(self.left);
        self.left = self.left - left;
        Purse { left }
    }

    /// Puts back what is left of a share.
    pub fn put_back(&mut self, share: Purse)
        requires { self.old.left + share.left < 2 ^ 64 }
        ensures { self.new.left ≡ self.old.left + share.left }
    {
        self.left = self.left + share.left;
    }
}

/// The first leaf of least value, by a search in depth that may open so many prefixes, or as many
/// as a purse has. Each that it opens is paid; where that isn't enough, all that it might open.
pub fn depth_of<S: Space>(
    alloc: Global,
    space: &S,
    most: u32,
    purse: &mut Purse,
) -> Result<Outcome, Memory>
    ensures found { IfOk result (λ outcome. IfFound outcome (IsFirstLeast (S.live space.now)
        (S.height space.now))) }
    ensures nothing { IfOk result
        (λ outcome. OnNothing outcome (HasNoLeaf (S.live space.now) (S.height space.now))) }
    ensures charged { IfOk result (λ outcome. ¬ IsSpent outcome
        → HasOpened (IsOpened (S.live space.now) (S.height space.now)) purse.old.left
        purse.new.left) }
    ensures spent { IfOk result
        (λ outcome. IfSpent outcome (λ _. purse.new.left ≡ purse.old.left - most)) }
    ensures paid { purse.new.left ≤ purse.old.left }
{
    let part = purse.part(most);
    let Spending { outcome, left } = spend_depth(alloc, space, part)?;
    match outcome {
        Outcome::Spent { bound } => {
            purse.pay(part, 0);
            Ok(Outcome::Spent { bound })
        }
        answer => {
            purse.pay(part, left);
            Ok(answer)
        }
    }
}

/// The first leaf of least value, by a front that may open so many prefixes, or as many as a purse
/// has. A front doesn't tell how many it opens, and so all that it might open is paid.
pub fn front_of<S: Space>(
    alloc: Global,
    space: &S,
    most: u32,
    purse: &mut Purse,
) -> Result<Outcome, Memory>
    ensures found { IfOk result (λ outcome. IfFound outcome (IsFirstLeast (S.live space.now)
        (S.height space.now))) }
    ensures nothing { IfOk result
        (λ outcome. OnNothing outcome (HasNoLeaf (S.live space.now) (S.height space.now))) }
    ensures bound { IfOk result (λ outcome. IfSpent outcome (BoundsLeaves (S.live space.now)
        (S.height space.now))) }
    ensures paid { purse.new.left ≡ purse.old.left - most }
{
    let part = purse.part(most);
    purse.pay(part, 0);
    search_front(alloc, space, part)
}
